//! What a directory is called.
ghost use Rattle.std.specs.Prelude.{◌≡◌, ◌≤◌, Some, length, take};
ghost use Rattle.f11_catalog.specs.DirectoryNames.{directory_called, shown_length};

use crate::users::user_of;
use f11_rad50::Name;
use f11_store::Uic;
use std::fmt;

/// What a directory is called that has a name, in the master file directory or in its own header: by its user, or by its name where that is
/// no user's, as RSX-11M-PLUS names them.
#[derive(Clone, Copy)]
pub enum DirectoryName {
    /// The directory of a user.
    User(Uic),
    /// Another one.
    Named(Name),
}

impl DirectoryName {
    /// What the directory is called that has this name: `200001.DIR;1` is `[200,1]`.
    pub fn of(name: &Name) -> DirectoryName
        ensures { result ≡ directory_called name.now }
    {
        match user_of(name) {
            Some(user) => DirectoryName::User(user),
            None => DirectoryName::Named(*name),
        }
    }

    /// The same one.
    pub(crate) fn copy(&self) -> DirectoryName
        ensures { result ≡ self.now }
    {
        match self {
            DirectoryName::User(user) => DirectoryName::User(*user),
            DirectoryName::Named(name) => DirectoryName::Named(*name),
        }
    }
}

impl fmt::Display for DirectoryName {
    ghost use Rattle.f11_catalog.specs.DirectoryNames.{directory_text};

    ghost output = { λ directory. Some (directory_text directory) };

    /// Writes `[g,m]`, or `[NAME]`, with type and version where these aren't `.DIR;1` (profile).
    fn fmt<W: fmt::Write>(&self, f: &mut fmt::Formatter<W>) -> fmt::Result {
        match self {
            DirectoryName::User(user) => write!(f, "{user}"),
            DirectoryName::Named(name) => {
                let shown = ShownDirectory(*name);
                write!(f, "[{shown}]")
            }
        }
    }
}

/// A directory's name, shown without the type and the version that directories have.
#[derive(Clone, Copy)]
struct ShownDirectory(Name);

impl fmt::Display for ShownDirectory {
    ghost use Rattle.f11_catalog.specs.DirectoryNames.{directory_shown};

    ghost output = { λ d. Some (directory_shown d.0) };

    fn fmt<W: fmt::Write>(&self, f: &mut fmt::Formatter<W>) -> fmt::Result {
        let mut buffer = [0; 19];
        let length = self.0.spell(&mut buffer);
        let shown = shown_of(&buffer[..length]);
        f.write_str(str::from_utf8(&buffer[..shown]).unwrap())
    }
}

/// How many bytes of a name's text are shown.
fn shown_of(text: &[u8]) -> usize
    ensures shown { result ≡ shown_length text.now }
    ensures within { result ≤ length text.now }
{
    if text.len() >= 6 && &text[text.len() - 6..] == b".DIR;1".as_slice() {
        text.len() - 6
    } else {
        text.len()
    }
}
