//! Why a file isn't taken out.
ghost use Rattle.std.specs.Prelude.{◌≡◌, Some};

use f11_catalog::Absence;
use f11_store::FileId;
use std::fmt;

/// Why a file isn't taken out.
#[derive(Clone, Copy, Debug, PartialEq, Eq)]
pub enum LeftOut {
    /// The volume has none.
    Missing(FileId, Absence),
    /// The host has no file for it.
    Host,
    /// It was taken out already, under the same name.
    Again,
}

impl LeftOut {
    ghost use Rattle.f11_commands.specs.AllCommand.{is_wanting};

    /// Whether something is wanting then.
    pub(crate) fn is_wanting(&self) -> bool
        ensures { result ≡ is_wanting self.now }
    {
        match self {
            LeftOut::Missing(_, _) => true,
            LeftOut::Host => true,
            LeftOut::Again => false,
        }
    }
}

impl fmt::Display for LeftOut {
    ghost use Rattle.f11_commands.specs.AllCommand.{left_out_text};

    ghost output = { λ why. Some (left_out_text why) };

    /// Writes `no file N,S`, `header N bad`, `no file of the host`, or `again` (profile).
    fn fmt<W: fmt::Write>(&self, f: &mut fmt::Formatter<W>) -> fmt::Result {
        match self {
            LeftOut::Missing(id, Absence::NoFile) => write!(f, "no file {id}"),
            LeftOut::Missing(id, Absence::BadHeader) => {
                let number = id.number;
                write!(f, "header {number} bad")
            }
            LeftOut::Host => write!(f, "no file of the host"),
            LeftOut::Again => write!(f, "again"),
        }
    }
}
