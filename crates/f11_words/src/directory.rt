//! How a command line names a directory.
ghost use Rattle.std.specs.Prelude.{◌≡◌, ◌≢◌, ◌≤◌, [], ◌∷◌, ◌++◌, ℕ, List, MatchOption, Some, IfNone, IfSome, codes, length, map, take};
ghost use Rattle.std.specs.Char.{to_ascii_uppercase};
ghost use Rattle.f11_rad50.specs.Name.{Spells};
ghost use Rattle.f11_words.specs.Directory.{IsCalled, IsNoTarget, IsWithin, SpellsBare, SpellsDirectory, SpellsTarget, full_name};
ghost use Rattle.f11_words.specs.declared.directory.Directory.{Directory as DirectoryOf};

use f11_numbers::read_uic;
use f11_rad50::Name;
use f11_store::Uic;

/// A directory of the master file directory, as a command line names it.
#[derive(Clone, Copy, Debug, PartialEq, Eq)]
pub enum Directory {
    /// That of a user, by the user's code.
    Of(Uic),
    /// The one of this name.
    Named(Name),
}

/// How many bytes the longest name has, `NAME.TYP;VERSION`.
const LONGEST: usize = 19;

/// The directory that a text spells, in brackets or without: by the code of its user, as `200,1`, or by its name, small letters taken as
/// capitals, whose type and version are `.DIR;1` where no dot stands in it (profile). `None` for any other text.
pub fn read_directory(text: &str) -> Option<Directory>
    ensures spelled { IfSome result (SpellsDirectory text.now) }

    // So the answer is `None` exactly where the text spells no directory.
    ensures every { (directory : DirectoryOf) → SpellsDirectory text.now directory → result ≡ Some directory }
{
    read_bare(unbracketed(text))
}

/// The directory as which a folder of the host is called: in brackets, as [`read_directory`] reads it (profile). `None` for any other text.
pub fn read_folder(text: &str) -> Option<Directory>
    ensures called { IfSome result (IsCalled text.now) }
    ensures none { IfNone result ((directory : DirectoryOf) → ¬ IsCalled text.now directory) }
{
    match bracketed(text) {
        Some(inner) => read_bare(inner),
        None => None,
    }
}

/// What stands in brackets.
fn bracketed(text: &str) -> Option<&str>
    ensures { MatchOption result ((t : List ℕ) → text.now ≢ 91 ∷ (t ++ (93 ∷ []))) (λ inner. text.now ≡ 91 ∷ (inner.now ++ (93 ∷ []))) }
{
    match text.strip_prefix('[') {
        Some(rest) => match rest.strip_suffix(']') {
            Some(inner) => Some(inner),
            None => None,
        },
        None => None,
    }
}

/// In which other directory a file gets a new name, and which: a text spells them as `DIR/NAME`, the directory as [`read_directory`] reads it,
/// or as `NAME` alone, in the directory in which the file is (profile). `None` where what stands before the first slash spells no directory.
pub fn read_target<'a>(text: &'a str) -> Option<(Option<Directory>, &'a str)>
    ensures { MatchOption result (IsNoTarget text.now) (λ t. SpellsTarget text.now t.0 t.1.now) }
{
    match text.split_once('/') {
        Some((directory, name)) => match read_directory(directory) {
            Some(to) => Some((Some(to), name)),
            None => None,
        },
        None => Some((None, text)),
    }
}

/// What stands in brackets, or the text itself where it doesn't stand in brackets.
fn unbracketed<'a>(text: &'a str) -> &'a str
    ensures { IsWithin text.now result.now }
{
    match text.strip_prefix('[') {
        Some(rest) => match rest.strip_suffix(']') {
            Some(inner) => inner,
            None => text,
        },
        None => text,
    }
}

/// The directory that a text without brackets spells.
fn read_bare(text: &str) -> Option<Directory>
    ensures spelled { IfSome result (SpellsBare text.now) }
    ensures every { (directory : DirectoryOf) → SpellsBare text.now directory → result ≡ Some directory }
{
    match read_uic(text) {
        Some(user) => Some(Directory::Of(user)),
        None => match read_name(text.as_bytes()) {
            Some(name) => Some(Directory::Named(name)),
            None => None,
        },
    }
}

/// The name that a directory's name stands for.
fn read_name(text: &[u8]) -> Option<Name>
    ensures spelled { IfSome result (Spells (full_name text.now)) }
    ensures every { (words : List ℕ) → Spells (full_name text.now) words → result ≡ Some words }
{
    if text.len() > LONGEST {
        return None;
    }
    let mut room = [0; 25];
    let length = spell(text, &mut room);
    Name::parse(&room[..length]).ok()
}

/// Puts the name that a directory's name stands for at the front of a buffer, and gives its length.
fn spell(text: &[u8], into: &mut [u8; 25]) -> usize
    requires few { length text.now ≤ 19 }
    ensures text { take result into.new ≡ full_name text.now }
    ensures fits { result ≤ 25 }
{
    let length = text.len();
    into[..length].copy_from_slice(text);
    capitalise(&mut into[..length]);
    if text.contains(&b'.') {
        length
    } else {
        into[length..length + 6].copy_from_slice(b".DIR;1");
        length + 6
    }
}

/// Makes small letters capitals.
fn capitalise(text: &mut [u8])
    ensures { text.new ≡ map to_ascii_uppercase text.old }
{
    for c in text.iter_mut() {
        *c = c.to_ascii_uppercase();
    }
}
