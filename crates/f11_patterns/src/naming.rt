//! The one file that a word names, and the name that a new file gets by it.
ghost use Rattle.std.specs.Prelude.{◌≡◌, ◌≤◌, IfNone, IfSome, Some, slice_index_or, drop};
ghost use Rattle.std.specs.List.{AllPass};
ghost use Rattle.std.specs.Str.{str_to_ascii_uppercase};
ghost use Rattle.f11_rad50.specs.Name.{IsProper, is_name_character, words_of};
ghost use Rattle.f11_rad50.specs.Radix50.{radix50};
ghost use Rattle.f11_patterns.specs.Naming.{IsFound, IsNextName, NamesNone, NamesOne};
ghost use Rattle.f11_patterns.specs.Next.{with_version};

use crate::meant::highest_version;
use crate::next::next_version;
use crate::pattern::Pattern;
use crate::versions::Versions;
use f11_rad50::{BadCharacter, Name, encode};

/// The one file that a word names.
#[derive(Clone, Copy, Debug, PartialEq, Eq)]
pub enum OneName {
    /// That of this name, with its version.
    Whole(Name),
    /// That of the highest version, or a new one of the next, of which this is the name with version 1.
    Highest(Name),
}

impl OneName {
    /// Which one file a word names: by a whole name, `LOGIN.CMD;1`, or by one without a version or with version 0, `LOGIN.CMD`. Small letters
    /// count as capitals. `None` where it is no name, or a pattern that may mean several.
    pub fn of(word: &[u8]) -> Option<OneName>
        ensures one { IfSome result (λ one. NamesOne word.now one) }
        ensures none { IfNone result (NamesNone word.now) }
    {
        let Ok(pattern) = Pattern::parse(word) else {
            return None;
        };
        if !pattern.is_one() {
            return None;
        }
        match pattern.versions() {
            Versions::Highest => Some(OneName::Highest(pattern.name_with(1)?)),
            Versions::Exactly(version) => Some(OneName::Whole(pattern.name_with(version)?)),
            Versions::Each => None,
        }
    }

    /// The name of the file among those of a directory: its own, or that of the highest version there, and version 1 where there is none.
    /// Steps: as many as there are names.
    pub fn found_in(&self, names: &[Name]) -> Name
        ensures found { IsFound names.now self.now result }
    {
        match *self {
            OneName::Whole(name) => name,
            OneName::Highest(first) => highest_version(names, &first),
        }
    }

    /// The name that a new file gets by it among those of a directory: its own, or that of the next version ([`next_version`]), and where the
    /// last version is there, that, for which the file is refused. Steps: as many as there are names.
    pub fn next_in(&self, names: &[Name]) -> Name
        ensures next { IsNextName names.now self.now result }
    {
        match *self {
            OneName::Whole(name) => name,
            OneName::Highest(first) => match next_version(names, &first) {
                Some(next) => next,
                None => last_version(first),
            },
        }
    }
}

/// A name with the last version that there is.
fn last_version(name: Name) -> Name
    ensures { result ≡ with_version name 32767 }
{
    let [first, second, third, kind, _] = name.words();
    Name::from_words([first, second, third, kind, 0o77777]).unwrap_or(name)
}

/// The character of a part at a place, as a capital, and a space past the end.
fn capital_at(part: &[u8], at: usize) -> u8
    ensures { result ≡ slice_index_or (str_to_ascii_uppercase part.now) at 32 }
{
    part.get(at).copied().unwrap_or(b' ').to_ascii_uppercase()
}

/// The word of three characters of a part, as capitals, from a place on.
fn word_at(part: &[u8], at: usize) -> u16
    requires few { at ≤ 6 }
    requires characters { AllPass is_name_character (str_to_ascii_uppercase part.now) }
    ensures { result ≡ radix50 (drop at (str_to_ascii_uppercase part.now)) }
{
    match encode([
        capital_at(part, at),
        capital_at(part, at + 1),
        capital_at(part, at + 2),
    ]) {
        Ok(word) => word,
        Err(BadCharacter) => 0,
    }
}

/// The name with these parts, as capitals, and a version.
pub(crate) fn name_of_parts(name: &[u8], kind: &[u8], version: u16) -> Option<Name>
    requires proper { IsProper (str_to_ascii_uppercase name.now) (str_to_ascii_uppercase kind.now) version }
    ensures { result ≡ Some (words_of (str_to_ascii_uppercase name.now) (str_to_ascii_uppercase kind.now) version) }
{
    Name::from_words([
        word_at(name, 0),
        word_at(name, 3),
        word_at(name, 6),
        word_at(kind, 0),
        version,
    ])
}
