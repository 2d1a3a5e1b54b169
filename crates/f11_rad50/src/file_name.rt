ghost use Rattle.std.specs.Prelude.{◌≡◌, ◌↔◌, ℕ, ◌<◌, ◌≤◌, List, [], ◌∷◌, ◌++◌, length, drop, IsTrue, IfOk, IfSome, SomeIff, string_bytes, slice_index_or, if◌then◌else◌};
ghost use Rattle.std.specs.Result.{result_ok};
ghost use Rattle.f11_rad50.specs.Radix50.{characters_of, radix50};
ghost use Rattle.f11_rad50.specs.Name.{IsProper, words_of, unpadded, name_of, type_of, IsName, name_text, Spells, is_name, words_spelled};

use crate::errors::BadName;
use crate::{coded, pieces, radix50};
use f11_bytes::NoMemory;
use std::alloc::Global;
use std::fmt;
use std::marker::Model;

/// The name of a file: up to nine characters, a type of up to three, not both empty, and a version from
/// 1 to 32767 (Files-11 On-Disk Structure Level 1, file names).
///
/// The characters are `A` to `Z`, `0` to `9` and `$` (profile). Contracts see a name as the list of its
/// five words: three of the name and one of the type in Radix-50, padded with spaces, and the version.
#[derive(Clone, Copy, Debug, PartialEq, Eq, Hash)]
pub struct Name {
    words: [u16; 5],
}

impl Model for Name {
    ghost Value = { List ℕ };

    ghost view = { λ n. n.words };

    ghost invariant = { λ n. IsName n.words };

    ghost inverse = { λ ws. record { words = ws } };
}

/// The character of a part at a place, and a space past the end.
fn character_at(part: &[u8], at: usize) -> u8
    ensures { result ≡ slice_index_or part.now at 32 }
{
    part.get(at).copied().unwrap_or(b' ')
}

/// The word of three characters of a part from a place on.
#[tactic(auto, unfolding(crate::specs::Radix50::radix50))]
fn word_at(part: &[u8], at: usize) -> u16
    requires { at ≤ 6 }
    ensures { result ≡ radix50 (drop at part.now) }
{
    radix50::value_of([
        character_at(part, at),
        character_at(part, at + 1),
        character_at(part, at + 2),
    ])
}

/// Whether a number is a version.
fn is_version(version: u16) -> bool
    ensures { IsTrue result ↔ ((0 < version) × (version < 32768)) }
{
    (1..=32767).contains(&version)
}

/// Whether the parts are those of a name.
fn is_proper(name: &[u8], kind: &[u8], version: u16) -> bool
    ensures { IsTrue result ↔ IsProper name.now kind.now version }
{
    pieces::is_part(name, 9)
        && pieces::is_part(kind, 3)
        && !(name.is_empty() && kind.is_empty())
        && is_version(version)
}

/// Whether five words are those of a name.
fn is_name(first: u16, second: u16, third: u16, kind: u16, version: u16) -> bool
    ensures { IsTrue result ↔ IsName (first ∷ second ∷ third ∷ kind ∷ version ∷ []) }
{
    coded::are_named(first, second, third, kind) && is_version(version)
}

impl Name {
    /// The name with these parts.
    fn of_parts(name: &[u8], kind: &[u8], version: u16) -> Option<Name>
        ensures { SomeIff result
            (IsProper name.now kind.now version)
            (words_of name.now kind.now version) }
    {
        if !is_proper(name, kind, version) {
            return None;
        }
        Some(Name {
            words: [
                word_at(name, 0),
                word_at(name, 3),
                word_at(name, 6),
                word_at(kind, 0),
                version,
            ],
        })
    }

    /// The name that a text spells.
    fn read(text: &[u8]) -> Option<Name>
        ensures spelled { IfSome result (λ name. Spells text.now name) }
        ensures every { (words : List ℕ) → Spells text.now words → result ≡ Some words }
    {
        let (name, rest) = pieces::split_at_first(text, b'.')?;
        let (kind, digits) = pieces::split_at_first(rest, b';')?;
        Name::of_parts(name, kind, pieces::read_version(digits)?)
    }

    /// Reads `NAME.TYP;VERSION`: up to nine characters, a dot, up to three characters, a semicolon and
    /// one to five octal digits of value 1 to 32767; name and type not both empty. The characters are
    /// `A` to `Z`, `0` to `9` and `$`. Any other text is a [`BadName`] (profile).
    pub fn parse(text: &[u8]) -> Result<Name, BadName>
        ensures spelled { IfOk result (λ name. Spells text.now name) }

        // So the answer is `BadName` exactly where the text spells no name.
        ensures every { (words : List ℕ) → Spells text.now words → result ≡ Ok words }

        // The same as one equation.
        ensures exact { result_ok result ≡ words_spelled text.now }
    {
        Name::read(text).ok_or(BadName)
    }

    /// The name whose words these are, and `None` where they are the words of no name: where a word has
    /// no characters, where a character other than those of a name stands in it, where one stands after
    /// the padding, where there is none at all, or where the version is 0 or above 32767 (profile).
    pub fn from_words(words: [u16; 5]) -> Option<Name>
        ensures name { SomeIff result (IsName words) words }

        // The words of any proper name are found to be one.
        ensures every { (name kind : List ℕ) (version : ℕ)
            → IsProper name kind version
            → words_of name kind version ≡ words
            → result ≡ Some words }

        // The same as one equation.
        ensures exact { result ≡ (if is_name words then Some words else None) }
    {
        let [first, second, third, kind, version] = words;
        if is_name(first, second, third, kind, version) {
            Some(Name { words })
        } else {
            None
        }
    }

    /// The five words: three of the name, the type, the version.
    pub fn words(&self) -> [u16; 5]
        ensures value { result ≡ self.now }
        ensures name { IsName self.now }
    {
        self.words
    }

    /// Puts the text, as [`Name::text`] gives it, at the front of a buffer and gives its length, 3 to 19
    /// bytes; the rest of the buffer stays.
    pub fn spell(&self, into: &mut [u8; 19]) -> usize
        ensures length { result ≡ length (name_text self.now) }
        ensures text { into.new ≡ name_text self.now ++ drop result into.old }
        ensures fits { result ≤ 19 }
        ensures reads_back { Spells (name_text self.now) self.now }
    {
        let characters = name_characters(&self.words);
        let kind = type_characters(&self.words);
        let dot = pieces::put(into, 0, pieces::unpadded(&characters));
        let kind_at = pieces::put(into, dot, b".");
        let semicolon = pieces::put(into, kind_at, pieces::unpadded(&kind));
        let version_at = pieces::put(into, semicolon, b";");
        pieces::put_octal(into, version_at, self.words[4])
    }

    /// The text `NAME.TYP;VERSION`, the version in octal without leading zeros (profile).
    /// [`Name::parse`] reads this name from it. [`NoMemory`] where no memory is left for the string.
    pub fn text(&self, alloc: Global) -> Result<String, NoMemory>
        ensures text { IfOk result (λ text. string_bytes text ≡ name_text self.now) }
        ensures reads_back { IfOk result (λ text. Spells (string_bytes text) self.now) }
    {
        // So that the proof knows that the words are those of a name.
        let _ = &self.words;
        Ok(format!(in alloc; "{self}")?)
    }
}

impl fmt::Display for Name {
    ghost use Rattle.std.specs.Prelude.{Some};

    ghost output = { λ name. Some (name_text name) };

    /// Writes the text `NAME.TYP;VERSION`, as [`Name::text`] gives it.
    fn fmt<W: fmt::Write>(&self, f: &mut fmt::Formatter<W>) -> fmt::Result {
        let mut buffer = [0; 19];
        let length = self.spell(&mut buffer);
        f.write_str(str::from_utf8(&buffer[..length]).unwrap())
    }
}

/// The nine characters of the name, padded with spaces.
#[tactic(auto, unfolding(crate::specs::Name::name_of))]
fn name_characters(words: &[u16; 5]) -> [u8; 9]
    ensures { unpadded result ≡ name_of words.now }
{
    let [a, b, c] = radix50::characters_of(words[0]);
    let [d, e, f] = radix50::characters_of(words[1]);
    let [g, h, i] = radix50::characters_of(words[2]);
    [a, b, c, d, e, f, g, h, i]
}

/// The three characters of the type, padded with spaces.
#[tactic(auto, unfolding(crate::specs::Name::type_of))]
fn type_characters(words: &[u16; 5]) -> [u8; 3]
    ensures { unpadded result ≡ type_of words.now }
{
    radix50::characters_of(words[3])
}
