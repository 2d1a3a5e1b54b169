//! The names of files.
ghost use Rattle.std.specs.Prelude.{◌≡◌, ◌≢◌, ◌↔◌, ℕ, ◌≤◌, ◌==◌, List, position, [], ◌∷◌, ◌++◌, All, length, drop, slice_index_or, IsTrue, IsNone, IfSome, IfOk, string_bytes, IsSomeAnd, SomeIff, if◌then◌else◌};
ghost use Rattle.std.specs.List.{AllPass};
ghost use Rattle.f11_rad50.specs.Name.{is_name_character};
ghost use Rattle.f11_rad50.specs.Radix50.{radix50};
ghost use Rattle.rt11_volume.specs.RtName.{IsRtName, IsRtProper, RtSpells, is_rt_name, rt_words_of, rt_name_text, with_version};

use f11_bytes::NoMemory;
use f11_rad50::{BadName, Name, encode};
use std::alloc::Global;
use std::fmt;
use std::marker::Model;

/// The name of a file on an RT-11 volume: one to six characters, and a type of up to three (RT-11 Volume and File Formats
/// Manual, "Directory Entry").
///
/// The characters are `A` to `Z`, `0` to `9` and `$` (profile). Contracts see a name as the list of its three words: two of
/// the name and one of the type, in Radix-50, padded with spaces.
#[derive(Clone, Copy, Debug, PartialEq, Eq, Hash)]
pub struct RtName {
    words: [u16; 3],
}

impl Model for RtName {
    ghost Value = { List ℕ };

    ghost view = { λ n. n.words };

    ghost invariant = { λ n. IsRtName n.words };

    ghost inverse = { λ ws. record { words = ws } };
}

/// Whether three words are a name: that of a Files-11 file of the same words and no more, with a name of its own.
pub(crate) fn is_name(first: u16, second: u16, kind: u16) -> bool
    ensures name { IsTrue result ↔ IsRtName (first ∷ second ∷ kind ∷ []) }
    ensures exact { result ≡ is_rt_name (first ∷ second ∷ kind ∷ []) }
{
    first != 0 && Name::from_words([first, second, 0, kind, 1]).is_some()
}

/// The character of a part at a place, and a space past the end.
fn character_at(part: &[u8], at: usize) -> u8
    ensures { result ≡ slice_index_or part.now at 32 }
{
    part.get(at).copied().unwrap_or(b' ')
}

/// The word of three characters of a part from a place on; `None` only where the part has a character that no name has.
#[tactic(auto, unfolding(f11_rad50::specs::Radix50::radix50))]
fn word_at(part: &[u8], at: usize) -> Option<u16>
    requires { at ≤ 3 }
    ensures word { IfSome result (λ word. word ≡ radix50 (drop at part.now)) }
    ensures none { IsNone result → ¬ AllPass is_name_character part.now }
{
    encode([
        character_at(part, at),
        character_at(part, at + 1),
        character_at(part, at + 2),
    ])
    .ok()
}

/// Whether a byte may stand in a name.
#[tactic(auto, unfolding(f11_rad50::specs::Name::is_name_character))]
fn is_name_character(character: u8) -> bool
    ensures { result ≡ is_name_character character }
{
    matches!(character, b'A'..=b'Z' | b'0'..=b'9' | b'$')
}

/// Whether there are at most so many characters, each of which may stand in a name.
fn is_part(characters: &[u8], most: usize) -> bool
    ensures { IsTrue result
        ↔ (AllPass is_name_character characters.now × (length characters.now ≤ most)) }
{
    characters.len() <= most && characters.iter().all(|c| is_name_character(*c))
}

/// Whether the parts are those of a name.
fn is_proper(name: &[u8], kind: &[u8]) -> bool
    ensures { IsTrue result ↔ IsRtProper name.now kind.now }
{
    is_part(name, 6) && is_part(kind, 3) && !name.is_empty()
}

/// The place of the first such byte.
fn position_of(text: &[u8], byte: u8) -> Option<usize>
    ensures { result ≡ position (λ c. c == byte) text.now }
{
    text.iter().position(|c| *c == byte)
}

/// What stands before and after the first dot.
fn split_at_dot(text: &[u8]) -> Option<(&[u8], &[u8])>
    ensures parts { IfSome result (λ r. text.now ≡ r.0.now ++ (46 ∷ r.1.now)) }
    ensures first { (front back : List ℕ)
        → All (λ c. c ≢ 46) front
        → text.now ≡ front ++ (46 ∷ back)
        → IsSomeAnd result (λ r. (r.0.now ≡ front) × (r.1.now ≡ back)) }
{
    let at = position_of(text, b'.')?;
    Some((&text[..at], &text[at + 1..]))
}

impl RtName {
    /// The name with these parts.
    fn of_parts(name: &[u8], kind: &[u8]) -> Option<RtName>
        ensures { SomeIff result (IsRtProper name.now kind.now) (rt_words_of name.now kind.now) }
    {
        if !is_proper(name, kind) {
            return None;
        }
        let first = word_at(name, 0)?;
        let second = word_at(name, 3)?;
        let third = word_at(kind, 0)?;
        Some(RtName {
            words: [first, second, third],
        })
    }

    /// The name that a text spells.
    fn read(text: &[u8]) -> Option<RtName>
        ensures spelled { IfSome result (λ name. RtSpells text.now name) }
        ensures every { (words : List ℕ) → RtSpells text.now words → result ≡ Some words }
    {
        let (name, kind) = split_at_dot(text)?;
        RtName::of_parts(name, kind)
    }

    /// Reads `NAME.TYP`: one to six characters, a dot, and up to three characters, each `A` to `Z`, `0` to `9` or `$`. Any other text
    /// is a [`BadName`] (profile).
    pub fn parse(text: &[u8]) -> Result<RtName, BadName>
        ensures spelled { IfOk result (λ name. RtSpells text.now name) }

        // So the answer is `BadName` exactly where the text spells no name.
        ensures every { (words : List ℕ) → RtSpells text.now words → result ≡ Ok words }
    {
        RtName::read(text).ok_or(BadName)
    }

    /// The name whose words these are, and `None` where they are the words of no name.
    pub fn from_words(words: [u16; 3]) -> Option<RtName>
        ensures name { SomeIff result (IsRtName words) words }
        ensures exact { result ≡ (if is_rt_name words then Some words else None) }
    {
        let [first, second, kind] = words;
        if is_name(first, second, kind) {
            Some(RtName { words })
        } else {
            None
        }
    }

    /// The three words: two of the name, and the type.
    pub fn words(&self) -> [u16; 3]
        ensures value { result ≡ self.now }
        ensures name { IsRtName self.now }
    {
        self.words
    }

    /// The name of a Files-11 file with the same words and version 1.
    fn as_name(&self) -> Name
        ensures { result ≡ with_version self.now }
    {
        let [first, second, kind] = self.words;
        Name::from_words([first, second, 0, kind, 1]).unwrap()
    }

    /// The text `NAME.TYP` (profile), which [`RtName::parse`] reads this name from. [`NoMemory`] where no memory is left for the string.
    pub fn text(&self, alloc: Global) -> Result<String, NoMemory>
        ensures text { IfOk result (λ text. string_bytes text ≡ rt_name_text self.now) }
        ensures reads_back { IfOk result (λ text. RtSpells (string_bytes text) self.now) }
    {
        // So that the proof knows that the words are those of a name.
        let _ = &self.words;
        Ok(format!(in alloc; "{self}")?)
    }
}

impl fmt::Display for RtName {
    ghost use Rattle.std.specs.Prelude.{Some};

    ghost output = { λ name. Some (rt_name_text name) };

    /// Writes the text `NAME.TYP`, as [`RtName::text`] gives it.
    fn fmt<W: fmt::Write>(&self, f: &mut fmt::Formatter<W>) -> fmt::Result {
        let _ = &self.words;
        let mut buffer = [0; 19];
        let length = self.as_name().spell(&mut buffer);
        f.write_str(str::from_utf8(&buffer[..length - 2]).unwrap())
    }
}
