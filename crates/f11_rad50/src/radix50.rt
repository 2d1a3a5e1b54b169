ghost use Rattle.std.specs.Prelude.{◌≡◌, ◌↔◌, ℕ, ◌<◌, List, All, IsTrue, IfSome, IfOk, OnErr};
ghost use Rattle.f11_rad50.specs.Radix50.{code_of, character_of, radix50, characters_of, IsCharacter, IsRadix50};

use crate::errors::BadCharacter;

/// The code that is no character's.
const UNUSED: u16 = 29;

/// A byte that is no character of the set.
const NONE: u8 = 0;

/// The code of a character, and 29 for any other byte.
#[tactic(auto, unfolding(crate::specs::Radix50::code_of))]
fn code_of(character: u8) -> u16
    ensures { result ≡ code_of character }
{
    match character {
        b' ' => 0,
        b'A'..=b'Z' => u16::from(character) - 64,
        b'$' => 27,
        b'.' => 28,
        b'0'..=b'9' => u16::from(character) - 18,
        _ => UNUSED,
    }
}

/// The character of a code, and a zero byte for 29 and above 39.
#[tactic(auto, unfolding(crate::specs::Radix50::character_of))]
fn character_of(code: u16) -> u8
    ensures { result ≡ character_of code }
{
    match code {
        0 => b' ',
        1..=26 => (code + 64) as u8,
        27 => b'$',
        28 => b'.',
        30..=39 => (code + 18) as u8,
        _ => NONE,
    }
}

/// Whether a byte is a character of the set.
fn is_character(character: u8) -> bool
    ensures { IsTrue result ↔ IsCharacter character }
{
    code_of(character) != UNUSED
}

/// Whether each of three bytes is a character of the set.
fn are_characters(characters: &[u8; 3]) -> bool
    ensures { IsTrue result ↔ All IsCharacter characters.now }
{
    characters.iter().all(|c| is_character(*c))
}

/// The value of three characters, the first one highest.
#[tactic(auto, using(crate::proofs::Codes::bounds), unfolding(crate::specs::Radix50::radix50))]
pub(crate) fn value_of(characters: [u8; 3]) -> u16
    ensures { result ≡ radix50 characters }
{
    let [first, second, third] = characters;
    (code_of(first) * 40 + code_of(second)) * 40 + code_of(third)
}

/// The three characters of a word.
#[tactic(auto, unfolding(crate::specs::Radix50::characters_of))]
pub(crate) fn characters_of(word: u16) -> [u8; 3]
    ensures { result ≡ characters_of word }
{
    [
        character_of(word / 1600),
        character_of(word / 40 % 40),
        character_of(word % 40),
    ]
}

/// The Radix-50 value of three characters, from 0 to 63999, the first one highest.
///
/// The characters are a space, `A` to `Z`, `$`, `.` and `0` to `9`, as ASCII bytes; with any other byte
/// the answer is [`BadCharacter`] (Files-11 On-Disk Structure Level 1, Radix-50).
#[tactic(auto, using(crate::proofs::Codes::limits))]
pub fn encode(characters: [u8; 3]) -> Result<u16, BadCharacter>
    ensures value { IfOk result (λ word. IsRadix50 characters word) }
    ensures limit { IfOk result (λ word. word < 64000) }
    ensures refused { OnErr result (¬ All IsCharacter characters) }
{
    if are_characters(&characters) {
        Ok(value_of(characters))
    } else {
        Err(BadCharacter)
    }
}

/// The three characters whose Radix-50 value a word is, and `None` where it is no characters' value:
/// above 63999, and where a character's code would be 29 (Files-11 On-Disk Structure Level 1,
/// Radix-50).
pub fn decode(word: u16) -> Option<[u8; 3]>
    ensures characters { IfSome result (λ characters. IsRadix50 characters word) }
    ensures limit { IfSome result (λ _. word < 64000) }

    // So the answer is `None` exactly where the word is the value of no three characters.
    ensures every { (characters : List ℕ) → IsRadix50 characters word → result ≡ Some characters }
{
    let characters = characters_of(word);
    if are_characters(&characters) {
        Some(characters)
    } else {
        None
    }
}
