//! Pieces of a text: what stands before and after a separator, a version, and bytes put into a buffer.
ghost use Rattle.std.specs.Prelude.{◌≡◌, ◌≢◌, ℕ, ◌+◌, ◌<◌, ◌==◌, ◌≤◌, ◌↔◌, List, ◌∷◌, ◌++◌, length, take, drop, All, IsTrue, IfSome, IsSomeAnd, SomeIff, position};
ghost use Rattle.std.specs.List.{AllPass};
ghost use Rattle.std.specs.Str.Parse.{digits_value};
ghost use Rattle.f11_rad50.specs.Buffer.{IsPut};
ghost use Rattle.f11_rad50.specs.Name.{is_name_character, unpadded, octal, IsVersion};

use f11_bytes::{octal_value, put_bytes};

/// The place of the first such byte.
fn position_of(text: &[u8], byte: u8) -> Option<usize>
    ensures { result ≡ position (λ c. c == byte) text.now }
{
    text.iter().position(|c| *c == byte)
}

/// What stands before and after the first separator.
pub(crate) fn split_at_first(text: &[u8], separator: u8) -> Option<(&[u8], &[u8])>
    ensures parts { IfSome result (λ r. text.now ≡ r.0.now ++ (separator ∷ r.1.now)) }
    ensures first { (front back : List ℕ)
        → All (λ c. c ≢ separator) front
        → text.now ≡ front ++ (separator ∷ back)
        → IsSomeAnd result (λ r. (r.0.now ≡ front) × (r.1.now ≡ back)) }
{
    let at = position_of(text, separator)?;
    Some((&text[..at], &text[at + 1..]))
}

/// What stands before the first space.
pub(crate) fn unpadded(characters: &[u8]) -> &[u8]
    ensures { result.now ≡ unpadded characters.now }
{
    match position_of(characters, b' ') {
        Some(end) => &characters[..end],
        None => characters,
    }
}

/// Whether a byte may stand in a name.
#[tactic(auto, unfolding(crate::specs::Name::is_name_character))]
fn is_name_character(character: u8) -> bool
    ensures { result ≡ is_name_character character }
{
    matches!(character, b'A'..=b'Z' | b'0'..=b'9' | b'$')
}

/// Whether there are at most so many characters, each of which may stand in a name.
pub(crate) fn is_part(characters: &[u8], most: usize) -> bool
    ensures { IsTrue result
        ↔ (AllPass is_name_character characters.now × (length characters.now ≤ most)) }
{
    characters.len() <= most && characters.iter().all(|c| is_name_character(*c))
}

/// The most octal digits of a version.
const VERSION_DIGITS: usize = 5;

/// The version in one to five octal digits.
pub(crate) fn read_version(digits: &[u8]) -> Option<u16>
    ensures { SomeIff result (IsVersion digits.now) (digits_value 8 digits.now) }
{
    if digits.len() > VERSION_DIGITS {
        return None;
    }
    octal_value(digits, 0o77777)
}

/// Puts a piece into a buffer at a place, and gives the place after it.
pub(crate) fn put(into: &mut [u8; 19], at: usize, piece: &[u8]) -> usize
    requires { at + length piece.now ≤ 19 }
    ensures { IsPut into.old into.new piece.now at result }
{
    put_bytes(into, at, piece);
    at + piece.len()
}

/// Puts a number in octal into a buffer at a place, and gives the place after it; 0 has no digits.
pub(crate) fn put_octal(into: &mut [u8; 19], at: usize, number: u16) -> usize
    requires { at + length (octal number) ≤ 19 }
    ensures { IsPut into.old into.new (octal number) at result }
{
    if number == 0 {
        return at;
    }
    let last = put_octal(into, at, number / 8);
    put(into, last, &[b'0' + (number % 8) as u8])
}
