//! Names that are fitted to what a volume may have, for files of the host whose own are none.
ghost use Rattle.std.specs.Prelude.{◌≡◌, ◌<◌, ◌≤◌, ◌+◌, ◌++◌, ◌∷◌, ℕ, IfSome, List, filter, length, take, true};
ghost use Rattle.f11_rad50.specs.Name.{is_name_character};
ghost use Rattle.f11_patterns.specs.Fitting.{candidate, fitted_text, has_some, kept_of, last_dot, name_before, numeral, type_behind};

use arrayvec::ArrayVec;
use f11_rad50::Name;

/// The text of a fitted name: a name, a dot and a type.
pub type FittedText = ArrayVec<u8, 16>;

/// The most characters of a name on Files-11.
const WIDTH: usize = 9;

/// The most characters of a type.
const TYPE_WIDTH: usize = 3;

/// Where the last dot of a text stands.
fn last_dot(text: &[u8]) -> Option<usize>
    ensures last { result ≡ last_dot text.now }
    ensures within { IfSome result (λ at. at < length text.now) }
{
    let mut found = None;
    for (at, character) in text.iter().enumerate() {
        if *character == b'.' {
            found = Some(at);
        }
    }
    found
}

/// What stands before the last dot, or all, and what stands behind it, or nothing.
fn name_and_type(text: &[u8]) -> (&[u8], &[u8])
    ensures name { result.0.now ≡ name_before text.now }
    ensures kind { result.1.now ≡ type_behind text.now }
{
    match last_dot(text) {
        Some(at) => (&text[..at], &text[at + 1..]),
        None => (text, &[]),
    }
}

/// Whether a byte may stand in a name.
#[tactic(auto, unfolding(f11_rad50::specs::Name::is_name_character))]
fn is_name_character(character: u8) -> bool
    ensures { result ≡ is_name_character character }
{
    matches!(character, b'A'..=b'Z' | b'0'..=b'9' | b'$')
}

/// Puts a character behind a text if it may stand in a name, and gives how many may still be put, of so many.
fn put_one(into: &mut FittedText, character: u8, left: usize) -> usize
    requires room { length into.old.items + left ≤ 16 }
    ensures puts { (rest : List ℕ)
        → into.old.items ++ take left (filter is_name_character (character ∷ rest))
        ≡ into.new.items ++ take result (filter is_name_character rest) }
    ensures room { length into.new.items + result ≤ length into.old.items + left }
{
    if left == 0 {
        return 0;
    }
    if !is_name_character(character) {
        return left;
    }
    into.push(character);
    left - 1
}

/// Puts those characters of a text that may stand in a name behind another, so many from the front.
fn put_kept(into: &mut FittedText, text: &[u8], most: usize)
    requires room { length into.old.items + most ≤ 16 }
    ensures { into.new.items ≡ into.old.items ++ take most (kept_of text.now) }
{
    let mut left = most;
    for character in text {
        left = put_one(into, character.to_ascii_uppercase(), left);
    }
}

/// How many digits a number has; 0 has none.
fn digits(number: usize) -> usize
    ensures { result ≡ length (numeral number) }
{
    if number == 0 {
        return 0;
    }
    digits(number / 10) + 1
}

/// Puts a number behind a text; 0 has no digits.
fn put_number(into: &mut FittedText, number: usize)
    requires room { length into.old.items + length (numeral number) ≤ 16 }
    ensures { into.new.items ≡ into.old.items ++ numeral number }
{
    if number == 0 {
        return;
    }
    put_number(into, number / 10);
    into.push(b'0' + (number % 10) as u8);
}

/// The text `NAME.TYP` of the candidate of a number for the last part of a file's path. Its name is what stands before the last dot of the part, or
/// all of a part without one, and its type is what stands behind that. Of both those characters stay that a name may have, small letters as
/// capitals: of the type three, and of the name so many that with the digits of the number, which stand behind them where it isn't 0, there are
/// at most `width` (profile).
pub fn fitted_text(part: &[u8], width: usize, number: usize) -> FittedText
    requires width { width ≤ 9 }
    requires number { length (numeral number) ≤ width }
    ensures text { result.items ≡ fitted_text width number part.now }
{
    let (name, kind) = name_and_type(part);
    let mut text = FittedText::new();
    put_kept(&mut text, name, width - digits(number));
    put_number(&mut text, number);
    text.push(b'.');
    put_kept(&mut text, kind, TYPE_WIDTH);
    text
}

/// The candidate of a number, with version 1.
pub(crate) fn candidate(part: &[u8], number: usize) -> Name
    requires some { has_some part.now ≡ true }
    requires few { number ≤ 999999 }
    ensures { result ≡ candidate part.now number }
{
    let mut text = fitted_text(part, WIDTH, number);
    text.push(b';');
    text.push(b'1');
    Name::parse(text.as_slice()).unwrap()
}

/// Whether something of a part stays for a name or a type.
pub(crate) fn has_some(part: &[u8]) -> bool
    ensures { result ≡ has_some part.now }
{
    fitted_text(part, WIDTH, 0).len() > 1
}
