//! The single words of a line: numbers, identifications, users' codes, names, bytes.

ghost use Rattle.std.specs.Prelude.{◌≡◌, ◌≤◌, ◌<◌, ◌^◌, ◌==◌, ◌%◌, ◌&&◌, nat_le, nat_lt, length, position, IfSome};
ghost use Rattle.std.specs.List.{list_all};
ghost use Rattle.std.specs.Char.{digit_value, is_digit};
ghost use Rattle.f11_rad50.specs.Name.{cut_at, words_spelled};
ghost use Rattle.f11_script.specs.Fields as specs;
ghost use Rattle.f11_script.specs.Reading.{Gives};
ghost use Rattle.f11_script.specs.Requests.{hex_of};

use f11_rad50::Name;
use f11_store::{FileId, Lun, Mode, Task, Uic};

/// The value of each byte as a digit or letter, and 36.
const VALUES: [u8; 256] = [
    36, 36, 36, 36, 36, 36, 36, 36, 36, 36, 36, 36, 36, 36, 36, 36, 36, 36, 36, 36, 36, 36, 36, 36,
    36, 36, 36, 36, 36, 36, 36, 36, 36, 36, 36, 36, 36, 36, 36, 36, 36, 36, 36, 36, 36, 36, 36, 36,
    0, 1, 2, 3, 4, 5, 6, 7, 8, 9, 36, 36, 36, 36, 36, 36, 36, 10, 11, 12, 13, 14, 15, 16, 17, 18,
    19, 20, 21, 22, 23, 24, 25, 26, 27, 28, 29, 30, 31, 32, 33, 34, 35, 36, 36, 36, 36, 36, 36, 10,
    11, 12, 13, 14, 15, 16, 17, 18, 19, 20, 21, 22, 23, 24, 25, 26, 27, 28, 29, 30, 31, 32, 33, 34,
    35, 36, 36, 36, 36, 36, 36, 36, 36, 36, 36, 36, 36, 36, 36, 36, 36, 36, 36, 36, 36, 36, 36, 36,
    36, 36, 36, 36, 36, 36, 36, 36, 36, 36, 36, 36, 36, 36, 36, 36, 36, 36, 36, 36, 36, 36, 36, 36,
    36, 36, 36, 36, 36, 36, 36, 36, 36, 36, 36, 36, 36, 36, 36, 36, 36, 36, 36, 36, 36, 36, 36, 36,
    36, 36, 36, 36, 36, 36, 36, 36, 36, 36, 36, 36, 36, 36, 36, 36, 36, 36, 36, 36, 36, 36, 36, 36,
    36, 36, 36, 36, 36, 36, 36, 36, 36, 36, 36, 36, 36, 36, 36, 36, 36, 36, 36, 36, 36, 36, 36, 36,
    36, 36, 36, 36, 36, 36, 36, 36, 36, 36, 36, 36, 36, 36,
];

/// The value of a digit or letter, 0 to 35, and 36 for any other byte.
pub(crate) fn digit_value(digit: u8) -> u64
    ensures { result ≡ digit_value digit }
{
    let value = VALUES[digit as usize];
    u64::from(value)
}

/// The value of digits, where it is at most so much.
fn value_up_to(text: &[u8], radix: u64, most: u32) -> Option<u32>
    requires low { 1 ≤ radix }
    requires high { radix ≤ 16 }
    ensures exact { result ≡ specs.value_up_to radix most text.now }
    ensures bound { IfSome result (λ n. n ≤ most) }
{
    let mut value: u64 = 0;
    for digit in text {
        let next = digit_value(*digit);
        if next >= radix {
            return None;
        }
        value = value * radix + next;
        if value > u64::from(most) {
            return None;
        }
    }
    Some(value as u32)
}

/// The same of one to so many digits.
#[tactic(auto, using(std::proofs::lemmas::Bool::Decides::nat_tests), unfolding(crate::specs::Fields::numeral))]
fn numeral(text: &[u8], radix: u64, digits: usize, most: u32) -> Option<u32>
    requires low { 1 ≤ radix }
    requires high { radix ≤ 16 }
    ensures exact { result ≡ specs.numeral radix digits most text.now }
    ensures bound { IfSome result (λ n. n ≤ most) }
{
    if text.len() > digits {
        return None;
    }
    if text.len() == 0 {
        return None;
    }
    value_up_to(text, radix, most)
}

/// A number: 1 to 10 decimal digits, at most 4294967295.
pub(crate) fn number(text: &[u8]) -> Option<u32>
    ensures { result ≡ specs.number_of text.now }
{
    numeral(text, 10, 10, u32::MAX)
}

/// A number of at most 65535.
pub(crate) fn word(text: &[u8]) -> Option<u16>
    ensures { result ≡ specs.word_of text.now }
{
    Some(numeral(text, 10, 10, 65535)? as u16)
}

/// A number of at most 255.
pub(crate) fn byte(text: &[u8]) -> Option<u8>
    ensures { result ≡ specs.byte_of text.now }
{
    Some(numeral(text, 10, 10, 255)? as u8)
}

/// A lun: a number of at most 3.
pub(crate) fn lun(text: &[u8]) -> Option<Lun>
    ensures { result ≡ specs.lun_of text.now }
{
    Lun::new(numeral(text, 10, 10, 3)? as u8)
}

/// A task: one digit, 0 to 7.
pub(crate) fn task(text: &[u8]) -> Option<Task>
    ensures { result ≡ specs.task_of text.now }
{
    Task::new(numeral(text, 8, 1, 7)? as u8)
}

/// A protection word: 1 to 6 octal digits, at most 177777.
pub(crate) fn protection(text: &[u8]) -> Option<u16>
    ensures { result ≡ specs.protection_of text.now }
{
    Some(numeral(text, 8, 6, 0o177777)? as u16)
}

/// A byte: 1 to 3 octal digits, at most 377.
pub(crate) fn octal_byte(text: &[u8]) -> Option<u8>
    ensures { result ≡ specs.octal_byte_of text.now }
{
    Some(numeral(text, 8, 3, 0o377)? as u8)
}

/// What stands before and after the first comma, where there is one.
#[tactic(auto, using(std::proofs::lemmas::List::take_rest))]
fn cut_at_comma(text: &[u8]) -> Option<(&[u8], &[u8])>
    ensures { Gives (λ parts. (parts.0.now, parts.1.now)) result (cut_at 44 text.now) }
{
    let at = position_of_comma(text)?;
    Some((&text[..at], &text[at + 1..]))
}

fn position_of_comma(text: &[u8]) -> Option<usize>
    ensures { result ≡ position (λ c. c == 44) text.now }
{
    text.iter().position(|c| *c == b',')
}

/// An identification: its number, a comma and its sequence number.
#[tactic(auto, unfolding(crate::specs::Fields::id_of))]
pub(crate) fn id(text: &[u8]) -> Option<FileId>
    ensures { result ≡ specs.id_of text.now }
{
    let (number, sequence) = cut_at_comma(text)?;
    Some(FileId {
        number: word(number)?,
        sequence: word(sequence)?,
        volume: 0,
    })
}

/// What stands between brackets.
#[tactic(auto, using(std::proofs::lemmas::Bool::Decides::nat_tests), unfolding(crate::specs::Fields::bracketed))]
fn bracketed(text: &[u8]) -> Option<&[u8]>
    ensures { Gives (λ inside. inside.now) result (specs.bracketed text.now) }
{
    if text.len() < 2 {
        return None;
    }
    let end = text.len() - 1;
    if text[0] != b'[' {
        return None;
    }
    if text[end] != b']' {
        return None;
    }
    Some(&text[1..end])
}

/// A user's code: its group, a comma and its member, in octal, between brackets.
#[tactic(auto, unfolding(crate::specs::Fields::uic_of))]
pub(crate) fn uic(text: &[u8]) -> Option<Uic>
    ensures { result ≡ specs.uic_of text.now }
{
    let (group, member) = cut_at_comma(bracketed(text)?)?;
    Some(Uic {
        group: octal_byte(group)?,
        member: octal_byte(member)?,
    })
}

/// A mode of access: `R`, `L` or `W`.
#[tactic(auto, unfolding(crate::specs::Fields::mode_of))]
pub(crate) fn mode(text: &[u8]) -> Option<Mode>
    ensures { result ≡ specs.mode_of text.now }
{
    if text == b"R".as_slice() {
        return Some(Mode::Read);
    }
    if text == b"L".as_slice() {
        return Some(Mode::Locked);
    }
    if text == b"W".as_slice() {
        return Some(Mode::Write);
    }
    None
}

/// A name.
pub(crate) fn name(text: &[u8]) -> Option<Name>
    ensures { result ≡ words_spelled text.now }
{
    Name::parse(text).ok()
}

fn is_hex_digit(digit: u8) -> bool
    ensures { result ≡ is_digit digit 16 }
{
    digit_value(digit) < 16
}

/// Whether all bytes are hex digits.
fn are_hex_digits(text: &[u8]) -> bool
    ensures { result ≡ list_all (λ c. is_digit c 16) text.now }
{
    text.iter().all(|digit| is_hex_digit(*digit))
}

/// Whether so many hex digits are those of one to 512 bytes.
fn is_hex_length(length: usize) -> bool
    ensures { result ≡ (nat_lt 0 length && (nat_le length 1024 && length % 2 == 0)) }
{
    0 < length && length <= 1024 && length % 2 == 0
}

/// Whether a text is one to 512 bytes in hex, two digits for each.
#[tactic(auto, unfolding(crate::specs::Fields::is_hex))]
fn is_hex(text: &[u8]) -> bool
    ensures { result ≡ specs.is_hex text.now }
{
    is_hex_length(text.len()) && are_hex_digits(text)
}

/// The hex digits of one to 512 bytes.
pub(crate) fn hex(text: &[u8]) -> Option<&[u8]>
    ensures exact { Gives (λ digits. digits.now) result (hex_of text.now) }
    ensures digits { IfSome result (λ digits. specs.AreHexDigits digits.now) }
{
    if is_hex(text) { Some(text) } else { None }
}
