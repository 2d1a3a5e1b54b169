//! Characters of dates and times as Files-11 keeps them, read.
ghost use Rattle.std.specs.Prelude.{◌≡◌, ◌≢◌, ◌+◌, ℕ, SomeIff, MatchOption, ◌==◌, if◌then◌else◌};
ghost use Rattle.std.specs.Int.{IsInRange};
ghost use Rattle.f11_dates.specs.Files11.{clock_spelled, day_spelled, month_name, number_in, with_zero};

use crate::calendar::{Date, Time};
use crate::writing::month_name;

/// The number that two digits spell.
fn number(ten: u8, one: u8) -> Option<u8>
    ensures { SomeIff result (IsInRange 48 57 ten × IsInRange 48 57 one) (number_in ten one) }
{
    match (ten, one) {
        (b'0'..=b'9', b'0'..=b'9') => Some((ten - b'0') * 10 + (one - b'0')),
        _ => None,
    }
}

/// The year that two characters spell, of which the first runs on past `9`, to `C` for 2090.
fn year(tens: u8, ones: u8) -> Option<u16>
    ensures { SomeIff result
        (IsInRange 48 67 tens × IsInRange 48 57 ones)
        (1900 + number_in tens ones) }
{
    match (tens, ones) {
        (b'0'..=b'C', b'0'..=b'9') => {
            Some(1900 + (tens - b'0') as u16 * 10 + (ones - b'0') as u16)
        }
        _ => None,
    }
}

/// The month with these letters.
fn month(letters: [u8; 3]) -> Option<u8>
    ensures { MatchOption result
        ((m : ℕ) → IsInRange 1 12 m → month_name m ≢ letters)
        (λ m. IsInRange 1 12 m × (month_name m ≡ letters)) }
{
    for month in 1..=12 {
        if month_name(month) == letters {
            return Some(month);
        }
    }
    None
}

/// A character, `0` for a space.
fn zero_for_space(character: u8) -> u8
    ensures { result ≡ (if character == 32 then 48 else character) }
{
    if character == b' ' { b'0' } else { character }
}

/// The date that seven bytes spell, of which the first may be a space in place of `0`.
pub(crate) fn date(bytes: &[u8; 7]) -> Option<Date>
    ensures { result ≡ day_spelled (with_zero bytes.now) }
{
    let [day_ten, day, first, second, third, year_tens, year_ones] = *bytes;
    let ten = zero_for_space(day_ten);
    Date::new(
        year(year_tens, year_ones)?,
        month([first, second, third])?,
        number(ten, day)?,
    )
}

/// The time of the day that six bytes spell.
pub(crate) fn time(bytes: &[u8; 6]) -> Option<Time>
    ensures { result ≡ clock_spelled bytes.now }
{
    let [hour_ten, hour, minute_ten, minute, second_ten, second] = *bytes;
    Time::new(
        number(hour_ten, hour)?,
        number(minute_ten, minute)?,
        number(second_ten, second)?,
    )
}
