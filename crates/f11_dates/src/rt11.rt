//! Dates as RT-11 keeps them, in a word (RT-11 Volume and File Formats Manual, directory entries).
//!
//! Bits 0 to 4 are the years behind 1972 within an age of 32 years, bits 5 to 9 the day, 10 to 13 the month, 14 and 15 the
//! age. 0 is no date.
ghost use Rattle.std.specs.Prelude.{◌≡◌, ◌≤◌, SomeIff, IfSome};
ghost use Rattle.f11_dates.specs.declared.dated.Dated.TheVariants.{Set};
ghost use Rattle.f11_dates.specs.Calendar.{IsDay};
ghost use Rattle.f11_dates.specs.Rt11.{HoldsWord, day_word, word_held, word_spelled};

use crate::calendar::Date;
use crate::dated::{Dated, held};

/// The first year that a word can say.
const FIRST_YEAR: u16 = 1972;

/// The years of an age.
const AGE: u16 = 32;

/// The day in a word, 0 or not.
fn spelled(word: u16) -> Option<Date>
    ensures { result ≡ word_spelled word }
{
    let year = FIRST_YEAR + word % 32 + AGE * (word / 16384);
    Date::new(year, (word / 1024 % 16) as u8, (word / 32 % 32) as u8)
}

/// The date, 1972 to 2099, that a word of a directory entry holds: `Unset` where it is 0, and `Invalid` where the month is 0
/// or above 12, or has no such day.
pub fn read_rt_date(word: u16) -> Dated<Date>
    ensures held { HoldsWord word result }

    // The same as one equation.
    ensures exact { result ≡ word_held word }
{
    held(word == 0, spelled(word))
}

/// The word of a date that has one, and that it is a date.
fn word_of(date: Date) -> u16
    requires from { 1972 ≤ date.year }
    ensures word { result ≡ day_word date }
    ensures valid { IsDay date }
{
    let since = date.year() - FIRST_YEAR;
    let age = since / AGE;
    since % AGE + 32 * date.day() as u16 + 1024 * date.month() as u16 + 16384 * age
}

/// The word of a date; `None` exactly for a year before 1972, which no word can say. No date is the word 0.
pub fn write_rt_date(date: Date) -> Option<u16>
    ensures word { SomeIff result (1972 ≤ date.year) (day_word date) }
    ensures reads_back { IfSome result (λ word. word_held word ≡ Set date) }
{
    if date.year() < FIRST_YEAR {
        return None;
    }
    Some(word_of(date))
}
