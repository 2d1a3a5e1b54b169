//! Dates and times as Files-11 keeps them (Files-11 On-Disk Structure Level 1, ident area): written.
ghost use Rattle.std.specs.Prelude.{◌≡◌, ◌≤◌, ◌++◌, replicate, IfSome};
ghost use Rattle.std.specs.Option.{option_map_or};
ghost use Rattle.f11_dates.specs.Files11.{clock_bytes, clock_held, day_bytes, day_held, month_name, months};
ghost use Rattle.f11_dates.specs.Calendar.{IsClock, IsDay};
ghost use Rattle.f11_dates.specs.declared.dated.Dated.TheVariants.{Set};
ghost use Rattle.f11_dates.specs.Moments.{moment_bytes, moment_held};
ghost use Rattle.f11_dates.specs.Text.{two_digits};

use crate::calendar::{Date, Time};
use crate::moment::Moment;

/// The months, in capitals.
const MONTHS: [[u8; 3]; 12] = [
    *b"JAN", *b"FEB", *b"MAR", *b"APR", *b"MAY", *b"JUN", *b"JUL", *b"AUG", *b"SEP", *b"OCT",
    *b"NOV", *b"DEC",
];

/// The letters of a month.
pub(crate) fn month_name(month: u8) -> [u8; 3]
    requires from { 1 ≤ month }
    requires to { month ≤ 12 }
    ensures { result ≡ month_name month }
{
    MONTHS[month as usize - 1]
}

/// A number in two characters, of which the first runs on past `9` from 100 on.
fn two_digits(number: u8) -> [u8; 2]
    ensures { result ≡ two_digits number }
{
    [b'0' + number / 10, b'0' + number % 10]
}

/// The bytes of a date, and that it is one.
fn date_bytes(date: Date) -> [u8; 7]
    ensures bytes { result ≡ day_bytes date }
    ensures valid { IsDay date }
{
    let [day_ten, day] = two_digits(date.day());
    let [first, second, third] = month_name(date.month());
    let [year_tens, year_ones] = two_digits((date.year() - 1900) as u8);
    [day_ten, day, first, second, third, year_tens, year_ones]
}

/// The seven bytes of a date, `DDMMMYY`, as of an expiration date: the day in two digits, the month in capitals, and the
/// years behind 1900 in two characters, of which the first runs on past `9` from 2000 (`:0`) to 2099 (`C9`). NULs are no date.
pub fn write_date(date: Date) -> [u8; 7]
    ensures bytes { result ≡ day_bytes date }
    ensures reads_back { day_held result ≡ Set date }
{
    date_bytes(date)
}

/// The bytes of a time, and that it is one.
fn clock_bytes(time: Time) -> [u8; 6]
    ensures bytes { result ≡ clock_bytes time }
    ensures valid { IsClock time }
{
    let [hour_ten, hour] = two_digits(time.hour());
    let [minute_ten, minute] = two_digits(time.minute());
    let [second_ten, second] = two_digits(time.second());
    [hour_ten, hour, minute_ten, minute, second_ten, second]
}

/// The six bytes of a time of the day, `HHMMSS`. NULs are no time.
pub fn write_time(time: Time) -> [u8; 6]
    ensures bytes { result ≡ clock_bytes time }
    ensures reads_back { clock_held result ≡ Set time }
{
    clock_bytes(time)
}

/// The bytes of a time, or NULs where there is none.
fn time_bytes(time: Option<Time>) -> [u8; 6]
    ensures bytes { result ≡ option_map_or clock_bytes time (replicate 6 0) }
    ensures valid { IfSome time IsClock }
{
    match time {
        Some(time) => clock_bytes(time),
        None => [0; 6],
    }
}

/// Seven bytes and six behind them.
fn joined(date: &[u8; 7], time: &[u8; 6]) -> [u8; 13]
    ensures { result ≡ date.now ++ time.now }
{
    let [a, b, c, d, e, f, g] = *date;
    let [h, i, j, k, l, m] = *time;
    [a, b, c, d, e, f, g, h, i, j, k, l, m]
}

/// The 13 bytes of a date and its time, `DDMMMYYHHMMSS`, as a creation, a revision and a home block have them; NULs in place
/// of the time where there is none.
pub fn write_moment(moment: &Moment) -> [u8; 13]
    ensures bytes { result ≡ moment_bytes moment.now }
    ensures reads_back { moment_held result ≡ Set moment.now }
{
    joined(&date_bytes(moment.date), &time_bytes(moment.time))
}
