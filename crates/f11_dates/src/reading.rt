//! Dates and times as Files-11 keeps them (Files-11 On-Disk Structure Level 1, ident area): read.
ghost use Rattle.std.specs.Prelude.{◌≡◌, ◌==◌};
ghost use Rattle.std.specs.List.{list_all};
ghost use Rattle.f11_dates.specs.Files11.{HoldsClock, HoldsDay, clock_held, day_held, is_blank};
ghost use Rattle.f11_dates.specs.Moments.{moment_held, moment_of};

use crate::calendar::{Date, Time};
use crate::dated::{Dated, held};
use crate::moment::Moment;
use crate::spelled;

/// Whether all bytes are this one.
fn are_all(bytes: &[u8], byte: u8) -> bool
    ensures { result ≡ list_all (λ b. b == byte) bytes.now }
{
    bytes.iter().all(|b| *b == byte)
}

/// Whether all bytes are NULs, or all are spaces.
fn is_blank(bytes: &[u8]) -> bool
    ensures { result ≡ is_blank bytes.now }
{
    are_all(bytes, 0) || are_all(bytes, b' ')
}

/// The date that seven bytes hold, `DDMMMYY`: `Unset` where all are NULs or all are spaces, and `Invalid` where they are
/// neither that nor a date. A day may begin with a space in place of `0`. The year's first character counts tens behind 1900,
/// and runs on past `9` from 2000 (`:0`) to 2099 (`C9`); the second is a digit.
pub fn read_date(bytes: &[u8; 7]) -> Dated<Date>
    ensures held { HoldsDay bytes.now result }

    // The same as one equation.
    ensures exact { result ≡ day_held bytes.now }
{
    held(is_blank(bytes), spelled::date(bytes))
}

/// The time of the day that six bytes hold, `HHMMSS`, 00 to 23 and twice 00 to 59: `Unset` where all are NULs or all are
/// spaces, and `Invalid` where they are neither that nor a time.
pub fn read_time(bytes: &[u8; 6]) -> Dated<Time>
    ensures held { HoldsClock bytes.now result }

    // The same as one equation.
    ensures exact { result ≡ clock_held bytes.now }
{
    held(is_blank(bytes), spelled::time(bytes))
}

/// A date and its time, where there is one.
fn moment_of(date: Dated<Date>, time: Dated<Time>) -> Dated<Moment>
    ensures { result ≡ moment_of date time }
{
    match (date, time) {
        (Dated::Unset, Dated::Unset) => Dated::Unset,
        (Dated::Set(date), Dated::Unset) => Dated::Set(Moment { date, time: None }),
        (Dated::Set(date), Dated::Set(time)) => Dated::Set(Moment {
            date,
            time: Some(time),
        }),
        _ => Dated::Invalid,
    }
}

/// The date and the time that 13 bytes hold, `DDMMMYYHHMMSS`, as a creation, a revision and a home block have them: `Unset`
/// where there is neither. A date may have no time; a time without a date, and what is no date or no time, is `Invalid`
/// (profile).
pub fn read_moment(bytes: &[u8; 13]) -> Dated<Moment>
    ensures { result ≡ moment_held bytes.now }
{
    let [a, b, c, d, e, f, g, h, i, j, k, l, m] = *bytes;
    moment_of(
        read_date(&[a, b, c, d, e, f, g]),
        read_time(&[h, i, j, k, l, m]),
    )
}
