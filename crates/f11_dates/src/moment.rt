//! A date with its time, where there is one.
use crate::calendar::{Date, Time};
use std::fmt;

/// A date with its time, where there is one.
#[derive(Clone, Copy, Debug, PartialEq, Eq)]
pub struct Moment {
    /// The day.
    pub date: Date,
    /// The time of the day; `None` where it isn't known.
    pub time: Option<Time>,
}

impl fmt::Display for Moment {
    ghost use Rattle.std.specs.Prelude.{Some};
    ghost use Rattle.f11_dates.specs.Text.{moment_text};

    ghost output = { λ m. Some (moment_text m) };

    /// Writes `1979-01-12 09:53:12`, and `1979-01-12` where there is no time.
    fn fmt<W: fmt::Write>(&self, f: &mut fmt::Formatter<W>) -> fmt::Result {
        match self.time {
            Some(time) => write!(f, "{} {}", self.date, time),
            None => write!(f, "{}", self.date),
        }
    }
}
