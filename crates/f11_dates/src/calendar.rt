//! Days of the calendar and times of the day, as far as volumes hold them.
ghost use Rattle.std.specs.Prelude.{◌≡◌, ◌↔◌, IsTrue, SomeIff};
ghost use Rattle.f11_dates.specs.Calendar.{IsDate, IsTime, days_in_month, is_leap_year};

use std::fmt;
use std::marker::Model;

/// Whether a year has a 29 February, by the Gregorian calendar.
pub fn is_leap_year(year: u16) -> bool
    ensures { result ≡ is_leap_year year }
{
    year % 4 == 0 && (year % 100 != 0 || year % 400 == 0)
}

/// How many days a month, 1 to 12, of a year has, by the Gregorian calendar; 31 for any other number.
pub fn days_in_month(year: u16, month: u8) -> u8
    ensures { result ≡ days_in_month year month }
{
    match month {
        2 => { if is_leap_year(year) { 29 } else { 28 } }
        4 | 6 | 9 | 11 => 30,
        _ => 31,
    }
}

/// Whether these are a day that a volume can hold.
fn is_date(year: u16, month: u8, day: u8) -> bool
    ensures { IsTrue result ↔ IsDate year month day }
{
    (1900..=2099).contains(&year)
        && (1..=12).contains(&month)
        && (1..=days_in_month(year, month)).contains(&day)
}

/// Whether these are a time of the day.
fn is_time(hour: u8, minute: u8, second: u8) -> bool
    ensures { IsTrue result ↔ IsTime hour minute second }
{
    hour < 24 && minute < 60 && second < 60
}

/// A day of the Gregorian calendar from 1 January 1900 to 31 December 2099. Contracts see its year, month and day.
#[derive(Clone, Copy, Debug, PartialEq, Eq)]
pub struct Date {
    year: u16,
    month: u8,
    day: u8,
}

impl Model for Date {
    ghost use Rattle.f11_dates.specs.Calendar.{Day, IsDate};

    ghost Value = { Day };

    ghost view = { λ d. record { year = d.year; month = d.month; day = d.day } };

    ghost invariant = { λ d. IsDate d.year d.month d.day };

    ghost inverse = { λ d. record { year = d.year; month = d.month; day = d.day } };
}

impl Date {
    /// The day with this year, month (1 to 12) and day of the month (from 1); `None` exactly where the calendar has no
    /// such day, or where the year isn't in 1900 to 2099 (profile).
    pub fn new(year: u16, month: u8, day: u8) -> Option<Date>
        ensures { SomeIff result
            (IsDate year month day)
            (record { year = year; month = month; day = day }) }
    {
        if is_date(year, month, day) {
            Some(Date { year, month, day })
        } else {
            None
        }
    }

    /// Its year, 1900 to 2099.
    pub fn year(self) -> u16
        ensures value { result ≡ self.year }
        ensures date { IsDate self.year self.month self.day }
    {
        self.year
    }

    /// Its month, 1 to 12.
    pub fn month(self) -> u8
        ensures value { result ≡ self.month }
        ensures date { IsDate self.year self.month self.day }
    {
        self.month
    }

    /// Which day of the month it is, from 1.
    pub fn day(self) -> u8
        ensures value { result ≡ self.day }
        ensures date { IsDate self.year self.month self.day }
    {
        self.day
    }
}

impl fmt::Display for Date {
    ghost use Rattle.std.specs.Prelude.{Some};
    ghost use Rattle.f11_dates.specs.Text.{day_text};

    ghost output = { λ d. Some (day_text d) };

    /// Writes `1979-01-12`.
    fn fmt<W: fmt::Write>(&self, f: &mut fmt::Formatter<W>) -> fmt::Result {
        write!(f, "{}-{:02}-{:02}", self.year, self.month, self.day)
    }
}

/// A time of the day, to the second. Contracts see its hour, minute and second.
#[derive(Clone, Copy, Debug, PartialEq, Eq)]
pub struct Time {
    hour: u8,
    minute: u8,
    second: u8,
}

impl Model for Time {
    ghost use Rattle.f11_dates.specs.Calendar.{Clock, IsTime};

    ghost Value = { Clock };

    ghost view = { λ t. record { hour = t.hour; minute = t.minute; second = t.second } };

    ghost invariant = { λ t. IsTime t.hour t.minute t.second };

    ghost inverse = { λ t. record { hour = t.hour; minute = t.minute; second = t.second } };
}

impl Time {
    /// The time with this hour, minute and second; `None` exactly where the hour is above 23, or the minute or the second
    /// above 59.
    pub fn new(hour: u8, minute: u8, second: u8) -> Option<Time>
        ensures { SomeIff result
            (IsTime hour minute second)
            (record { hour = hour; minute = minute; second = second }) }
    {
        if is_time(hour, minute, second) {
            Some(Time {
                hour,
                minute,
                second,
            })
        } else {
            None
        }
    }

    /// Its hour, 0 to 23.
    pub fn hour(self) -> u8
        ensures value { result ≡ self.hour }
        ensures time { IsTime self.hour self.minute self.second }
    {
        self.hour
    }

    /// Its minute, 0 to 59.
    pub fn minute(self) -> u8
        ensures value { result ≡ self.minute }
        ensures time { IsTime self.hour self.minute self.second }
    {
        self.minute
    }

    /// Its second, 0 to 59.
    pub fn second(self) -> u8
        ensures value { result ≡ self.second }
        ensures time { IsTime self.hour self.minute self.second }
    {
        self.second
    }
}

impl fmt::Display for Time {
    ghost use Rattle.std.specs.Prelude.{Some};
    ghost use Rattle.f11_dates.specs.Text.{clock_text};

    ghost output = { λ t. Some (clock_text t) };

    /// Writes `09:53:12`.
    fn fmt<W: fmt::Write>(&self, f: &mut fmt::Formatter<W>) -> fmt::Result {
        write!(f, "{:02}:{:02}:{:02}", self.hour, self.minute, self.second)
    }
}
