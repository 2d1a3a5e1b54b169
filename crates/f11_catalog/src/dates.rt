//! The dates of a file.
ghost use Rattle.std.specs.Prelude.{◌≡◌, ◌+◌, ◌≤◌, Some, length};
ghost use Rattle.f11_catalog.specs.LongLine.{dates_in, expiry_in, moment_at};

use f11_bytes::read_word;
use f11_dates::{Dated, Moment, read_date, read_moment};
use std::fmt;

/// The dates of a file, as its ident area has them (Files-11 On-Disk Structure Level 1, "Ident Area").
#[derive(Clone, Copy)]
pub(crate) struct FileDates {
    /// When it was made.
    pub(crate) created: Dated<Moment>,
    /// When it was revised last.
    pub(crate) revised: Dated<Moment>,
    /// How often it was revised.
    pub(crate) times: u16,
    /// From when on it isn't needed any more.
    pub(crate) expires: Dated<Moment>,
}

/// The date and the time that stand in an ident area from a byte on.
fn moment_at(ident: &[u8], at: usize) -> Dated<Moment>
    requires within { at + 13 ≤ length ident.now }
    ensures { result ≡ moment_at ident.now at }
{
    let mut bytes = [0; 13];
    bytes.copy_from_slice(&ident[at..at + 13]);
    read_moment(&bytes)
}

/// The expiration date, which has no time.
fn expiry_in(ident: &[u8]) -> Dated<Moment>
    requires within { length ident.now ≡ 46 }
    ensures { result ≡ expiry_in ident.now }
{
    let mut bytes = [0; 7];
    bytes.copy_from_slice(&ident[38..45]);
    match read_date(&bytes) {
        Dated::Unset => Dated::Unset,
        Dated::Set(date) => Dated::Set(Moment { date, time: None }),
        Dated::Invalid => Dated::Invalid,
    }
}

impl FileDates {
    /// Those that an ident area says.
    pub(crate) fn of(ident: &[u8]) -> FileDates
        requires { length ident.now ≡ 46 }
        ensures { result ≡ dates_in ident.now }
    {
        FileDates {
            created: moment_at(ident, 25),
            revised: moment_at(ident, 12),
            times: read_word(ident, 10),
            expires: expiry_in(ident),
        }
    }
}

/// A date behind what it is of.
#[derive(Clone, Copy)]
struct ShownDate(&'static str, Dated<Moment>);

impl fmt::Display for ShownDate {
    ghost use Rattle.f11_catalog.specs.LongLine.{date_shown};

    ghost output = { λ d. Some (date_shown d.0.now d.1) };

    fn fmt<W: fmt::Write>(&self, f: &mut fmt::Formatter<W>) -> fmt::Result {
        let what = self.0;
        match self.1 {
            Dated::Unset => Ok(()),
            Dated::Set(moment) => write!(f, "{what}{moment}"),
            Dated::Invalid => write!(f, "{what}?"),
        }
    }
}

/// How often a file was revised, where it was.
#[derive(Clone, Copy)]
struct ShownTimes(u16);

impl fmt::Display for ShownTimes {
    ghost use Rattle.f11_catalog.specs.LongLine.{times_shown};

    ghost output = { λ t. Some (times_shown t.0) };

    fn fmt<W: fmt::Write>(&self, f: &mut fmt::Formatter<W>) -> fmt::Result {
        let times = self.0;
        if times == 0 {
            return Ok(());
        }
        write!(f, " times {times}")
    }
}

impl fmt::Display for FileDates {
    ghost use Rattle.f11_catalog.specs.LongLine.{dates_shown};

    ghost output = { λ d. Some (dates_shown d) };

    fn fmt<W: fmt::Write>(&self, f: &mut fmt::Formatter<W>) -> fmt::Result {
        let created = ShownDate(" created ", self.created);
        let revised = ShownDate(" revised ", self.revised);
        let times = ShownTimes(self.times);
        let expires = ShownDate(" expires ", self.expires);
        write!(f, "{created}{revised}{times}{expires}")
    }
}
