//! Bytes and words of dates, what they are shown as, and written again.
ghost use Rattle.std.specs.Prelude.{◌≡◌, Some, IfSome};
ghost use Rattle.f11_dates.specs.Calendar.{Day};
ghost use Rattle.f11_dates.specs.Rt11.{word_held};
ghost use Rattle.f11_dates.specs.declared.dated.Dated.TheVariants.{Set};

use crate::{
    Date, Dated, Moment, Time, days_in_month, read_date, read_moment, read_rt_date, read_time,
    write_date, write_moment, write_rt_date, write_time,
};
use std::alloc::{AllocError, Global};
use std::fmt;
use std::test::Fail;

/// Bytes of dates and times, what each is shown as (nothing for no date, `?` for what is none), and written again.
const MOMENTS: [(&[u8; 13], &str, &[u8; 13]); 9] = [
    (b"12JAN79095312", "1979-01-12 09:53:12", b"12JAN79095312"),
    (b" 3FEB81171500", "1981-02-03 17:15:00", b"03FEB81171500"),
    (b"29FEB:0000000", "2000-02-29 00:00:00", b"29FEB:0000000"),
    (b"31DECC9235959", "2099-12-31 23:59:59", b"31DECC9235959"),
    (b"01MAY00      ", "1900-05-01", b"01MAY00\0\0\0\0\0\0"),
    (b"29FEB00000000", "?", &[0; 13]),
    (b"12JAN79240000", "?", &[0; 13]),
    (b"       095312", "?", &[0; 13]),
    (b"             ", "", &[0; 13]),
];

/// Words of dates, what each is shown as, and written again.
const WORDS: [(u16, &str, u16); 9] = [
    (0o11351, "1981-04-23", 0o11351),
    (0o2040, "1972-01-01", 0o2040),
    (0o42040, "2004-01-01", 0o42040),
    (0o161777, "2099-08-31", 0o161777),
    (0o177777, "?", 0),
    (0o5640, "1972-02-29", 0o5640),
    (0o5641, "?", 0),
    (0o40, "?", 0),
    (0, "", 0),
];

/// What a date is shown as: nothing for none, and `?` for what is no date.
fn shown<T: fmt::Display + Copy>(alloc: Global, date: Dated<T>) -> Result<String, AllocError> {
    match date {
        Dated::Unset => Ok(String::new(alloc)),
        Dated::Set(date) => format!(in alloc; "{date}"),
        Dated::Invalid => format!(in alloc; "?"),
    }
}

/// The bytes of a date and its time, written again; NULs for none.
fn again(moment: Dated<Moment>) -> [u8; 13] {
    match moment {
        Dated::Set(moment) => write_moment(&moment),
        _ => [0; 13],
    }
}

/// The word of a date, written again; 0 for none.
fn word_again(date: Dated<Date>) -> u16 {
    match date {
        Dated::Set(date) => write_rt_date(date).unwrap_or(0),
        _ => 0,
    }
}

/// Whether bytes are shown so.
fn is_moment(alloc: Global, bytes: &[u8; 13], text: &str) -> Result<bool, AllocError> {
    let told = shown(alloc, read_moment(bytes))?;
    Ok(told.as_str() == text)
}

/// Whether a word is shown so.
fn is_word(alloc: Global, word: u16, text: &str) -> Result<bool, AllocError> {
    let told = shown(alloc, read_rt_date(word))?;
    Ok(told.as_str() == text)
}

#[test]
fn dates_of_files11(rt: HostRuntime) -> Result<(), Fail> {
    for (bytes, text, written) in MOMENTS {
        assert!(rt; is_moment(rt.alloc(), bytes, text)?, "{text}");
        assert!(rt; again(read_moment(bytes)) == *written, "{text}");
    }
    Ok(())
}

#[test]
fn dates_of_rt11(rt: HostRuntime) -> Result<(), Fail> {
    for (word, text, written) in WORDS {
        assert!(rt; is_word(rt.alloc(), word, text)?, "{word:o}");
        assert!(rt; word_again(read_rt_date(word)) == written, "{word:o}");
    }
    Ok(())
}

/// A date, written again; NULs for none.
fn date_again(date: Dated<Date>) -> [u8; 7] {
    match date {
        Dated::Set(date) => write_date(date),
        _ => [0; 7],
    }
}

/// A time, written again; NULs for none.
fn time_again(time: Dated<Time>) -> [u8; 6] {
    match time {
        Dated::Set(time) => write_time(time),
        _ => [0; 6],
    }
}

#[test]
fn parts_of_a_moment(rt: HostRuntime) -> Result<(), Fail> {
    let date = shown(rt.alloc(), read_date(b"12JAN79"))?;
    assert!(rt; date.as_str() == "1979-01-12");
    let time = shown(rt.alloc(), read_time(b"095312"))?;
    assert!(rt; time.as_str() == "09:53:12");
    assert!(rt; date_again(read_date(b"12JAN79")) == *b"12JAN79");
    assert!(rt; time_again(read_time(b"095312")) == *b"095312");
    assert!(rt; days_in_month(1900, 2) == 28);
    assert!(rt; days_in_month(2000, 2) == 29);
    Ok(())
}

/// The word of a date that is carried over to Files-11 and back; `None` for no date.
fn carried(word: u16) -> Option<u16>
    ensures same { IfSome result (λ back. back ≡ word) }
    ensures every { (d : Day) → word_held word ≡ Set d → result ≡ Some word }
{
    match read_rt_date(word) {
        Dated::Set(date) => match read_date(&write_date(date)) {
            Dated::Set(back) => write_rt_date(back),
            _ => None,
        },
        _ => None,
    }
}

#[test]
fn dates_are_carried_over(rt: HostRuntime) {
    for (word, text, written) in WORDS {
        assert!(rt; carried(word).unwrap_or(0) == written, "{text}");
    }
}
