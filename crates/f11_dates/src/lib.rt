//! The dates that Files-11 and RT-11 volumes hold, read and written.
//!
//! A [`Date`] is a day of the Gregorian calendar from 1900 to 2099, a [`Time`] one of the day, to the second, and a [`Moment`]
//! a date with its time, where there is one. [`read_date`], [`read_time`] and [`read_moment`] read them from the bytes of a
//! file's ident area or of a home block, and [`write_date`], [`write_time`] and [`write_moment`] give these (Files-11 On-Disk
//! Structure Level 1); [`read_rt_date`] and [`write_rt_date`] do so with the word of a directory entry (RT-11 Volume and File
//! Formats Manual). What is read is a [`Dated`]: nothing, a date, or what is no date. No clock is asked, nothing takes memory,
//! and the crate stands on no other.
#![tactic(auto)]

mod calendar;
mod dated;
pub mod laws;
mod moment;
mod reading;
mod rt11;
mod spelled;
#[cfg(test)]
mod tests;
mod writing;

pub use calendar::{Date, Time, days_in_month, is_leap_year};
pub use dated::Dated;
pub use moment::Moment;
pub use reading::{read_date, read_moment, read_time};
pub use rt11::{read_rt_date, write_rt_date};
pub use writing::{write_date, write_moment, write_time};
