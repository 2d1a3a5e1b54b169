//! Tests of Files-11 volumes as wholes: made and verified on devices that fail, and opened, with calls on their files.
//!
//! A test is mostly a table of calls and their answers ([`calls`]), on a volume that has to be accepted behind them.

mod calls;
mod extends;
mod files;
mod fresh;
mod grows;
mod opens;
mod reclaims;
mod runs;
