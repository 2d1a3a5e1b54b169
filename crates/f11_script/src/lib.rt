//! The language of scripts for a Files-11 ODS-1 volume: what a line asks, and how it is answered.
//!
//! Stands on `f11_bytes` (words), `f11_rad50` (names), `f11_store` (requests), `arrayvec` (texts of fixed capacity), `itoa`
//! (numbers in decimal) and `thiserror`.
#![tactic(auto)]

mod answer;
mod areas;
mod blocks;
mod errors;
mod fields;
mod input;
pub mod laws;
mod line;
mod output;
mod requests;
mod text;
mod verb;
mod words;

pub use errors::ScriptError;
pub use input::{Line, ScriptReader};
pub use line::{Parsed, parse};
pub use output::{bad_line, reply};
