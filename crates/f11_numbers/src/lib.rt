//! Numbers and users' codes among the words of a command line: [`read_number`] and [`read_count`] read decimal digits alone,
//! [`read_protection`] a protection word and [`read_uic`] a user's code, in octal, and [`read_rights`] a protection word as
//! RSX-11 shows it. Each is `None` for any other text.
//!
//! The crate stands on [`f11_bytes`], for octal digits, and on [`f11_store`], for users' codes and what a protection word
//! denies.
#![tactic(auto)]

mod decimal;
mod octal;
mod rights;

pub use decimal::{read_count, read_number};
pub use octal::{read_protection, read_uic};
pub use rights::{ShownRights, read_rights};
