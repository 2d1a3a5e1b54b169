//! Radix-50 and the names of files, as the Files-11 On-Disk Structure Level 1 specification has them.
//!
//! [`encode`] and [`decode`] turn three characters into a word and back. A [`Name`] is five words (three
//! of the name, one of the type, the version) whose text is `NAME.TYP;VERSION`; every value of the type
//! is the name of a file. The crate stands on [`f11_bytes`] for bytes that are put and octal digits.
#![tactic(auto)]

mod coded;
mod errors;
mod file_name;
mod pieces;
mod radix50;

pub use errors::{BadCharacter, BadName};
pub use f11_bytes::NoMemory;
pub use file_name::Name;
pub use radix50::{decode, encode};
