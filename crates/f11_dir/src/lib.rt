//! The records of a directory, a block of 32 at a time (Files-11 On-Disk Structure Level 1,
//! directories).
//!
//! [`records`] reads a block's records and [`record_at`] one of them, [`find`] looks for the first one
//! with a name and [`first_empty`] for the first one without a file; [`put`] and [`clear`] change the
//! 16 bytes of one record and no others. Whatever the bytes of a block are, it has 32 records.
//!
//! Stands on `f11_bytes` (blocks and their words), `f11_rad50` (names) and `f11_store` (what a record
//! says).
#![tactic(auto)]

mod edit;
mod record;
mod search;

pub use edit::{clear, put, put_words};
pub use record::Record;
pub use search::{Found, find, first_empty, record_at, records};

/// The records of a block.
pub const RECORDS: usize = 32;

/// The bytes of a record.
pub const RECORD_SIZE: usize = 16;
