//! A directory of the plain store, block by block: what a look through its records tells, and what entering and removing a record are by
//! writes of blocks.
//!
//! A [`Spot`] is a record's place with its block in hand, and [`Looked`] what a look for a name finds. [`is_directory`] tells directories from
//! other files, [`entry_count`] how many records they have, and [`moved_end`] moves their end. The laws in [`laws`] say that blocks read in order tell the
//! first record with a name and the first empty one, and what stands between the writes of an entry. It stands on `f11_dir` (the records of
//! one block) and `f11_store` (the plain store), and knows no disk.
#![tactic(auto)]

mod attributes;
pub mod laws;
mod look;
mod spot;

pub use attributes::{entry_count, is_directory, moved_end};
pub use f11_dir;
pub use look::or_first_empty;
pub use spot::{Looked, Spot};
