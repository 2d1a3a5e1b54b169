//! The files of any Files-11 volume whose index file can be read, sound or not, read block by block along their headers (Files-11
//! On-Disk Structure Level 1, "File Header" and "Map Area").
//!
//! Where the headers of a file break off, the file ends: what comes before is read. Nothing is written, and no memory is taken. The crate
//! stands on [`f11_chain`] and [`f11_index`].
#![tactic(auto)]

mod blocks;
mod file;
pub mod laws;
mod missing;
mod slot;

pub use blocks::is_slot;
pub use file::FileReader;
