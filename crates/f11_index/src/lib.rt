//! The index file of a Files-11 volume: its bitmap, its slots, and where each header is (Files-11 On-Disk Structure
//! Level 1, "Index File").
//!
//! [`IndexFile::load`] reads it off a device whose home block is known, and answers what is wrong with it where something
//! is; [`IndexFile::read`] leaves bits past the slots to [`IndexFile::first_past`]. What it keeps, a bit and an LBN a slot,
//! is what the index file of an honest device's image says. Slots are numbered from 1. The crate stands on [`f11_home`],
//! [`f11_header`] and [`f11_map`]; [`laws`] has what a write leaves of it.
#![tactic(auto)]

mod bits;
mod blocks;
mod fault;
mod index_file;
pub mod laws;
mod load;
mod slots;
mod used;
mod walk;

pub use f11_bytes;
pub use f11_map;
pub use f11_map::f11_header;
pub use fault::IndexFault;
pub use index_file::IndexFile;
