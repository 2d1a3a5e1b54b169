//! The storage bitmap of a Files-11 volume: which of its blocks are free.
//!
//! On a device that is honest, [`Storage`] knows how many blocks are free, takes exactly the first run of them, or the first that is as
//! long as it is asked for, and gives back exactly the blocks that it is told, by reading and writing the bitmap's blocks. The work
//! on one block is done by [`count_free`], [`first_run`] and [`word_sum`]. The crate stands on [`f11_dev`], for devices and blocks.
#![tactic(auto)]

mod bits;
mod lanes;
pub mod laws;
mod storage;

pub use bits::{count_free, first_run, word_sum};
pub use lanes::{ones, sum};
pub use storage::{MAX_PLACES, Storage};
