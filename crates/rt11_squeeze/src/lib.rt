//! The areas of an RT-11 volume are brought together: files towards the front, empty areas behind them (RT-11 System User's Guide,
//! SQUEEZE).
//!
//! [`files_told`] reads which files may be moved, and [`squeeze`] brings them to lower blocks, one after another. [`move_file`] moves one
//! to the front of the first empty area that is as long. It is a copy under a scratch name first, then the file is deleted, and the copy
//! has its name: at each moment all blocks of each file stand on the volume. Whoever copies files elsewhere has [`read_date`] and
//! [`make_copy`] of it. The crate stands on [`rt11_volume`].
#![tactic(auto)]

mod blocks;
mod copying;
mod moving;
mod outcome;
mod replacing;
mod squeezing;
mod telling;
#[cfg(test)]
mod tests;
mod way;

pub use copying::make_copy;
pub use moving::{FileToMove, move_file};
pub use outcome::Squeezed;
pub use squeezing::squeeze;
pub use telling::{files_told, read_date};
