//! All that can be got of a volume, faulty or not, on another one, which is accepted.
//!
//! Of RT-11 volumes: [`begin_rt_copy`] reads the directory of one, [`RtPack::size`] tells of which size a fresh one is to be and whether the
//! files fit, [`RtPack::copy`] makes it and copies all files, and [`RtPack::copy_onto`] copies them to one that is there. Each writes a line
//! for each file, one that counts them, and the verdict on the new volume. The crate stands on [`rt11_copy`], which copies a file, and on
//! [`f11_commands`], for what commands answer.
#![tactic(auto)]

mod rt_copy;
mod rt_lines;
mod rt_pack;
mod rt_size;
#[cfg(test)]
mod tests;

pub use f11_commands;
pub use rt_pack::{RtPack, begin_rt_copy};
pub use rt_size::{RtSize, RtTooSmall, refuse_rt_copy};
