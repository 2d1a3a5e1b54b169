//! The home block of a Files-11 volume: where it is, whether it is valid, and what stands in it.
//!
//! [`find`] answers the first valid candidate of a device, and each of its fields. Who makes a home block puts its
//! [`fields`] and then calls [`seal`]. The crate stands on [`f11_dev`], for devices, blocks and words.
#![tactic(auto)]

mod block;
pub mod fields;
mod home;
pub mod laws;

pub use block::seal;
pub use home::{Home, HomeFault, candidate_count, candidate_lbn, find};
