//! A part of a device's blocks: [`Window`] is the blocks of another device from one on, so many, numbered from 0. A partition of a big
//! RT-11 disk is one.
//!
//! It is a [`f11_dev::Device`] whose image is that part of the image within, at each moment, and it is honest where the device within is:
//! so whatever is proved of any device is proved of it. No block outside the part is ever changed by it.
#![tactic(auto)]

pub mod laws;
#[cfg(test)]
mod tests;
mod window;

pub use f11_dev;
pub use window::{PARTITION_BLOCKS, PARTITION_STEP, Window};
