//! Block devices: what a volume stands on.
//!
//! A [`Device`] is read and written a block of 512 bytes at a time. Its contract tells an image that writes
//! change, the images at each moment, and how many transfers were made and failed. All that is proved above
//! is proved of any `Device`.
//!
//! [`Memory`] is a device in memory, and [`FileImage`] one in a file. [`Fuse`], [`FailOnce`] and [`Liar`] are devices
//! that fail or lie, for tests and for theorems about failures. A [`Block`] is that of [`f11_bytes`].
#![tactic(auto)]

mod device;
mod fail_once;
mod file_image;
mod fuse;
pub mod laws;
mod liar;
mod memory;
mod outcomes;
mod run;
mod written;

pub use device::{Device, DeviceFault};
pub use f11_bytes;
pub use f11_bytes::{BLOCK_SIZE, Block, NoMemory};
pub use fail_once::FailOnce;
pub use file_image::{CannotOpen, Fault, FileImage, MAX_BLOCKS};
pub use fuse::Fuse;
pub use liar::Liar;
pub use memory::Memory;
pub use outcomes::Outcomes;
pub use run::ReadsRuns;
