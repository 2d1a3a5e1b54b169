//! A device that reads ahead: [`ReadAhead`] stands around a device of which blocks that follow one another can be read at once
//! ([`f11_dev::ReadsRuns`]), reads more of them where they are asked in order, and keeps them.
//!
//! It is a [`f11_dev::Device`] of the same image, and where the device within is honest it gives the same blocks: so whatever is proved of
//! any device is proved of it.
#![tactic(auto)]

mod buffer;
mod read_ahead;
#[cfg(test)]
mod tests;

pub use f11_dev;
pub use read_ahead::ReadAhead;
