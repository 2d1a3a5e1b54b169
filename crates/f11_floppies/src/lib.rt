//! Floppies whose images are kept in sector order, seen as blocks in logical order.
//!
//! Simulators keep an RX01 or an RX02 as the bytes of its sectors, as these follow one another on the tracks, and the length of a file tells
//! it; an RX50 may be kept so, too, which no length tells ([`Order`]). DEC's handlers put the blocks of a volume into the sectors with interleave and skew:
//! [`place`] is where a byte of a block stands, [`block_of`] reads a block, and [`put_block`] puts one back. [`Floppy`] is a device in
//! memory over such an image.
#![tactic(auto)]

mod arrange;
mod floppy;
pub mod laws;
mod moments;
mod order;
#[cfg(test)]
mod tests;

pub use arrange::{block_of, put_block};
pub use f11_dev;
pub use floppy::Floppy;
pub use moments::Moments;
pub use order::{Order, place};
