//! Bytes: what every layer reads off them and puts to them.
//!
//! A [`Block`] is 512 of them. [`read_word`] and [`write_word`] are words, the low byte first, [`read_long`] and
//! [`write_long`] numbers of two words, the high one first, [`word_bytes`] and [`long_bytes`] their bytes, and
//! [`sum_words`] a check sum (Files-11 On-Disk Structure Level 1, "Medium"). [`put_bytes`] puts bytes in the place of
//! others, and [`bytes_mut`] lends some of an array to be written. [`is_set`] and [`set_bit`] are bits of a bitmap, and
//! [`octal_value`] reads octal digits. [`NoMemory`] is the error of the calls above that take memory; none here does. The
//! crate stands on no other of this repository.
#![tactic(auto)]

mod bits;
mod block;
mod no_memory;
mod octal;
mod part;
mod words;

pub use bits::{is_set, set_bit};
pub use block::zeros;
pub use no_memory::NoMemory;
pub use octal::octal_value;
pub use part::{bytes_mut, put_bytes};
pub use words::{long_bytes, read_long, read_word, sum_words, word_bytes, write_long, write_word};

/// A block of a device: 512 bytes.
pub type Block = [u8; BLOCK_SIZE];

/// The bytes of a block.
pub const BLOCK_SIZE: usize = 512;

/// How many bits a block has.
pub const BLOCK_BITS: u32 = 4096;
