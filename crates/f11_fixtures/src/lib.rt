//! What tests start from: blocks and words of devices in memory, headers, and volumes of both systems. It holds no test itself.
//!
//! [`memory`] is a device, [`get`], [`put`], [`keep`] and [`put_words`] read and write its blocks, and [`has_words`] and
//! [`has_front`], [`has_written`] and [`are_alike`] look at them. [`linked`] is a header with retrieval pointers, [`directory_header`] that of a master file directory. [`volumes`] has Files-11 volumes, [`index`] loads their index files, and
//! [`rt_volumes`] those of RT-11. What takes memory asks again where it was refused once, so that tests with refused memory
//! can start from it too.
#![tactic(auto)]

mod blocks;
mod headers;
pub mod index;
pub mod rt_volumes;
mod text;
pub mod volumes;

pub use blocks::{
    SEVENS, ZEROS, are_alike, get, has_front, has_words, has_written, keep, memory, put, put_words,
    sevens,
};
pub use f11_vfy;
pub use headers::{SYSTEM, blank_of, directory_header, file, linked};
pub use text::{Lines, are_found, lines, text_of};
