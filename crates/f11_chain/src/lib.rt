//! The headers of a file along their links, and its blocks by virtual block number (Files-11 On-Disk Structure Level 1, "File
//! Header").
//!
//! Each call goes along the headers of an index file that was loaded, judges each header that it reads, and reads none twice
//! and 256 at most. The crate stands on [`f11_index`].
#![tactic(auto)]

mod blocks;
mod fault;
pub mod laws;
mod step;
mod windows;

pub use blocks::{
    FileEnd, HeaderAt, MOST_HEADERS, Place, block_at, last, last_from, locate, seek, seek_on,
    window,
};
pub use f11_index::f11_map;
pub use fault::ChainFault;
pub use step::{first, next};
pub use windows::{Window, window_at};
