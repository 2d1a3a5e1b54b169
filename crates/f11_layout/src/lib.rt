//! The layout of a fresh Files-11 volume: where its parts are, and what stands in each block.
//!
//! A [`Layout`] is made of [`InitParams`] where a volume can be, and fills a block of its front with what stands there: the
//! home block, the bitmaps, the headers of files 1 to 5 and the master file directory. It touches no device. The crate stands
//! on [`f11_home`], [`f11_header`], [`f11_map`] and [`f11_dir`] for the formats of those blocks.
#![tactic(auto)]

mod bitmaps;
mod directory;
mod files;
mod fill;
mod header;
mod home;
mod layout;
mod params;

pub use layout::{Layout, MOST_BLOCKS};
pub use params::{InitParams, is_label};
