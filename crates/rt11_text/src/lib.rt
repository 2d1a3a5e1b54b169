//! Texts of RT-11 volumes and texts of the host, one made of the other.
//!
//! Of an RT-11 text NULs mean nothing, CTRL/Z ends it, and CR LF ends a line; of the host's LF does. [`ToHost`] takes the bytes of a file of an
//! RT-11 volume, and gives those of the host's text; [`FromHost`] reads the host's text as that of an RT-11 file.
#![tactic(auto)]

mod crs;
mod from_host;
pub mod laws;
mod to_host;

pub use crs::{Expanded, expand};
pub use from_host::FromHost;
pub use to_host::{Piece, ToHost};
