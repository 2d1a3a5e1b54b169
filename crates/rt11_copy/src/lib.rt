//! The files of an RT-11 volume, faulty or not, are copied to another volume, one after another, each to the front of the first room (RT-11
//! System User's Guide, COPY and SQUEEZE with an output volume).
//!
//! [`copy_all`] copies the files of entries, and [`copy_file`] one. The crate stands on [`rt11_squeeze`] and [`rt11_volume`].
#![tactic(auto)]

mod copies;
mod copying;
mod entries;
mod fitting;
pub mod laws;
mod making;
mod outcome;
mod reading;
#[cfg(test)]
mod tests;

pub use copies::copy_all;
pub use copying::copy_file;
pub use fitting::{RtNeed, blocks_for, need_of, will_fit};
pub use outcome::{RtCopied, RtUncopied};
