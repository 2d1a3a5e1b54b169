//! How what is wrong with a Files-11 volume is found, and what is worth a note: the verifier, and `init`. The definitions by which a
//! volume is accepted stand in `f11_volume`.
//!
//! The frame of a volume is read first ([`frame`]): its home block, its index file, its own files and its storage bitmap's control
//! block, each judged before the next, so that the first fault is the one found.
//!
//! [`Reading`](reading::Reading) reads a volume whose index file and storage bitmap are known: each bitmap block once at most and
//! each header in use once, in ascending order. What it keeps is some bytes a slot, two bits for each block that a pointer can name
//! and one for each that is free. From that alone come which headers are those of files, all faults of the volume, and the notes of
//! its blocks and headers: exactly those of the definitions, on any image whatever.
//!
//! The crate stands on `f11_volume`, for the definitions, on [`f11_index`] and [`f11_chain`], for headers and files, on
//! [`f11_bits`], for the storage bitmap, and on [`f11_findings`], for lists of what is found.
#![tactic(auto)]

mod accepted;
pub mod chains;
mod directories;
pub mod fault;
pub mod findings;
mod frame;
mod fresh;
pub mod laws;
mod reclaimer;
pub mod survey;
mod verifier;

pub use accepted::Accepted;
pub use f11_findings::Finding;
pub use f11_volume::f11_layout::{InitParams, MOST_BLOCKS};
pub use frame::framing::{Frame, Framing};
pub use frame::read::read_frame;
pub use fresh::{InitError, init};
pub use reclaimer::whole::reclaim;
pub use verifier::{Faults, Notes, Report, Verdict, VfyError, is_faulty, judge, verify};
