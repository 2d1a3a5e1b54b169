//! RT-11 volumes (RT-11 Volume and File Formats Manual): verified, made, and their files read and written.
//!
//! [`verify`] answers exactly the faults and notes of an image, and [`init`] makes a fresh volume. An [`RtAccepted`] is a volume
//! without faults, which owns its device: [`RtAccepted::list`] gives its areas, [`RtAccepted::find`] a file, [`RtAccepted::read`]
//! and [`RtAccepted::write`] read and write a file's blocks, [`RtAccepted::create`] makes a file,
//! [`RtAccepted::rename`] and [`RtAccepted::protect`] change its entry, and [`RtAccepted::delete`] deletes it. [`survey`] reads the entries of a directory whether the volume has faults or not. What these mean stands in specs/ (`Store`, `Search`, `Operations`, `Files`). The crate stands on [`f11_dev`],
//! [`f11_findings`] and [`f11_rad50`].
#![tactic(auto)]

mod any_entries;
mod any_state;
mod any_survey;
mod area;
mod bad_blocks;
mod create;
mod delete;
mod directory;
mod entry;
mod files;
mod fresh;
pub mod fresh_laws;
pub mod laws;
mod list;
mod lookup;
mod name;
mod protect;
mod refusal;
mod rename;
mod rewrite;
mod segment;
mod verifier;
mod volume;

pub use any_entries::RtEntry;
pub use any_state::RtState;
pub use any_survey::{RtEntries, RtSurvey, survey};
pub use area::{RtArea, RtKind};
pub use bad_blocks::{RtBadBlocks, read_bad_blocks};
pub use directory::LookFault;
pub use f11_findings::{Finding, Findings};
pub use f11_rad50::BadName;
pub use fresh::{RtInitError, init};
pub use name::RtName;
pub use refusal::RtRefusal;
pub use verifier::verdict::{Faults, Notes, RtReport, RtVfyError, verify};
pub use volume::RtAccepted;
