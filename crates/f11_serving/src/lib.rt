//! Scripts, served line by line by a volume.
//!
//! [`run_script`] reads a script, asks a volume what each line asks, and writes the lines of the answers. The loop,
//! [`serve_lines`], knows no volume: what answers is an [`Asked`](f11_making::Asked), of which it knows one relation, how a call may be
//! answered and the state then.
//!
//! It stands on `arrayvec` (the line), `f11_bytes` (blocks), `f11_fcp` (volumes), `f11_making` (what answers requests), `f11_script` (the
//! language of scripts) and `f11_store` (requests).
#![tactic(auto)]

pub mod laws;
mod script;
mod volume;

pub use f11_fcp;
pub use f11_fcp::{f11_files, f11_vfy};
pub use f11_making;
pub use script::serve_lines;
pub use volume::run_script;
