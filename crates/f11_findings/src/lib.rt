//! What a verifier finds: a list of findings, in their order and each once.
//!
//! A [`Finding`] is a code and two numbers. [`Findings`] are a growing list of them, in the order of the codes and then of the
//! numbers, so that a list that has a verifier's findings and no others is determined by them. The crate stands on
//! [`f11_bytes`] for [`NoMemory`](f11_bytes::NoMemory) alone.
#![tactic(auto)]

mod finding;
mod findings;

pub use finding::Finding;
pub use findings::{Findings, MOST_FINDINGS};
