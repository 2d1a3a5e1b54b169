//! The verifier: what is wrong with an RT-11 volume, and what is worth a note.

pub(crate) mod faults;
pub(crate) mod names;
pub(crate) mod notes;
pub(crate) mod verdict;
