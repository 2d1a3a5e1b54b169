//! The plain store of files that the image of a sound Files-11 volume tells, and what each kind of write makes of it: definitions,
//! and laws alone, each the contract of a function that does nothing in [`laws`].
//!
//! The crate stands on `f11_volume`, which says when an image is sound, on `f11_writes`, which says what each kind of write leaves of
//! it, and on `f11_store`, whose store it is.
#![tactic(auto)]

pub mod laws;
