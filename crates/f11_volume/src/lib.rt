//! What a Files-11 volume is: what its headers and its storage bitmap tell of it, what is wrong with it and what is worth a note,
//! and when an image is accepted. Definitions and the laws about them alone, each law the contract of a function that does
//! nothing in [`laws`]; the verifier finds what they speak of, and layers that write cite them.
//!
//! The crate stands on `f11_index` and `f11_chain`, for headers and files, and on `f11_bits`, for the storage bitmap.
#![tactic(auto)]

pub mod laws;

pub use f11_chain::f11_map;
pub use f11_layout;
