//! File headers over a lent block: whether a block is one, its fields, and its ident and map areas.
//!
//! [`check`] tells a valid header from a dead and from a bad one; [`Header`] and [`HeaderMut`] borrow a block and read and
//! write its fields where they stand; [`blank`] and [`kill`] make and end a header. The crate stands on [`f11_bytes`] for
//! blocks and words and on [`f11_store`] for identifications and owners.
#![tactic(auto)]

mod fields;
mod header;
mod header_mut;
pub mod laws;
mod lifecycle;
pub mod map_fields;
mod validity;

pub use f11_store;
pub use f11_store::f11_bytes;
pub use header::Header;
pub use header_mut::HeaderMut;
pub use lifecycle::{blank, kill};
pub use validity::{HeaderFault, check};
