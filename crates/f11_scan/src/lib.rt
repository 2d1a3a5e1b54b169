//! Every file header of an image, wherever it lies: what a Files-11 volume is salvaged by whose home block or index file is gone.
//!
//! [`use_of`] tells whether a block is a header, live or killed; [`Scan`] goes over a device from a block on, block by block, and finds
//! the next one, as a [`FoundHeader`]. A block that can't be read ends nothing: [`Scan::skip`] passes it by. No memory is taken.
#![tactic(auto)]

mod found;
mod header_use;
pub mod laws;
mod scan;
mod search;
#[cfg(test)]
mod tests;
mod uses;

pub use f11_dev;
pub use f11_header;
pub use found::FoundHeader;
pub use header_use::HeaderUse;
pub use scan::Scan;
pub use uses::use_of;
