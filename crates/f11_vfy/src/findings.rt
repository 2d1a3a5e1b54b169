//! What is found of a volume that was read: a scan for each code, and all of them together.

pub(crate) mod contiguous;
pub mod kept;
pub mod reading;
pub(crate) mod scans;
