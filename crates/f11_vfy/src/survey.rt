//! What is kept of a volume's headers, blocks and slots once each was read.

pub mod bits;
pub mod extensions;
pub mod extent;
pub mod headers;
pub(crate) mod pointers;
pub mod slot;
pub mod space;
pub mod tally;
