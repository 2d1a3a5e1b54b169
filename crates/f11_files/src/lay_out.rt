//! A file that is laid out in one run of blocks.

pub(crate) mod lay;
pub(crate) mod room;
pub(crate) mod take;
