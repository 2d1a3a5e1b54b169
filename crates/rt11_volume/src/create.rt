//! A file is made: room for it, and the split of a segment that is full.

pub(crate) mod file;
pub(crate) mod room;
pub(crate) mod split;
