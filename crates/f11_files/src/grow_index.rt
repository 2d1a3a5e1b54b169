//! The index file, which grows: its new blocks are slots.

pub(crate) mod headroom;
pub(crate) mod room;
