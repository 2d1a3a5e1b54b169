//! A file that grows, from the room for it to the header that names its new blocks.

pub(crate) mod again;
pub(crate) mod header;
pub(crate) mod link;
pub(crate) mod mark;
pub(crate) mod name;
pub(crate) mod pieces;
pub(crate) mod room;
pub(crate) mod runs;
pub(crate) mod slots;
pub(crate) mod tail;
pub(crate) mod take;
pub(crate) mod zeros;
