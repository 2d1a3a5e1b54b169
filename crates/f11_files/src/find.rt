//! What is found of a file: its first header, its length, where its blocks are, and what they hold.

pub(crate) mod blocks;
pub(crate) mod first;
pub(crate) mod length;
pub(crate) mod locate;
pub(crate) mod reach;
pub(crate) mod windows;
