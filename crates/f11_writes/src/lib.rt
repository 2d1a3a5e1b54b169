//! What each kind of write of one block leaves of a sound Files-11 volume: laws alone, each the contract of a function that
//! does nothing in [`laws`].
//!
//! A volume is read from its home block, the blocks of its index file and those of its storage bitmap file. A write of any
//! other block leaves all of it but the block; a write of one of these leaves a sound volume where it marks blocks used, marks
//! blocks free that no header names, drops a header that none links to, or sets one whose blocks are used and in no other. Each
//! law says what the next write's law asks: that the volume is sound still, where its index file and its storage bitmap are,
//! its headers, its free blocks, and which files are as they were.
//!
//! The crate stands on `f11_volume`, which says what a sound volume is.
#![tactic(auto)]

pub mod laws;
