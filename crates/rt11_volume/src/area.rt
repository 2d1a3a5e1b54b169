//! Areas: what the entries of a directory stand for.

use crate::name::RtName;

/// What an area is (RT-11 Volume and File Formats Manual, "Directory Entry").
#[derive(Clone, Copy, PartialEq, Eq, Debug)]
pub enum RtKind {
    /// A file that was begun and not closed.
    Tentative,
    /// A free area.
    Empty,
    /// A file.
    Permanent,
}

/// An area, as the directory says (RT-11 Volume and File Formats Manual, "Directory Entry").
#[derive(Clone, Copy, PartialEq, Eq, Debug)]
pub struct RtArea {
    /// What it is.
    pub kind: RtKind,
    /// The name of a file, where its words are one.
    pub name: Option<RtName>,
    /// Its first block.
    pub start: u16,
    /// Its length in blocks.
    pub length: u16,
    /// Whether it is protected.
    pub protected: bool,
}
