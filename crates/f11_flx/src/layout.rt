//! How the records of a file lie.

/// How the records of a file lie (Files-11 On-Disk Structure Level 1, file attributes).
#[derive(Clone, Copy, Debug, PartialEq, Eq)]
pub enum Layout {
    /// One behind another, each of so many bytes.
    Fixed(u16),
    /// Each behind its length word, with a pad byte where the length is odd.
    Variable,
}
