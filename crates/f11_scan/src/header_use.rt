//! What a header that was found is.

/// What a file header is (Files-11 On-Disk Structure Level 1, "File Header").
#[derive(Clone, Copy, Debug, PartialEq, Eq, Hash)]
pub enum HeaderUse {
    /// It is a valid header of some number.
    Live,
    /// It was one: the deletion of its file made its number and its check word 0, and left the rest.
    Killed,
}
