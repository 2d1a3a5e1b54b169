//! A file that was found by its identification.
use f11_reader::FileReader;

/// A file that was found.
#[derive(Clone, Copy)]
pub(crate) struct Sought {
    /// The file, whose first header is in hand.
    pub(crate) file: FileReader,
    /// Where it ends, in bytes, if it has blocks for so many.
    pub(crate) end: u64,
    /// Whether the bit of its slot says that it is in use.
    pub(crate) in_use: bool,
}
