//! How a copy is made.

/// How a copy is made (RSX-11M Utilities manual, FLX).
#[derive(Clone, Copy, Debug, PartialEq, Eq)]
pub enum CopyMode {
    /// Block by block, as it is.
    Image,
    /// The records of a file as the lines of a text, and the lines of a text as records.
    Text,
}
