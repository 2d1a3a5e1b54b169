//! What became of a file where a volume's files were brought together.

use rt11_volume::RtRefusal;

/// What became of a file.
#[derive(Clone, Copy, Debug, PartialEq, Eq)]
pub enum Squeezed {
    /// No empty area lies before it: it stays where it is.
    InPlace,
    /// It begins at a lower block than it did.
    Moved,
    /// It couldn't be moved to a lower block, for this.
    Refused(RtRefusal),
}
