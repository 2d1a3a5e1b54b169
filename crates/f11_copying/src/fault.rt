//! Why a copy isn't made.

use f11_store::Refusal;

/// Why a file isn't made of the blocks of a source.
#[derive(Clone, Copy, Debug, PartialEq, Eq)]
pub enum CopyFault {
    /// The volume refuses something that is asked.
    Files(Refusal),
    /// The source gives no more blocks, or can't be read.
    Unread,
}
