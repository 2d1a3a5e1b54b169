//! The last header of a file, in hand.

use f11_bytes::Block;
use f11_store::{FileId, Uic};

/// The last header of a file: its number, and its block; and what each header that the file gets says (profile): the file's owner and
/// its protection.
#[derive(Drop)]
pub(crate) struct Tail {
    pub(crate) file: FileId,
    pub(crate) owner: Uic,
    pub(crate) protection: u16,
    pub(crate) number: u16,
    pub(crate) block: Block,
}
