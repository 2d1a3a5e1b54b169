//! What is kept of an open volume.

use f11_bits::Storage;
use f11_home::Home;
use f11_index::IndexFile;

/// The structure of an open volume: its home block, its index file and its storage bitmap.
#[derive(Drop)]
pub(crate) struct Structure {
    pub(crate) home: Home,
    pub(crate) index: IndexFile,
    pub(crate) storage: Storage,
}
