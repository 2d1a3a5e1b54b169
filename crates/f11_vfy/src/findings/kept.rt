//! Blocks that are kept as a volume is read, to be written.
use crate::survey::extensions::Extensions;
use f11_bytes::{BLOCK_SIZE, Block};
use std::alloc::Global;

/// The blocks of a volume that are kept as it is read, besides what a [`Reading`](crate::findings::reading::Reading) has of it.
#[derive(Drop)]
pub struct Kept {
    /// The extension headers, where they are to be kept.
    pub(crate) extensions: Extensions,
    /// The last block of the storage bitmap that has a bit of the volume.
    pub(crate) last: Block,
}

impl Kept {
    ghost use Rattle.f11_vfy.specs.Surveying.Extensions.{IsToKeep};

    /// No header is to be kept, which takes no memory.
    pub fn none(alloc: Global) -> Kept {
        Kept {
            extensions: Extensions::none(alloc),
            last: [0; BLOCK_SIZE],
        }
    }

    /// The extension headers are to be kept, 512 bytes each.
    pub fn all(alloc: Global) -> Kept
        ensures { IsToKeep result.extensions }
    {
        Kept {
            extensions: Extensions::all(alloc),
            last: [0; BLOCK_SIZE],
        }
    }
}
