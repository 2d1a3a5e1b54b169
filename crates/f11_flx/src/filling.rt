//! A block of a copy that is being filled.
ghost use Rattle.std.specs.Prelude.{◌≡◌};

use f11_bytes::{BLOCK_SIZE, Block};

/// A block of a copy that is being filled.
#[derive(Drop)]
pub struct Filling {
    /// The block.
    pub block: Block,
    /// How many of its bytes are filled.
    pub to: usize,
    /// Its place in the copy, from 0.
    pub place: u32,
}

impl Filling {
    /// The first block of a copy.
    pub fn new() -> Filling
        ensures place { result.place ≡ 0 }
        ensures to { result.to ≡ 0 }
    {
        Filling {
            block: [0; BLOCK_SIZE],
            to: 0,
            place: 0,
        }
    }
}
