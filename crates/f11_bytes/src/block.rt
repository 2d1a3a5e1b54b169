//! Blocks.
ghost use Rattle.std.specs.Prelude.{◌≡◌};
ghost use Rattle.f11_bytes.specs.Block.{zero_block};

use crate::{BLOCK_SIZE, Block};

/// The block of zeros.
#[tactic(auto, unfolding(crate::specs::Block::zero_block))]
pub fn zeros() -> Block
    ensures { result ≡ zero_block }
{
    [0; BLOCK_SIZE]
}
