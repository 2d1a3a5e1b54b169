//! The bitmaps of a fresh volume.
ghost use Rattle.std.specs.Prelude.{◌≡◌, ◌<◌};
ghost use Rattle.f11_layout.specs.IndexBitmap.{fresh_index_bitmap};

use crate::layout::{Layout, bit_blocks};
use f11_bytes::{BLOCK_BITS, Block, set_bit, write_long, zeros};

/// The bits of slots 1 to 5, which are in use.
const OWN_BITS: u8 = 0b11111;

/// Where the control block says how many blocks the storage bitmap has.
const COUNT: usize = 3;

impl Layout {
    ghost use Rattle.f11_layout.specs.FreshBitmaps.{fresh_control, IsFreshBitmap};

    /// Makes the block the control block.
    #[tactic(auto, unfolding(crate::specs::FreshBitmaps::fresh_control))]
    pub(crate) fn fill_control(&self, block: &mut Block)
        ensures { block.new ≡ fresh_control self.now }
    {
        let count = bit_blocks(self.blocks);
        *block = zeros();
        block[COUNT] = count as u8;
        write_long(block, 4 + 4 * count as usize, self.blocks);
    }

    /// Makes the block number `i` of the storage bitmap, from 0.
    pub(crate) fn fill_bitmap(&self, i: u32, block: &mut Block)
        requires { i < 126 }
        ensures { IsFreshBitmap self.now i block.new }
    {
        let used = self.used_blocks();
        *block = zeros();
        for bit in 0..BLOCK_BITS {
            let lbn = BLOCK_BITS * i + bit;
            set_bit(block, bit, used <= lbn && lbn < self.blocks);
        }
    }
}

/// Makes the block number `i` of the index bitmap, from 0.
#[tactic(auto, unfolding(crate::specs::IndexBitmap::fresh_index_bitmap))]
pub(crate) fn fill_index_bitmap(i: u32, block: &mut Block)
    ensures { block.new ≡ fresh_index_bitmap i }
{
    *block = zeros();
    if i == 0 {
        block[0] = OWN_BITS;
    }
}
