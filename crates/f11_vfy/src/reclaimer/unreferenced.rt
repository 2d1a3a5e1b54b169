//! The blocks that a header names, as numbers of a set.
ghost use Rattle.std.specs.Prelude.{◌≤◌, ◌<◌, Contains, IsTrue};
ghost use Rattle.f11_header.specs.Header.{holds_header};
ghost use Rattle.f11_map.specs.HeaderBlock.{blocks_named};
ghost use Rattle.f11_vfy.specs.Frames.Earlier.{Puts};

use crate::survey::bits::Bits;
use f11_bytes::Block;
use f11_map::in_hand::map;

/// Puts the blocks that a header names into the set, those of them that are below its limit.
pub(crate) fn put_blocks(unreferenced: &mut Bits, block: &Block)
    requires header { IsTrue (holds_header block.now) }
    ensures puts { Puts (Contains (blocks_named block.now)) unreferenced.old unreferenced.new }
{
    let map = map(block);
    for i in 0..map.runs() {
        let (lbn, count) = map.run(i);
        put_range(unreferenced, lbn, lbn + count);
    }
}

/// Puts the numbers from `first` on, before `end`, into the set.
fn put_range(unreferenced: &mut Bits, first: u32, end: u32)
    ensures puts { Puts (λ k. (first ≤ k) × (k < end)) unreferenced.old unreferenced.new }
{
    for k in first..end.min(unreferenced.limit()) {
        unreferenced.insert(k);
    }
}
