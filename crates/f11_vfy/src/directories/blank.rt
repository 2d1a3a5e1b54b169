//! Blocks that hold no record of a directory.
ghost use Rattle.std.specs.Prelude.{◌≡◌, ◌<◌, ◌≤◌, ◌↔◌, true, IsTrue};
ghost use Rattle.f11_vfy.specs.Directory.Blank.{AddsBlank, HasAll, HoldsNoRecord};
ghost use Rattle.f11_vfy.specs.Surveying.Bits.{has, limit_of};

use crate::survey::bits::Bits;
use crate::survey::tally::mask;
use f11_bytes::Block;
use f11_dir::{RECORDS, record_at};

/// Whether a block holds no record: each of its 32 is empty.
fn holds_no_record(block: &Block) -> bool
    ensures { IsTrue result ↔ HoldsNoRecord block.now }
{
    for k in 0..RECORDS {
        if !record_at(block, k).is_empty() {
            return false;
        }
    }
    true
}

/// Whether block `lbn` is one of a set, which may have no room for it.
pub(crate) fn is_in(blank: &Bits, lbn: u32) -> bool
    ensures { IsTrue result ↔ ((lbn < limit_of blank.now) × (has blank.now lbn ≡ true)) }
{
    lbn < blank.limit() && blank.contains(lbn)
}

/// Whether the blocks from `first` on, before `end`, are all in a set: 64 of them are looked at in a step.
pub(crate) fn are_in(blank: &Bits, first: u32, end: u32) -> bool
    requires { first ≤ end }
    ensures { IsTrue result → HasAll blank.now first end }
{
    if end > blank.limit() {
        return false;
    }
    for i in first / 64..end.div_ceil(64) {
        let low = first.saturating_sub(64 * i);
        let high = (end - 64 * i).min(64);
        let all = mask(low, high);
        if blank.word(i) & all != all {
            return false;
        }
    }
    true
}

/// Puts block `lbn` into a set, where that has room for it and the block holds no record.
pub(crate) fn add_blank(blank: &mut Bits, lbn: u32, block: &Block)
    ensures { AddsBlank lbn block.now blank.old blank.new }
{
    if lbn >= blank.limit() {
        return;
    }
    if !holds_no_record(block) {
        return;
    }
    blank.insert(lbn);
}
