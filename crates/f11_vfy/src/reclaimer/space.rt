//! Blocks that no header names, which become free.
ghost use Rattle.std.specs.Prelude.{◌≡◌, ◌↔◌, ℕ, ◌+◌, ◌*◌, ◌<◌, ◌≤◌, length, IsTrue, OnOk, OnErr};
ghost use Rattle.f11_bits.specs.Bitmap.{LiesWithin};
ghost use Rattle.f11_bytes.specs.Bits.{bit};
ghost use Rattle.f11_vfy.specs.Reclaiming.Steps.{FreesUnnamed, FailsToFree, IsToChange, may_be_free};
ghost use Rattle.f11_vfy.specs.Scanning.Reading.{bitmap_at};
ghost use Rattle.f11_vfy.specs.Surveying.Bits.{limit_of};

use crate::findings::reading::Reading;
use crate::survey::bits::Bits;
use f11_bytes::{BLOCK_BITS, Block, set_bit};
use f11_dev::{Device, DeviceFault};

/// Makes each block of a volume of `size` blocks, which was read, free that no header named or that is in the set, and each other one used. A block
/// of the storage bitmap is written only where a block whose bit is in it is free otherwise; `last` is the last one that has such a bit, which may
/// have bits past the size: they stay.
///
/// # Errors
///
/// `DeviceFault` where a transfer failed.
pub(crate) fn free_unnamed<D: Device>(
    device: &mut D,
    places: &[u32],
    size: u32,
    reading: &Reading,
    unreferenced: &Bits,
    last: &Block,
) -> Result<(), DeviceFault>
    requires few { length places.now ≤ 126 }
    requires covered { size ≤ 4096 * length places.now }
    requires read { size ≤ limit_of reading.now.free }
    requires unreferenced { size ≤ limit_of unreferenced.now }
    requires within { LiesWithin (bitmap_at places.now size) (length (D.disk device.old).image) }
    ensures freed { OnOk result (FreesUnnamed (bitmap_at places.now size) reading.now.free
        reading.now.survey.tally.once unreferenced.now last.now (length places.now)
        (D.disk device.old) (D.disk device.new)) }
    ensures failed { OnErr result (FailsToFree (bitmap_at places.now size) reading.now.free
        reading.now.survey.tally.once unreferenced.now last.now
        (D.disk device.old) (D.disk device.new)) }
{
    let free = &reading.free;
    let named = &reading.survey.tally.once;
    for i in 0..places.len() as u32 {
        if !is_to_change(free, named, unreferenced, size, i) {
            continue;
        }
        let block = wanted_bits(named, unreferenced, last, size, i);
        device.write(places[i as usize], &block)?;
    }
    Ok(())
}

/// Whether a block whose bit is in bitmap block `i`, from 0, of a volume of `size` blocks, is in the first set and not wanted free, or wanted free and
/// not in the set.
fn is_to_change(free: &Bits, named: &Bits, unreferenced: &Bits, size: u32, i: u32) -> bool
    requires few { i ≤ 126 }
    requires free { size ≤ limit_of free.now }
    requires named { size ≤ limit_of named.now }
    requires unreferenced { size ≤ limit_of unreferenced.now }
    ensures { IsTrue result ↔ IsToChange size free.now named.now unreferenced.now i }
{
    for lbn in BLOCK_BITS * i..size.min(BLOCK_BITS * i + BLOCK_BITS) {
        if free.contains(lbn) != is_wanted(named, unreferenced, lbn) {
            return true;
        }
    }
    false
}

/// Bitmap block `i`, from 0, of a volume of `size` blocks, as it is to be: the bit of a block of the volume is 1 where that isn't in the first set, or
/// is in the second, and the bits past the size are those of `last`.
fn wanted_bits(named: &Bits, unreferenced: &Bits, last: &Block, size: u32, i: u32) -> Block
    requires few { i ≤ 126 }
    requires named { size ≤ limit_of named.now }
    requires unreferenced { size ≤ limit_of unreferenced.now }
    ensures wanted { (k : ℕ) → k < 4096 → 4096 * i + k < size
        → bit result k ≡ may_be_free named.now unreferenced.now (4096 * i + k) }
    ensures past { (k : ℕ) → size ≤ 4096 * i + k → bit result k ≡ bit last.now k }
{
    let mut block = *last;
    for lbn in BLOCK_BITS * i..size.min(BLOCK_BITS * i + BLOCK_BITS) {
        set_bit(
            &mut block,
            lbn - BLOCK_BITS * i,
            is_wanted(named, unreferenced, lbn),
        );
    }
    block
}

/// Whether block `lbn` isn't in the first set, or is in the second.
fn is_wanted(named: &Bits, unreferenced: &Bits, lbn: u32) -> bool
    requires named { lbn < limit_of named.now }
    requires unreferenced { lbn < limit_of unreferenced.now }
    ensures { result ≡ may_be_free named.now unreferenced.now lbn }
{
    !named.contains(lbn) || unreferenced.contains(lbn)
}
