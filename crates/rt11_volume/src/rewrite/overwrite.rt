//! Words of an entry are written where they stand.
ghost use Rattle.std.specs.Prelude.{◌+◌, ◌<◌, ◌≤◌, length, min, OnErr, OnOk};
ghost use Rattle.f11_dev.specs.Went.{Went};
ghost use Rattle.rt11_volume.specs.Rewriting.Overwriting.{IsOverwriting, IsOverwritten};
ghost use Rattle.rt11_volume.specs.Searching.Looking.{found_segment, IsOnDevice};

use crate::lookup::entry::Found;
use f11_dev::{Device, DeviceFault};

/// How many words a block has.
const BLOCK_WORDS: usize = 256;

/// Puts some of the first four words, the status and the name, into the entry that was found, from word `from` of it on. Of its segment the block is
/// written in which they stand, or both, in ascending order.
pub(crate) fn overwrite<D: Device>(
    device: &mut D,
    found: &Found,
    from: usize,
    words: &[u16],
) -> Result<(), DeviceFault>
    requires inside { found.now.i < length (found_segment found.now).entries }
    requires on_device { IsOnDevice found.now.number (length (D.disk device.old).image) }
    requires some { 0 < length words.now }
    requires few { from + length words.now ≤ 4 }
    ensures written { OnOk result (IsOverwritten found.now from words.now
        (D.disk device.old).image (D.disk device.new).image) }
    ensures went { OnOk result (Went (IsOverwriting found.now from words.now
        (D.disk device.old).image) (D.disk device.old) (D.disk device.new)
        (min 2 (length words.now)) 0) }
    ensures failed { OnErr result (Went (IsOverwriting found.now from words.now
        (D.disk device.old).image) (D.disk device.old) (D.disk device.new)
        (min 2 (length words.now)) 1) }
{
    let mut segment = found.segment.copy();
    let first = found.segment.entry_place(found.i) + from;
    segment.set_words(first, words);
    segment.write_block_of(device, found.number, first)?;
    let last = first + words.len() - 1;
    if first / BLOCK_WORDS == last / BLOCK_WORDS {
        return Ok(());
    }
    segment.write_block_of(device, found.number, last)?;
    Ok(())
}
