//! Orphan headers, which are killed.
ghost use Rattle.std.specs.Prelude.{◌≡◌, ◌<◌, ◌≤◌, length, OnOk, OnErr};
ghost use Rattle.f11_index.specs.IndexFile.{slots};
ghost use Rattle.f11_index.specs.Kept.{index_kept, IndexLiesWithin};
ghost use Rattle.f11_vfy.specs.Reclaiming.Steps.{KillsHeader, FailsToKill, KillsOrphans, FailsToKillOrphans};
ghost use Rattle.f11_vfy.specs.Surveying.Bits.{limit_of};

use crate::findings::reading::Reading;
use crate::reclaimer::unreferenced::put_blocks;
use crate::survey::bits::Bits;
use crate::survey::extensions::Extensions;
use f11_bytes::Block;
use f11_dev::{Device, DeviceFault};
use f11_header::{check, kill};
use f11_index::IndexFile;

/// Kills each orphan header of a volume that was read, in the order of their numbers, and puts the blocks that it named into the set. An orphan is
/// an extension header of no file; its block, which was kept, is written with all else as it was read.
///
/// # Errors
///
/// `DeviceFault` where a transfer failed.
pub(crate) fn kill_orphans<D: Device>(
    device: &mut D,
    index: &IndexFile,
    reading: &Reading,
    extensions: &Extensions,
    unreferenced: &mut Bits,
) -> Result<(), DeviceFault>
    requires slots { length reading.now.survey.slots.items ≡ slots (index_kept index.now) }
    requires within { IndexLiesWithin (index_kept index.now) (length (D.disk device.old).image) }
    ensures limit { limit_of unreferenced.new ≡ limit_of unreferenced.old }
    ensures killed { OnOk result (KillsOrphans (index_kept index.now) reading.now extensions.now
        (slots (index_kept index.now)) unreferenced.old unreferenced.new
        (D.disk device.old) (D.disk device.new)) }
    ensures failed { OnErr result (FailsToKillOrphans (index_kept index.now) reading.now
        extensions.now (slots (index_kept index.now)) (D.disk device.old) (D.disk device.new)) }
{
    let mut next = 0;
    for k in 0..index.slots() {
        let n = (k + 1) as u16;
        if !reading.is_extension(n) {
            continue;
        }
        let block = extensions.block(next);
        next += 1;
        if reading.in_file(n) {
            continue;
        }
        kill_header(device, index, n, &block, unreferenced)?;
    }
    Ok(())
}

/// Kills header `n`, whose block was read, where it is valid, and puts the blocks that it named into the set.
///
/// # Errors
///
/// `DeviceFault` where a transfer failed.
fn kill_header<D: Device>(
    device: &mut D,
    index: &IndexFile,
    n: u16,
    header: &Block,
    unreferenced: &mut Bits,
) -> Result<(), DeviceFault>
    requires slot { (0 < n) × (n ≤ slots (index_kept index.now)) }
    requires within { IndexLiesWithin (index_kept index.now) (length (D.disk device.old).image) }
    ensures limit { limit_of unreferenced.new ≡ limit_of unreferenced.old }
    ensures killed { OnOk result (KillsHeader (index_kept index.now) n header.now
        unreferenced.old unreferenced.new (D.disk device.old) (D.disk device.new)) }
    ensures failed { OnErr result (FailsToKill (index_kept index.now) n header.now
        (D.disk device.old) (D.disk device.new)) }
{
    match check(header, n) {
        Ok(()) => {}
        Err(_) => return Ok(()),
    }
    put_blocks(unreferenced, header);
    let mut block = *header;
    kill(&mut block);
    device.write(index.lbn_of_header(n), &block)?;
    Ok(())
}
