//! Slots of no file, which leave use.
ghost use Rattle.std.specs.Prelude.{◌≡◌, length, OnOk, OnErr};
ghost use Rattle.f11_index.specs.IndexFile.{slots};
ghost use Rattle.f11_index.specs.Kept.{index_kept, IndexLiesWithin};
ghost use Rattle.f11_vfy.specs.Reclaiming.Steps.{ClearsIdle, FailsToClear};

use crate::findings::reading::Reading;
use f11_dev::{Device, DeviceFault};
use f11_index::IndexFile;

/// Takes each slot out of use whose header is one of no file, in the order of their numbers, by a write each.
///
/// # Errors
///
/// `DeviceFault` where a transfer failed.
pub(crate) fn clear_idle<D: Device>(
    device: &mut D,
    index: &mut IndexFile,
    reading: &Reading,
) -> Result<(), DeviceFault>
    requires slots { length reading.now.survey.slots.items ≡ slots (index_kept index.old) }
    requires within { IndexLiesWithin (index_kept index.old) (length (D.disk device.old).image) }
    ensures cleared { OnOk result (ClearsIdle (index_kept index.old) reading.now
        (slots (index_kept index.old)) (index_kept index.new)
        (D.disk device.old) (D.disk device.new)) }
    ensures failed { OnErr result (FailsToClear (index_kept index.old) reading.now
        (slots (index_kept index.old)) (D.disk device.old) (D.disk device.new)) }
{
    for k in 0..index.slots() {
        let n = (k + 1) as u16;
        if !index.in_use(n) || reading.in_file(n) {
            continue;
        }
        index.clear(device, n)?;
    }
    Ok(())
}
