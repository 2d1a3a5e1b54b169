//! A file is made on a volume.
ghost use Rattle.std.specs.Prelude.{◌≡◌, false, IfErr, OnOk, length};
ghost use Rattle.f11_dev.specs.Went.{Went};
ghost use Rattle.rt11_volume.specs.Calls.{has_failed};
ghost use Rattle.rt11_volume.specs.Files.{faults_in, is_device_fault};
ghost use Rattle.rt11_squeeze.specs.Copying.{FailsToCopy};
ghost use Rattle.rt11_squeeze.specs.Kept.{SparesFiles, volume_disk};
ghost use Rattle.rt11_copy.specs.Copying.{Makes, making_transfers};

use f11_bytes::Block;
use f11_dev::Device;
use rt11_squeeze::make_copy;
use rt11_volume::{RtAccepted, RtEntry, RtName, RtRefusal};

/// Makes a file of these blocks, with this date, and protected where the entry says so, in the front of the first empty area that is as
/// long.
pub(crate) fn make_file<D: Device>(
    volume: &mut RtAccepted<D>,
    name: &RtName,
    date: u16,
    entry: &RtEntry,
    blocks: &[Block],
) -> Result<(), RtRefusal>
    requires fresh { has_failed volume.old ≡ false }
    requires count { length blocks.now ≡ entry.now.blocks }
    ensures went { Went (SparesFiles (volume_disk D.disk volume.old))
        (volume_disk D.disk volume.old) (volume_disk D.disk volume.new)
        (making_transfers entry.now.blocks) (faults_in result) }
    ensures next { has_failed volume.new ≡ is_device_fault result }
    ensures made { OnOk result (Makes name.now date entry.now.protected blocks.now
        (volume_disk D.disk volume.old) (volume_disk D.disk volume.new)) }
    ensures refused { IfErr result (λ e. FailsToCopy name.now entry.now.blocks e
        (volume_disk D.disk volume.old) (volume_disk D.disk volume.new)) }
{
    match make_copy(volume, name, date, entry.blocks, blocks) {
        Ok(()) => {}
        Err(refusal) => return Err(refusal),
    }
    if entry.protected {
        volume.protect(name, true)
    } else {
        Ok(())
    }
}
