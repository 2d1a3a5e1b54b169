//! A copy of a file.
ghost use Rattle.std.specs.Prelude.{◌≡◌, false, IfErr, OnOk, length};
ghost use Rattle.f11_dev.specs.Went.{Went};
ghost use Rattle.rt11_volume.specs.Calls.{has_failed};
ghost use Rattle.rt11_volume.specs.Files.{faults_in, is_device_fault};
ghost use Rattle.rt11_squeeze.specs.Copying.{Copies, FailsToCopy, copy_transfers};
ghost use Rattle.rt11_squeeze.specs.Kept.{SparesFiles, volume_disk};

use crate::blocks::write_blocks;
use f11_bytes::Block;
use f11_dev::Device;
use rt11_volume::{RtAccepted, RtName, RtRefusal};

/// Makes a file of these blocks, with this date, in the front of the first empty area that is as long. At each moment the blocks of each
/// file that there was stand on the volume.
///
/// # Errors
///
/// As those of [`RtAccepted::create`], before anything is written; and `DeviceFault` where a transfer failed.
pub fn make_copy<D: Device>(
    volume: &mut RtAccepted<D>,
    name: &RtName,
    date: u16,
    count: u16,
    blocks: &[Block],
) -> Result<(), RtRefusal>
    requires fresh { has_failed volume.old ≡ false }
    requires count { length blocks.now ≡ count }
    ensures went { Went (SparesFiles (volume_disk D.disk volume.old))
        (volume_disk D.disk volume.old) (volume_disk D.disk volume.new)
        (copy_transfers count) (faults_in result) }
    ensures next { has_failed volume.new ≡ is_device_fault result }
    ensures copied { OnOk result (Copies name.now date blocks.now
        (volume_disk D.disk volume.old) (volume_disk D.disk volume.new)) }
    ensures refused { IfErr result (λ e. FailsToCopy name.now count e
        (volume_disk D.disk volume.old) (volume_disk D.disk volume.new)) }
{
    // So that the proof knows that the words are those of a name.
    let _ = name.words();
    match volume.create(name, count, date) {
        Ok(()) => {}
        Err(refusal) => return Err(refusal),
    }
    write_blocks(volume, name, count, blocks)
}
