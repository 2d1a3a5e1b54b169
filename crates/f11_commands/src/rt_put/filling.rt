//! A file of an RT-11 volume that was made is filled, or deleted again.
ghost use Rattle.std.specs.Prelude.{◌≡◌, ◌*◌, false, IfErr, OnOk};
ghost use Rattle.f11_commands.specs.RtFilling.{FailsToFill, FillsNamed, UndoesStoring};
ghost use Rattle.f11_flx.specs.Target.{HasRtBlocks};
ghost use Rattle.f11_host.specs.Pieces.{blocks_for};
ghost use Rattle.rt11_volume.specs.Calls.{has_failed, volume_device};
ghost use Rattle.rt11_volume.specs.Store.{rt_store_of};
ghost use Rattle.rt11_volume.specs.Verifying.Verdict.{IsSoundDisk};

use crate::rt_file::{Stop, is_fault};
use f11_bytes::BLOCK_SIZE;
use f11_dev::Device;
use f11_host::read_piece;
use rt11_volume::{RtAccepted, RtName};
use std::io::Read;

/// Writes the bytes that `host` gives to the file of a name, whose blocks they fill, the last one filled up.
pub(crate) fn fill<D: Device, R: Read>(
    volume: &mut RtAccepted<D>,
    name: &RtName,
    blocks: u16,
    bytes: u64,
    host: &mut R,
) -> Result<(), Stop>
    requires count { blocks ≡ blocks_for bytes }
    requires fresh { has_failed volume.old ≡ false }
    requires file { IsSoundDisk (D.disk (volume_device volume.old))
        → HasRtBlocks name.now blocks (rt_store_of (D.disk (volume_device volume.old)).image) }
    ensures filled { OnOk result (FillsNamed D.disk name.now bytes blocks
        (R.remaining host.old) (R.remaining host.new) volume.old volume.new) }
    ensures failed { IfErr result (λ stop. FailsToFill D.disk name.now blocks stop
        volume.old volume.new) }
{
    let mut block = [0; BLOCK_SIZE];
    let mut left = bytes;
    for place in 0..blocks {
        let count = left.min(BLOCK_SIZE as u64);
        read_piece(host, count as usize, &mut block)?;
        match volume.write(name, place, &block) {
            Ok(()) => {}
            Err(refusal) => return Err(Stop::Volume(refusal)),
        }
        left -= count;
    }
    Ok(())
}

/// Deletes the file that was made: why it isn't there.
pub(crate) fn undo<D: Device>(volume: &mut RtAccepted<D>, name: &RtName) -> Stop
    ensures undoes { UndoesStoring D.disk name.now result volume.old volume.new }
{
    match volume.delete(name) {
        Ok(()) => Stop::Host,
        Err(refusal) => {
            if is_fault(&refusal) {
                Stop::Volume(refusal)
            } else {
                Stop::Host
            }
        }
    }
}
