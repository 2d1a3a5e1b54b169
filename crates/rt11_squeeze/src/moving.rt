//! One file is moved.
ghost use Rattle.std.specs.Prelude.{◌≡◌, false, IfErr, OnOk};
ghost use Rattle.f11_dev.specs.Went.{Went};
ghost use Rattle.rt11_volume.specs.Calls.{has_failed};
ghost use Rattle.rt11_volume.specs.Entry.{is_same_name};
ghost use Rattle.rt11_volume.specs.Files.{faults_in, is_device_fault};
ghost use Rattle.rt11_squeeze.specs.Kept.{volume_disk};
ghost use Rattle.rt11_squeeze.specs.Moving.{FailsToMove, Moves, SparesWhile, move_transfers};

use crate::blocks::read_blocks;
use crate::copying::make_copy;
use crate::replacing::{remove, take_name};
use f11_dev::Device;
use rt11_volume::{RtAccepted, RtName, RtRefusal};
use std::alloc::Global;

/// A file that is to be moved.
#[derive(Clone, Copy, Debug, PartialEq, Eq)]
pub struct FileToMove {
    /// Its name.
    pub name: RtName,
    /// The name that its copy has until the file is deleted.
    pub scratch: RtName,
    /// How many blocks it has.
    pub blocks: u16,
    /// Its date, which the copy gets.
    pub date: u16,
    /// Whether it is protected.
    pub protected: bool,
}

/// Moves a file to the front of the first empty area that is as long. A copy is made there, under the scratch name; then the file is
/// deleted, though it be protected, and the copy gets its name, and is protected where the file was. It takes memory for the file's
/// blocks.
///
/// At each moment, also where it is stopped or a transfer fails, the blocks of each file stand on the volume. Nothing is written where it is
/// refused, unless a transfer failed.
///
/// # Errors
///
/// `NoMemory` where there was no memory for the blocks, and those of [`RtAccepted::create`] for the scratch name. Where the volume has no such
/// file, or several, or another than is told, a call on it may be refused half way.
pub fn move_file<D: Device>(
    alloc: Global,
    volume: &mut RtAccepted<D>,
    file: &FileToMove,
) -> Result<(), RtRefusal>
    requires fresh { has_failed volume.old ≡ false }
    ensures went { Went (SparesWhile file.now.name file.now.blocks file.now.protected
        (volume_disk D.disk volume.old))
        (volume_disk D.disk volume.old) (volume_disk D.disk volume.new)
        (move_transfers file.now.blocks) (faults_in result) }
    ensures next { has_failed volume.new ≡ is_device_fault result }
    ensures moved { OnOk result (Moves file.now.name file.now.scratch file.now.blocks
        file.now.date file.now.protected
        (volume_disk D.disk volume.old) (volume_disk D.disk volume.new)) }
    ensures refused { IfErr result (λ e. FailsToMove file.now.name file.now.scratch
        file.now.blocks file.now.protected e
        (volume_disk D.disk volume.old) (volume_disk D.disk volume.new)) }
{
    let blocks = match read_blocks(alloc, volume, &file.name, file.blocks) {
        Ok(blocks) => blocks,
        Err(refusal) => return Err(refusal),
    };
    match make_copy(volume, &file.scratch, file.date, file.blocks, &blocks) {
        Ok(()) => {}
        Err(refusal) => return Err(refusal),
    }
    match remove(volume, &file.name, file.protected) {
        Ok(()) => take_name(volume, &file.scratch, &file.name, file.protected),
        Err(refusal) => Err(refusal),
    }
}
