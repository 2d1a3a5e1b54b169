//! The command `rt-put`.

pub(crate) mod each;
pub(crate) mod filling;
pub(crate) mod puts;

ghost use Rattle.std.specs.Prelude.{◌≡◌, false};
ghost use Rattle.f11_commands.specs.RtPut.{EndsPut, PutsFile, TellsPut, is_fault_of, put_told};
ghost use Rattle.rt11_volume.specs.Calls.{has_failed, volume_device};

use crate::outcome::{Failure, FileAnswer};
use crate::rt_file::Stop;
use crate::rt_put::filling::{fill, undo};
use crate::sync::synced;
use crate::telling::tell;
use crate::verifying::accept_rt;
use f11_bytes::BLOCK_SIZE;
use f11_dev::Device;
use f11_flx::{FlxRefusal, make_file};
use rt11_volume::{RtAccepted, RtName};
use std::alloc::Global;
use std::io::{Read, Write};

/// Why no file was put on a volume.
#[derive(Clone, Copy, Debug, PartialEq, Eq)]
pub enum PutFailure {
    /// The command failed.
    Command(Failure),
    /// The host's file couldn't be read to its length: what was made for it was deleted again.
    Unread,
}

/// Verifies the RT-11 volume on a device, makes a file of the blocks that so many bytes take, with the date 0, and writes the bytes that
/// `host` gives into it, the last block filled up with zeros. Then the device is synced. It writes the line `copied N`, N being how many
/// blocks the file has; where none is made `no DuplicateName`, `no NoSpace`, also where no file has so many blocks, or `no DirectoryFull`; and where the volume has
/// faults the lines of `rt-vfy`. The device comes back.
///
/// Where `host` gives fewer bytes, or fails, the file is deleted again. Where a transfer fails nothing is undone.
///
/// # Errors
///
/// [`PutFailure::Unread`] where `host` couldn't be read to that length; else of [`PutFailure::Command`] [`Failure::DeviceFault`] where a
/// transfer failed, or the sync when the file is whole, [`Failure::NoMemory`] where there was no memory, and [`Failure::CannotWrite`] where the writer takes no more: then the
/// file may be made.
pub fn print_rt_put<D: Device, R: Read, W: Write>(
    alloc: Global,
    device: D,
    name: &RtName,
    host: &mut R,
    bytes: u64,
    writer: &mut W,
) -> (D, Result<FileAnswer, PutFailure>)
    ensures ends { EndsPut name.now bytes result.1 (R.remaining host.old) (R.remaining host.new)
        (D.disk device) (D.disk result.0) W.contents writer.old writer.new }
{
    let mut volume = match accept_rt(alloc, device, writer) {
        Ok(volume) => volume,
        Err((device, told)) => return (device, as_put(told)),
    };
    match put(&mut volume, name, bytes, host) {
        Ok(blocks) => match synced(volume.device()) {
            Ok(device) => (device, tell_put(Ok(blocks), writer)),
            Err(device) => (device, Err(PutFailure::Command(Failure::DeviceFault))),
        },
        Err(stop) => {
            let told = tell_put(Err(stop), writer);
            (volume.device(), told)
        }
    }
}

/// An answer of a command.
pub(crate) fn as_put(told: Result<FileAnswer, Failure>) -> Result<FileAnswer, PutFailure>
    ensures { result ≡ put_told told }
{
    told.map_err(PutFailure::Command)
}

/// Writes the line of what came of it, if it has one.
fn tell_put<W: Write>(put: Result<u16, Stop>, writer: &mut W) -> Result<FileAnswer, PutFailure>
    ensures tells { TellsPut put result W.contents writer.old writer.new }
{
    match put {
        Ok(blocks) => as_put(tell(Ok(u32::from(blocks)), writer)),
        Err(Stop::Volume(refusal)) => as_put(tell(Err(FlxRefusal::Rt(refusal)), writer)),
        Err(Stop::Host) => Err(PutFailure::Unread),
    }
}

/// Makes the file and fills it: how many blocks it has.
pub(crate) fn put<D: Device, R: Read>(
    volume: &mut RtAccepted<D>,
    name: &RtName,
    bytes: u64,
    host: &mut R,
) -> Result<u16, Stop>
    requires fresh { has_failed volume.old ≡ false }
    ensures puts { PutsFile name.now bytes result (R.remaining host.old) (R.remaining host.new)
        (D.disk (volume_device volume.old)) (D.disk (volume_device volume.new)) }
    ensures next { has_failed volume.new ≡ is_fault_of result }
{
    let blocks = match make_file(volume, name, bytes.div_ceil(BLOCK_SIZE as u64), 0) {
        Ok(blocks) => blocks,
        Err(refusal) => return Err(Stop::Volume(refusal)),
    };
    match fill(volume, name, blocks, bytes, host) {
        Ok(()) => Ok(blocks),
        Err(Stop::Volume(refusal)) => Err(Stop::Volume(refusal)),
        Err(Stop::Host) => Err(undo(volume, name)),
    }
}
