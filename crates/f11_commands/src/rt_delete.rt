//! The command `rt-del`.
ghost use Rattle.f11_commands.specs.RtDelete.{EndsDeletion};

use crate::outcome::{Failure, FileAnswer};
use crate::rt_change::end_change;
use crate::verifying::accept_rt;
use f11_dev::Device;
use rt11_volume::RtName;
use std::alloc::Global;
use std::io::Write;

/// Verifies the RT-11 volume on a device, deletes the file of a name, syncs the device, and writes the line `ok`, or `no NoSuchFile` or
/// `no Protected`; where the volume has faults the lines of `rt-vfy`, and nothing is deleted. The device comes back.
///
/// # Errors
///
/// [`Failure::DeviceFault`] where a transfer failed, or the sync when the file is deleted, [`Failure::NoMemory`] where there was no memory, and
/// [`Failure::CannotWrite`] where the writer takes no more: then the file may be deleted.
pub fn print_rt_delete<D: Device, W: Write>(
    alloc: Global,
    device: D,
    name: &RtName,
    writer: &mut W,
) -> (D, Result<FileAnswer, Failure>)
    ensures ends { EndsDeletion name.now result.1 (D.disk device) (D.disk result.0)
        W.contents writer.old writer.new }
{
    let mut volume = match accept_rt(alloc, device, writer) {
        Ok(volume) => volume,
        Err((device, told)) => return (device, told),
    };
    let answer = volume.delete(name);
    end_change(volume, answer, writer)
}
