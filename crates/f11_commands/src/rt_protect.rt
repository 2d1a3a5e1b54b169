//! The command `rt-prot`.
ghost use Rattle.f11_commands.specs.RtProtect.{EndsProtecting};

use crate::outcome::{Failure, FileAnswer};
use crate::rt_change::end_change;
use crate::verifying::accept_rt;
use f11_dev::Device;
use rt11_volume::RtName;
use std::alloc::Global;
use std::io::Write;

/// Verifies the RT-11 volume on a device, protects the file of a name, or has it protected no more, syncs the device, and writes the line
/// `ok`, or `no NoSuchFile`; where the volume has faults the lines of `rt-vfy`, and nothing is done. The device comes back.
///
/// # Errors
///
/// [`Failure::DeviceFault`] where a transfer failed, or the sync behind it, [`Failure::NoMemory`] where there was no memory, and
/// [`Failure::CannotWrite`] where the writer takes no more: then it may be done.
pub fn print_rt_protect<D: Device, W: Write>(
    alloc: Global,
    device: D,
    name: &RtName,
    on: bool,
    writer: &mut W,
) -> (D, Result<FileAnswer, Failure>)
    ensures ends { EndsProtecting on name.now result.1 (D.disk device) (D.disk result.0)
        W.contents writer.old writer.new }
{
    let mut volume = match accept_rt(alloc, device, writer) {
        Ok(volume) => volume,
        Err((device, told)) => return (device, told),
    };
    let answer = volume.protect(name, on);
    end_change(volume, answer, writer)
}
