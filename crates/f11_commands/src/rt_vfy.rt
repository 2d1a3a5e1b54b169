//! The command `rt-vfy`.
ghost use Rattle.std.specs.Prelude.{◌≡◌, IfErr};
ghost use Rattle.f11_commands.specs.RtVolume.{PrintsAccepted, PrintsFaulty, FailsToPrintRt};
ghost use Rattle.rt11_volume.specs.Calls.{most_transfers};

use crate::outcome::{Answer, Failure};
use crate::report::{System, write_accepted, write_faulty};
use f11_dev::Device;
use rt11_volume::{RtReport, RtVfyError, verify};
use std::alloc::Global;
use std::io::Write;

/// Verifies the RT-11 volume on a device and writes a line for each fault and each note, in their order, and then `accepted` or
/// `faulty`, with which it answers [`Answer::Fault`]. The device comes back; nothing is written to it.
///
/// # Errors
///
/// [`Failure::DeviceFault`] where a transfer failed, [`Failure::NoMemory`] where there was no memory, and
/// [`Failure::CannotWrite`] where the writer takes no more: then it may hold a part of the lines.
pub fn print_rt_vfy<D: Device, W: Write>(
    alloc: Global,
    device: D,
    writer: &mut W,
) -> (D, Result<Answer, Failure>)
    ensures accepted { result.1 ≡ Ok Answer.Done → PrintsAccepted
        (D.disk device) (D.disk result.0) W.contents writer.old writer.new }
    ensures faulty { result.1 ≡ Ok Answer.Fault → PrintsFaulty
        (D.disk device) (D.disk result.0) W.contents writer.old writer.new }
    ensures failed { IfErr result.1 (λ failure. FailsToPrintRt most_transfers failure
        (D.disk device) (D.disk result.0) W.contents writer.old writer.new) }
{
    match verify(alloc, device) {
        Ok(RtReport::Accepted(volume, notes)) => {
            (
                volume.device(),
                write_accepted(alloc, writer, System::Rt11, &notes),
            )
        }
        Ok(RtReport::Faulty(device, faults, notes)) => {
            (device, write_faulty(writer, System::Rt11, &faults, &notes))
        }
        Err(RtVfyError::DeviceFault(device)) => (device, Err(Failure::DeviceFault)),
        Err(RtVfyError::NoMemory(device)) => (device, Err(Failure::NoMemory)),
    }
}
