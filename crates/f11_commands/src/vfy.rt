//! The command `vfy`.
ghost use Rattle.std.specs.Prelude.{◌≡◌, true, false, IfErr};
ghost use Rattle.f11_commands.specs.VfyCommand.{PrintsReport, FailsToPrintReport};

use crate::outcome::{Answer, Failure};
use crate::report::{System, write_accepted, write_faulty};
use f11_dev::Device;
use f11_serving::f11_vfy::{Report, VfyError, verify};
use std::alloc::Global;
use std::io::Write;

/// Verifies the image of a device, as [`verify`] does, and writes a line for each fault, one for each note, and `accepted` or
/// `faulty`. The device comes back; nothing is written to it.
///
/// It answers [`Answer::Fault`] where there is a fault.
///
/// # Errors
///
/// [`Failure::DeviceFault`] where a transfer failed, [`Failure::NoMemory`] where there was no memory, or there are more lines than are kept
/// (4,194,304), and [`Failure::CannotWrite`] where the writer takes no more: then it may hold a part of the lines.
pub fn print_vfy<D: Device, W: Write>(
    alloc: Global,
    device: D,
    writer: &mut W,
) -> (D, Result<Answer, Failure>)
    ensures done { result.1 ≡ Ok Answer.Done → PrintsReport true
        (D.disk device) (D.disk result.0) W.contents writer.old writer.new }
    ensures fault { result.1 ≡ Ok Answer.Fault → PrintsReport false
        (D.disk device) (D.disk result.0) W.contents writer.old writer.new }
    ensures failed { IfErr result.1 (λ failure. FailsToPrintReport failure
        (D.disk device) (D.disk result.0) W.contents writer.old writer.new) }
{
    match verify(alloc, device) {
        Ok(Report::Accepted(accepted, notes)) => {
            (
                accepted.device(),
                write_accepted(alloc, writer, System::Files11, &notes),
            )
        }
        Ok(Report::Faulty(device, faults, notes)) => {
            (
                device,
                write_faulty(writer, System::Files11, &faults, &notes),
            )
        }
        Err(VfyError::DeviceFault(device)) => (device, Err(Failure::DeviceFault)),
        Err(VfyError::NoMemory(device)) => (device, Err(Failure::NoMemory)),
    }
}
