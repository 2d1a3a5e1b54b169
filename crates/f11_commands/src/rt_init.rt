//! The command `rt-init`.
ghost use Rattle.std.specs.Prelude.{◌≡◌, IfErr};
ghost use Rattle.f11_commands.specs.RtVolume.{PrintsMade, PrintsRefused, FailsToPrintMade};

use crate::init::{refuse_init, write_done};
use crate::outcome::{Answer, Failure};
use crate::sync::synced;
use f11_dev::Device;
use rt11_volume::{RtInitError, init};
use std::io::Write;

/// Makes a fresh RT-11 volume with so many segments on a device, syncs the device, and writes `ok`. The device comes back.
///
/// Where the number isn't 1 to 31, or no block is left behind the directory, it writes `no BadParameter`, and answers
/// [`Answer::Fault`]: then nothing was written to the device.
///
/// # Errors
///
/// [`Failure::DeviceFault`] where a transfer failed, or the sync when the volume is made, and [`Failure::CannotWrite`] where the
/// writer takes no more: then it may hold a part of the line.
pub fn print_rt_init<D: Device, W: Write>(
    device: D,
    segments: u16,
    writer: &mut W,
) -> (D, Result<Answer, Failure>)
    ensures done { result.1 ≡ Ok Answer.Done → PrintsMade segments
        (D.disk device) (D.disk result.0) W.contents writer.old writer.new }
    ensures refused { result.1 ≡ Ok Answer.Fault → PrintsRefused segments
        (D.disk device) (D.disk result.0) W.contents writer.old writer.new }
    ensures failed { IfErr result.1 (λ failure. FailsToPrintMade failure segments
        (D.disk device) (D.disk result.0) W.contents writer.old writer.new) }
{
    match init(device, segments) {
        Ok(volume) => match synced(volume.device()) {
            Ok(device) => (device, write_done(writer)),
            Err(device) => (device, Err(Failure::DeviceFault)),
        },
        Err(RtInitError::BadParameter(device)) => (device, refuse_init(writer)),
        Err(RtInitError::DeviceFault(device)) => (device, Err(Failure::DeviceFault)),
    }
}
