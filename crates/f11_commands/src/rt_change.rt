//! How a command ends that changes a file of an RT-11 volume.
ghost use Rattle.f11_commands.specs.RtChange.{EndsBehind, TellsDone};
ghost use Rattle.rt11_volume.specs.Calls.{volume_device};

use crate::outcome::{Failure, FileAnswer};
use crate::sync::synced;
use crate::telling::tell;
use f11_dev::Device;
use f11_flx::FlxRefusal;
use rt11_volume::{RtAccepted, RtRefusal};
use std::io::Write;

/// Syncs the device of a volume whose file was changed, and writes the line `ok`, or else that of the refusal. The device comes back.
///
/// # Errors
///
/// [`Failure::DeviceFault`] where a transfer failed, or the sync when the file is changed, [`Failure::NoMemory`] where there was no memory,
/// and [`Failure::CannotWrite`] where the writer takes no more.
pub(crate) fn end_change<D: Device, W: Write>(
    volume: RtAccepted<D>,
    answer: Result<(), RtRefusal>,
    writer: &mut W,
) -> (D, Result<FileAnswer, Failure>)
    ensures ends { EndsBehind answer result.1 (D.disk (volume_device volume)) (D.disk result.0)
        W.contents writer.old writer.new }
{
    match answer {
        Ok(()) => match synced(volume.device()) {
            Ok(device) => (device, tell_done(writer)),
            Err(device) => (device, Err(Failure::DeviceFault)),
        },
        Err(refusal) => {
            let told = tell(Err(FlxRefusal::Rt(refusal)), writer);
            (volume.device(), told)
        }
    }
}

/// Writes that the file was changed.
fn tell_done<W: Write>(writer: &mut W) -> Result<FileAnswer, Failure>
    ensures tells { TellsDone result W.contents writer.old writer.new }
{
    writeln!(writer, "ok")?;
    Ok(FileAnswer::Done)
}
