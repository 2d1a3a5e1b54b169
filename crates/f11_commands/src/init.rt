//! The command `init`.
ghost use Rattle.std.specs.Prelude.{◌≡◌, IfOk, IfErr, OnOk};
ghost use Rattle.f11_commands.specs.InitCommand.{done_line, refusal_line, PrintsInit, PrintsRefusal, FailsToPrintInit};
ghost use Rattle.f11_commands.specs.Output.{WriterTakes};

use crate::outcome::{Answer, Failure};
use crate::sync::synced;
use f11_dev::Device;
use f11_serving::f11_vfy::{InitError, InitParams, init};
use std::io::Write;

/// Makes a fresh volume on a device, as [`init`] does, syncs the device, and writes `ok`. The device comes back.
///
/// Where none can be made with these it writes `no BadParameter`, and answers [`Answer::Fault`]: then nothing was written to the
/// device.
///
/// # Errors
///
/// [`Failure::DeviceFault`] where a transfer failed, or the sync when the volume is made, and [`Failure::CannotWrite`] where the
/// writer takes no more: then it may hold a part of the line.
pub fn print_init<D: Device, W: Write>(
    device: D,
    writer: &mut W,
    params: &InitParams<'_>,
) -> (D, Result<Answer, Failure>)
    ensures done { result.1 ≡ Ok Answer.Done → PrintsInit params.now
        (D.disk device) (D.disk result.0) W.contents writer.old writer.new }
    ensures refused { result.1 ≡ Ok Answer.Fault → PrintsRefusal params.now
        (D.disk device) (D.disk result.0) W.contents writer.old writer.new }
    ensures failed { IfErr result.1 (λ failure. FailsToPrintInit failure params.now
        (D.disk device) (D.disk result.0) W.contents writer.old writer.new) }
{
    match init(device, params) {
        Ok(made) => match synced(made.device()) {
            Ok(device) => (device, write_done(writer)),
            Err(device) => (device, Err(Failure::DeviceFault)),
        },
        Err(InitError::BadParameter(device)) => (device, refuse_init(writer)),
        Err(InitError::DeviceFault(device)) => (device, Err(Failure::DeviceFault)),
    }
}

/// Writes that it is done.
pub(crate) fn write_done<W: Write>(writer: &mut W) -> Result<Answer, Failure>
    ensures done { OnOk result (WriterTakes W.contents writer.old writer.new done_line) }
    ensures answer { IfOk result (λ answer. answer ≡ Answer.Done) }
    ensures failed { IfErr result (λ failure. failure ≡ Failure.CannotWrite) }
{
    writeln!(writer, "ok")?;
    Ok(Answer::Done)
}

/// Writes that no volume can be made: `no BadParameter`.
///
/// # Errors
///
/// [`Failure::CannotWrite`] where the writer takes no more.
pub fn refuse_init<W: Write>(writer: &mut W) -> Result<Answer, Failure>
    ensures done { OnOk result (WriterTakes W.contents writer.old writer.new refusal_line) }
    ensures answer { IfOk result (λ answer. answer ≡ Answer.Fault) }
    ensures failed { IfErr result (λ failure. failure ≡ Failure.CannotWrite) }
{
    writeln!(writer, "no BadParameter")?;
    Ok(Answer::Fault)
}
