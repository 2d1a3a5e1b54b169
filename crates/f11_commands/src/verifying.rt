//! Volumes that a command verifies before it serves them.
ghost use Rattle.std.specs.Prelude.{◌≡◌, ◌*◌, false, IfOk, IfErr, OnOk};
ghost use Rattle.f11_commands.specs.CopyCommand.{EndsFiles, EndsRt, VerifiesFiles, VerifiesRt};
ghost use Rattle.f11_commands.specs.Lines.{report_lines};
ghost use Rattle.f11_commands.specs.Output.{WriterTakes};
ghost use Rattle.f11_commands.specs.declared.outcome.FileAnswer.TheVariants as answers;
ghost use Rattle.f11_serving.specs.vfy.Accepted.{device_of};
ghost use Rattle.rt11_volume.specs.Calls.{has_failed, volume_device};

use crate::outcome::{Failure, FileAnswer};
use crate::report::{System, write_faulty};
use f11_dev::Device;
use f11_findings::Findings;
use f11_serving::f11_vfy::{Accepted, Verdict, VfyError, judge};
use rt11_volume::{RtAccepted, RtReport, RtVfyError};
use std::alloc::Global;
use std::io::Write;

/// The device of a volume that isn't accepted, and how the command ends.
pub type Ended<D> = (D, Result<FileAnswer, Failure>);

/// The accepted volume of a device. Where it has faults its report is written.
pub fn accept_files<D: Device, W: Write>(
    alloc: Global,
    device: D,
    writer: &mut W,
) -> Result<Accepted<D>, Ended<D>>
    ensures accepted { IfOk result (λ a.
        VerifiesFiles (D.disk device) (D.disk (device_of a)) × (writer.new ≡ writer.old)) }
    ensures ended { IfErr result (λ end.
        EndsFiles end.1 (D.disk device) (D.disk end.0) W.contents writer.old writer.new) }
{
    match judge(alloc, device) {
        Ok(Verdict::Accepted(accepted)) => Ok(accepted),
        Ok(Verdict::Faulty(device, faults, notes)) => {
            let told = write_report(writer, System::Files11, &faults, &notes);
            Err((device, told))
        }
        Err(VfyError::DeviceFault(device)) => Err((device, Err(Failure::DeviceFault))),
        Err(VfyError::NoMemory(device)) => Err((device, Err(Failure::NoMemory))),
    }
}

/// The accepted RT-11 volume of a device. Where it has faults its report is written.
pub fn accept_rt<E: Device, W: Write>(
    alloc: Global,
    device: E,
    writer: &mut W,
) -> Result<RtAccepted<E>, Ended<E>>
    ensures accepted { IfOk result (λ v.
        VerifiesRt (E.disk device) (E.disk (volume_device v)) × (writer.new ≡ writer.old)) }
    ensures fresh { IfOk result (λ v. has_failed v ≡ false) }
    ensures ended { IfErr result (λ end.
        EndsRt end.1 (E.disk device) (E.disk end.0) W.contents writer.old writer.new) }
{
    match rt11_volume::verify(alloc, device) {
        Ok(RtReport::Accepted(volume, _notes)) => Ok(volume),
        Ok(RtReport::Faulty(device, faults, notes)) => {
            let told = write_report(writer, System::Rt11, &faults, &notes);
            Err((device, told))
        }
        Err(RtVfyError::DeviceFault(device)) => Err((device, Err(Failure::DeviceFault))),
        Err(RtVfyError::NoMemory(device)) => Err((device, Err(Failure::NoMemory))),
    }
}

/// Writes the report of a volume with faults.
pub(crate) fn write_report<W: Write>(
    writer: &mut W,
    system: System,
    faults: &Findings,
    notes: &Findings,
) -> Result<FileAnswer, Failure>
    ensures lines { OnOk result (WriterTakes W.contents writer.old writer.new
        (report_lines system false faults.now notes.now)) }
    ensures answer { IfOk result (λ answer. answer ≡ answers.Faulty system) }
    ensures failed { IfErr result (λ failure. failure ≡ Failure.CannotWrite) }
{
    write_faulty(writer, system, faults, notes)?;
    Ok(FileAnswer::Faulty(system))
}
