//! The command `run`.
ghost use Rattle.std.specs.Prelude.{◌≡◌};
ghost use Rattle.f11_commands.specs.RunCommand.{EndsRun, EndsServing, EndsSyncing};
ghost use Rattle.f11_serving.specs.fcp.Serving.{device_in, is_spent};
ghost use Rattle.f11_serving.specs.vfy.Accepted.{device_of};

use crate::outcome::{Answer, Failure};
use crate::report::{System, write_faulty};
use crate::sync::synced;
use f11_dev::Device;
use f11_script::ScriptError;
use f11_serving::f11_fcp::{Failed, Volume};
use f11_serving::f11_files::OpenFault;
use f11_serving::f11_vfy::{Accepted, Verdict, VfyError, judge};
use f11_serving::run_script;
use std::alloc::Global;
use std::io::{Read, Write};

/// Why a script wasn't served to its end.
#[derive(Clone, Copy, Debug, PartialEq, Eq)]
pub enum RunFailure {
    /// The volume couldn't be verified, mounted or served, or the lines of its faults not be written.
    Command(Failure),
    /// The script couldn't be read, or its answers not be written.
    Script(ScriptError),
}

impl From<Failure> for RunFailure {
    ghost use Rattle.f11_commands.specs.declared.run.RunFailure.TheVariants.{Command};

    ghost from_gives = { λ failure run. run ≡ Command failure };

    fn from(failure: Failure) -> Self {
        RunFailure::Command(failure)
    }
}

/// Verifies the image of a device, and serves the requests of a script on it: a line for each request and each bad line, as
/// [`run_script`] writes them. At the end, whatever it was, the device is synced. Where the image has a fault nothing is served: its report is written, as `vfy` has it, and the
/// answer is [`Answer::Fault`]. The device comes back.
///
/// # Errors
///
/// [`Failure::DeviceFault`] where a transfer failed, before the script was served or in a request, behind which each is
/// answered `VolumeFailed`, or where the sync did; also where a device that isn't honest gave what no accepted volume has. [`Failure::NoMemory`] where
/// there was no memory for the volume, and [`Failure::CannotWrite`] where the writer takes no more of a report. Any
/// [`ScriptError`] where the script couldn't be served further and no transfer failed.
pub fn print_run<D: Device, R: Read + Drop, W: Write>(
    alloc: Global,
    device: D,
    script: R,
    writer: &mut W,
) -> (D, Result<Answer, RunFailure>)
    ensures runs { EndsRun result.1 (R.remaining script)
        (D.disk device) (D.disk result.0) W.contents writer.old writer.new }
{
    match judge(alloc, device) {
        Ok(Verdict::Accepted(accepted)) => serve(alloc, accepted, script, writer),
        Ok(Verdict::Faulty(device, faults, notes)) => {
            match write_faulty(writer, System::Files11, &faults, &notes) {
                Ok(answer) => (device, Ok(answer)),
                Err(failure) => (device, Err(failure.into())),
            }
        }
        Err(VfyError::DeviceFault(device)) => (device, Err(Failure::DeviceFault.into())),
        Err(VfyError::NoMemory(device)) => (device, Err(Failure::NoMemory.into())),
    }
}

/// Mounts an accepted volume, serves a script and dismounts it.
fn serve<D: Device, R: Read + Drop, W: Write>(
    alloc: Global,
    accepted: Accepted<D>,
    script: R,
    writer: &mut W,
) -> (D, Result<Answer, RunFailure>)
    ensures serves { EndsServing result.1 (R.remaining script)
        (D.disk (device_of accepted)) (D.disk result.0) W.contents writer.old writer.new }
{
    match Volume::mount(alloc, accepted) {
        Ok(mut volume) => {
            let served = run_script(script, writer, &mut volume);
            dismount(volume, served)
        }
        Err(OpenFault::DeviceFault(device) | OpenFault::Damaged(device)) => {
            (device, Err(Failure::DeviceFault.into()))
        }
        Err(OpenFault::NoMemory(accepted)) => { (accepted.device(), Err(Failure::NoMemory.into())) }
    }
}

/// Gives a volume up whose script was served, syncs its device, and tells how that ended. A device that failed is told before a script
/// that did.
fn dismount<D: Device>(
    volume: Volume<D>,
    served: Result<u32, ScriptError>,
) -> (D, Result<Answer, RunFailure>)
    ensures ends { EndsSyncing (is_spent volume) served result.1
        (D.disk (device_in volume)) (D.disk result.0) }
{
    match volume.dismount() {
        Ok(accepted) => match synced(accepted.device()) {
            Ok(device) => (
                device,
                served.map(|_| Answer::Done).map_err(RunFailure::Script),
            ),
            Err(device) => (device, Err(Failure::DeviceFault.into())),
        },
        Err(Failed(device)) => match synced(device) {
            Ok(device) => (device, Err(Failure::DeviceFault.into())),
            Err(device) => (device, Err(Failure::DeviceFault.into())),
        },
    }
}
