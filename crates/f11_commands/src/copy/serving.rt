//! A copy between two accepted volumes.
ghost use Rattle.std.specs.Prelude.{◌≡◌, ◌*◌, false, IfErr, IfOk, IsTrue};
ghost use Rattle.f11_commands.specs.CopyCommand.{EndsBetween, FailsToSyncTarget, TellsKeptCopy};
ghost use Rattle.f11_commands.specs.Copying.{OutcomeIs};
ghost use Rattle.f11_commands.specs.Finding.{FaresAsAnswered, WithinDirectory};
ghost use Rattle.f11_commands.specs.Stopping.{StopsCopy, StopsWithin};
ghost use Rattle.f11_commands.specs.declared.copy.Direction.TheVariants as direction;
ghost use Rattle.f11_serving.specs.vfy.Accepted.{device_of};
ghost use Rattle.rt11_volume.specs.Calls.{has_failed, volume_device};
ghost use Rattle.rt11_volume.specs.Verifying.Verdict.{IsRtAccepted};

use crate::copy::{Copying, Direction};
use crate::finding::{
    MASTER_DIRECTORY, OPERATOR, directory_name, dismount, find, first_lun, first_task,
};
use crate::outcome::{Failure, FileAnswer};
use crate::sync::synced;
use crate::telling::tell;
use f11_dev::Device;
use f11_flx::{FlxRefusal, copy_from_rt, copy_to_rt};
use f11_serving::f11_fcp::Volume;
use f11_serving::f11_files::OpenFault;
use f11_serving::f11_vfy::Accepted;
use f11_store::FileId;
use rt11_volume::RtAccepted;
use std::alloc::Global;
use std::io::Write;

/// Mounts an accepted volume, copies a file between it and an RT-11 volume, dismounts it, and tells that, once it is kept.
pub fn serve<D: Device, E: Device, W: Write>(
    alloc: Global,
    accepted: Accepted<D>,
    rt: RtAccepted<E>,
    copy: &Copying,
    writer: &mut W,
) -> (D, E, Result<FileAnswer, Failure>)
    requires accepted { IsTrue (E.disk (volume_device rt)).honest
        → IsRtAccepted (E.disk (volume_device rt)).image }
    requires fresh { has_failed rt ≡ false }
    ensures ends { EndsBetween copy.now result.2 (D.disk (device_of accepted)) (D.disk result.0)
        (E.disk (volume_device rt)) (E.disk result.1) W.contents writer.old writer.new }
{
    let mut rt = rt;
    match Volume::mount(alloc, accepted) {
        Ok(mut volume) => {
            let copied = copy_by_names(&mut volume, &mut rt, copy);
            tell_kept(
                copied,
                copy.direction,
                dismount(volume),
                rt.device(),
                writer,
            )
        }
        Err(OpenFault::DeviceFault(files) | OpenFault::Damaged(files)) => {
            (files, rt.device(), Err(Failure::DeviceFault))
        }
        Err(OpenFault::NoMemory(accepted)) => {
            (accepted.device(), rt.device(), Err(Failure::NoMemory))
        }
    }
}

/// Tells what came of a copy, and where it was made syncs the device that was copied to before.
fn tell_kept<D: Device, E: Device, W: Write>(
    copied: Result<u32, FlxRefusal>,
    direction: Direction,
    files: D,
    rt: E,
    writer: &mut W,
) -> (D, E, Result<FileAnswer, Failure>)
    ensures tells { TellsKeptCopy direction copied result.2 (D.disk files) (D.disk result.0) (E.disk rt)
        (E.disk result.1) W.contents writer.old writer.new }
{
    match copied {
        Ok(blocks) => match synced_target(direction, files, rt) {
            Ok((files, rt)) => (files, rt, tell(Ok(blocks), writer)),
            Err((files, rt)) => (files, rt, Err(Failure::DeviceFault)),
        },
        Err(refusal) => (files, rt, tell(Err(refusal), writer)),
    }
}

/// Syncs the device that was copied to, and gives both back; as an error where that failed.
fn synced_target<D: Device, E: Device>(
    direction: Direction,
    files: D,
    rt: E,
) -> Result<(D, E), (D, E)>
    ensures synced { IfOk result (λ both. (D.disk both.0 ≡ D.disk files)
        × (E.disk both.1 ≡ E.disk rt)) }
    ensures failed { IfErr result (λ both. FailsToSyncTarget direction
        (D.disk files) (D.disk both.0) (E.disk rt) (E.disk both.1)) }
{
    match direction {
        Direction::ToRt => match synced(rt) {
            Ok(rt) => Ok((files, rt)),
            Err(rt) => Err((files, rt)),
        },
        Direction::FromRt => match synced(files) {
            Ok(files) => Ok((files, rt)),
            Err(files) => Err((files, rt)),
        },
    }
}

/// Finds the user's directory, and copies a file from or to it: how many blocks the copy has.
fn copy_by_names<D: Device, E: Device>(
    volume: &mut Volume<D>,
    rt: &mut RtAccepted<E>,
    copy: &Copying,
) -> Result<u32, FlxRefusal>
    ensures answers { FaresAsAnswered E.disk copy.now.direction copy.now.rt_name result
        (OutcomeIs copy.now result)
        (StopsCopy copy.now.direction copy.now.directory copy.now.name)
        volume.old volume.new rt.old rt.new }
{
    let directory = directory_name(copy.directory);
    let dir = find(volume, MASTER_DIRECTORY, &directory).map_err(FlxRefusal::Files)?;
    match copy.direction {
        Direction::ToRt => copy_out(volume, dir, rt, copy),
        Direction::FromRt => copy_in(volume, dir, rt, copy),
    }
}

/// Finds the file in a directory, and copies it to the RT-11 volume.
fn copy_out<D: Device, E: Device>(
    volume: &mut Volume<D>,
    dir: FileId,
    rt: &mut RtAccepted<E>,
    copy: &Copying,
) -> Result<u32, FlxRefusal>
    ensures answers { FaresAsAnswered E.disk direction.ToRt copy.now.rt_name result
        (WithinDirectory direction.ToRt copy.now dir result)
        (StopsWithin direction.ToRt dir copy.now.name) volume.old volume.new rt.old rt.new }
{
    let source = find(volume, dir, &copy.name).map_err(FlxRefusal::Files)?;
    let task = first_task();
    let lun = first_lun();
    copy_to_rt(
        volume,
        task,
        lun,
        OPERATOR,
        source,
        rt,
        &copy.rt_name,
        0,
        copy.mode,
    )
}

/// Copies the file of the RT-11 volume, and enters it into a directory.
fn copy_in<D: Device, E: Device>(
    volume: &mut Volume<D>,
    dir: FileId,
    rt: &mut RtAccepted<E>,
    copy: &Copying,
) -> Result<u32, FlxRefusal>
    ensures answers { FaresAsAnswered E.disk direction.FromRt copy.now.rt_name result
        (WithinDirectory direction.FromRt copy.now dir result)
        (StopsWithin direction.FromRt dir copy.now.name) volume.old volume.new rt.old rt.new }
{
    let task = first_task();
    let lun = first_lun();
    copy_from_rt(
        rt,
        &copy.rt_name,
        volume,
        task,
        lun,
        OPERATOR,
        dir,
        &copy.name,
        0,
        copy.mode,
    )
}
