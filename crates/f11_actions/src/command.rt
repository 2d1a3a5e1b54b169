//! The commands that do something to files.
ghost use Rattle.f11_actions.specs.Command.{EndsAccepted, EndsActions, Kept, TellsAll, TellsCount};
ghost use Rattle.f11_vfy.specs.Accepted.{device_of};

use crate::acting::{Counts, act_all};
use crate::behind::Behind;
use crate::line::write_all_line;
use f11_commands::{Failure, FileAnswer, accept_files, dismount, synced};
use f11_dev::Device;
use f11_fcp::Volume;
use f11_files::OpenFault;
use f11_making::Action;
use f11_vfy::Accepted;
use std::alloc::Global;
use std::io::Write;

/// Verifies the Files-11 volume on a device, and does to its files what is to be done, one action after another; then the device is
/// synced, unless a transfer failed. The operator, [1,1], asks; the directories are those that file 4,4 has under their names.
///
/// It writes a line for each action but one that ends them, `NAME.TYP;V deleted`, `NAME.TYP;V renamed NEW.TYP;V`, `NAME.TYP;V protected`,
/// `NAME.TYP;V truncated` or `NAME.TYP;V made`, or, where it is refused, the same with `not` before the word and the refusal's name behind it;
/// and a last line, `all N done, K not done`. It answers [`FileAnswer::Refused`] where one was refused: the others are done behind it, or none is
/// ([`Behind`]), and those that aren't tried aren't counted. Where the volume has faults it writes the lines of `vfy`, and nothing is done. The
/// device comes back.
///
/// # Errors
///
/// [`Failure::DeviceFault`] where a transfer failed: before any action; or then the actions before one are done, with their lines, that one
/// may be in part, and none behind it is; or it is the sync, when all are. [`Failure::NoMemory`] where there was no memory: likewise.
/// [`Failure::CannotWrite`] where the writer takes no more: then so many of the first are done, and which lines it has isn't known.
pub fn print_actions<D: Device, W: Write>(
    alloc: Global,
    device: D,
    actions: &[Action],
    behind: Behind,
    writer: &mut W,
) -> (D, Result<FileAnswer, Failure>)
    ensures ends { EndsActions behind actions.now result.1 (D.disk device) (D.disk result.0)
        W.contents writer.old writer.new }
{
    match accept_files(alloc, device, writer) {
        Ok(accepted) => act_on_accepted(alloc, accepted, actions, behind, writer),
        Err((device, told)) => (device, told),
    }
}

/// Mounts an accepted volume, does the actions, dismounts it, and tells that, once it is kept.
fn act_on_accepted<D: Device, W: Write>(
    alloc: Global,
    accepted: Accepted<D>,
    actions: &[Action],
    behind: Behind,
    writer: &mut W,
) -> (D, Result<FileAnswer, Failure>)
    ensures ends { EndsAccepted behind actions.now result.1 (D.disk (device_of accepted)) (D.disk result.0)
        W.contents writer.old writer.new }
{
    match Volume::mount(alloc, accepted) {
        Ok(mut volume) => match act_all(&mut volume, actions, behind, writer) {
            Ok(counts) => tell_all(dismount(volume), counts, writer),
            Err(failure) => keep_broken(dismount(volume), failure),
        },
        Err(OpenFault::DeviceFault(device) | OpenFault::Damaged(device)) => {
            (device, Err(Failure::DeviceFault))
        }
        Err(OpenFault::NoMemory(accepted)) => (accepted.device(), Err(Failure::NoMemory)),
    }
}

/// Keeps what was written to the device where the actions broke off, unless a transfer failed.
fn keep_broken<D: Device>(device: D, failure: Failure) -> (D, Result<FileAnswer, Failure>)
    ensures kept { Kept failure result.1 (D.disk device) (D.disk result.0) }
{
    if failure == Failure::DeviceFault {
        return (device, Err(failure));
    }
    match synced(device) {
        Ok(device) => (device, Err(failure)),
        Err(device) => (device, Err(Failure::DeviceFault)),
    }
}

/// Writes the last line, once what was written to the device is kept.
fn tell_all<D: Device, W: Write>(
    device: D,
    counts: Counts,
    writer: &mut W,
) -> (D, Result<FileAnswer, Failure>)
    ensures tells { TellsAll counts.done counts.refused result.1 (D.disk device) (D.disk result.0)
        W.contents writer.old writer.new }
{
    match synced(device) {
        Ok(device) => (device, tell_count(counts.done, counts.refused, writer)),
        Err(device) => (device, Err(Failure::DeviceFault)),
    }
}

/// Writes the last line.
fn tell_count<W: Write>(done: usize, refused: usize, writer: &mut W) -> Result<FileAnswer, Failure>
    ensures tells { TellsCount done refused result W.contents writer.old writer.new }
{
    write_all_line(writer, done, refused)?;
    if refused == 0 {
        Ok(FileAnswer::Done)
    } else {
        Ok(FileAnswer::Refused)
    }
}
