//! The command that does something to each file whose name a pattern chooses.
ghost use Rattle.std.specs.Prelude.{◌↔◌, IfErr, IfOk, IsTrue};
ghost use Rattle.f11_actions.specs.Chosen.{ChoosesActions, EndsChosen, EndsNone, HasNoActions, IsInVain};
ghost use Rattle.f11_actions.specs.Undone.{TellsWhy};
ghost use Rattle.f11_commands.specs.CopyCommand.{refused_line};
ghost use Rattle.f11_commands.specs.DirectoryNames.{FailsToFindNames};
ghost use Rattle.f11_flx.specs.declared.refusal.FlxRefusal.TheVariants.{Files};
ghost use Rattle.f11_patterns.specs.Lent.{parts_of};

use crate::behind::Behind;
use crate::change::Change;
use crate::command::print_actions;
use crate::meant::choose_names;
use f11_bytes::NoMemory;
use f11_commands::{Failure, FileAnswer, NoNames, accept_files};
use f11_dev::Device;
use f11_making::Action;
use f11_patterns::{Choice, Pattern};
use f11_rad50::Name;
use f11_store::Refusal;
use std::alloc::Global;
use std::io::Write;

/// Does something to each file of a directory whose name a pattern means, or a purge deletes: which these are is decided by the names that the
/// directory has before the first is done, and each is done once. The directory is the one that the master file directory has under its name.
/// Then it goes on as [`print_actions`] does.
///
/// Where the pattern means no name, or none that it can be done to, or no name fits that of a purge, but `*.*`, it writes `no NoSuchEntry`, and
/// where the directory can't be read `no NoSuchEntry`, `no NoSuchFile` or `no NotDirectory`, and answers [`FileAnswer::Refused`], with nothing
/// done; a purge that finds no lower version has nothing to do, and writes the last line. Where the volume has faults it writes the lines of
/// `vfy`, whatever the pattern means, and nothing is done.
///
/// # Errors
///
/// As of [`print_actions`]; [`Failure::DeviceFault`] and [`Failure::NoMemory`] also where the names can't be read, with nothing done.
pub fn print_chosen<D: Device, W: Write>(
    alloc: Global,
    mut device: D,
    directory: Name,
    pattern: &Pattern,
    change: Change,
    behind: Behind,
    writer: &mut W,
) -> (D, Result<FileAnswer, Failure>)
    ensures ends { EndsChosen (parts_of pattern.now) change directory behind result.1
        (D.disk device) (D.disk result.0) W.contents writer.old writer.new }
{
    match chosen_actions(alloc, &mut device, directory, pattern, change) {
        Ok(Ok(actions)) => print_actions(alloc, device, &actions, behind, writer),
        Ok(Err(NoNames::Refused(refusal))) => leave_all(alloc, device, refusal, writer),
        Ok(Err(NoNames::Unreadable)) => print_actions(alloc, device, &[], behind, writer),
        Err(failure) => (device, Err(failure)),
    }
}

/// The actions that do something to each file of a directory whose name is chosen by a pattern.
///
/// # Errors
///
/// [`Failure::DeviceFault`] where a transfer failed, and [`Failure::NoMemory`] where there was no memory. Within: why there is nothing to do, as
/// the directory has no names, or nothing can be done, by `NoSuchEntry`.
pub(crate) fn chosen_actions<D: Device>(
    alloc: Global,
    device: &mut D,
    directory: Name,
    pattern: &Pattern,
    change: Change,
) -> Result<Result<Vec<Action>, NoNames>, Failure>
    ensures chosen { IfOk result (λ answer. IfOk answer (λ actions.
        ChoosesActions (parts_of pattern.now) change directory actions.items
        (D.disk device.old) (D.disk device.new))) }
    ensures none { IfOk result (λ answer. IfErr answer (λ why.
        HasNoActions why (parts_of pattern.now) change directory
        (D.disk device.old) (D.disk device.new))) }
    ensures failed { IfErr result (λ failure.
        FailsToFindNames failure (D.disk device.old) (D.disk device.new)) }
{
    let (names, those) = match choose_names(alloc, device, &directory, pattern, change.choice())? {
        Ok((names, those)) => (names, those),
        Err(none) => return Ok(Err(none)),
    };
    match change.actions(alloc, directory, &names, &those) {
        Ok(actions) => {
            if is_in_vain(pattern, change.choice(), &names, &actions) {
                Ok(Err(NoNames::Refused(Refusal::NoSuchEntry)))
            } else {
                Ok(Ok(actions))
            }
        }
        Err(NoMemory) => Err(Failure::NoMemory),
    }
}

/// Whether nothing can be done, though names that are meant are asked for; or no name fits that of a purge, and not all are meant.
fn is_in_vain(pattern: &Pattern, choice: Choice, names: &[Name], actions: &[Action]) -> bool
    ensures { IsTrue result ↔ IsInVain choice (parts_of pattern.now) names.now actions.now }
{
    match choice {
        Choice::Meant => actions.is_empty(),
        Choice::Superseded => !pattern.is_all() && pattern.fits_none(names),
    }
}

/// Verifies the volume on a device, and tells why nothing is done where it is accepted.
pub(crate) fn leave_all<D: Device, W: Write>(
    alloc: Global,
    device: D,
    refusal: Refusal,
    writer: &mut W,
) -> (D, Result<FileAnswer, Failure>)
    ensures ends { EndsNone refusal result.1 (D.disk device) (D.disk result.0)
        W.contents writer.old writer.new }
{
    match accept_files(alloc, device, writer) {
        Ok(accepted) => (accepted.device(), tell_none(writer, refusal)),
        Err((device, told)) => (device, told),
    }
}

/// Tells why there are no names, or none that is meant.
fn tell_none<W: Write>(writer: &mut W, refusal: Refusal) -> Result<FileAnswer, Failure>
    ensures tells { TellsWhy (refused_line (Files refusal)) result W.contents writer.old writer.new }
{
    match writeln!(writer, "no {refusal}") {
        Ok(()) => Ok(FileAnswer::Refused),
        Err(_) => Err(Failure::CannotWrite),
    }
}
