//! What would be done to a volume, which is told, with nothing asked of it.
ghost use Rattle.f11_actions.specs.Lines.{would_lines};
ghost use Rattle.f11_actions.specs.Undone.{TellsLines};
ghost use Rattle.f11_actions.specs.Would.{EndsWould, IsOnlyRead, TellsWould};
ghost use Rattle.f11_commands.specs.declared.outcome.FileAnswer.TheVariants.{Done};
ghost use Rattle.f11_patterns.specs.Lent.{parts_of};

use crate::change::Change;
use crate::chosen::{chosen_actions, leave_all};
use crate::line::{write_all_would_line, write_would_line};
use f11_commands::{Failure, FileAnswer, NoNames, accept_files};
use f11_dev::Device;
use f11_making::Action;
use f11_patterns::Pattern;
use f11_rad50::Name;
use std::alloc::Global;
use std::io::Write;

/// Tells what [`print_chosen`](crate::print_chosen) would do to the same volume: of each action that it would ask for `NAME.TYP;V would be`
/// and what, `deleted`, `protected` or `truncated`, of a purge `deleted`, and the last line, `all N would be done`. Nothing is asked of the
/// volume, which is only read: whether it would refuse an action isn't known. Where nothing would be done it writes and answers what that does.
///
/// # Errors
///
/// [`Failure::DeviceFault`] where a transfer failed, [`Failure::NoMemory`] where there was no memory, and [`Failure::CannotWrite`] where the
/// writer takes no more.
pub fn print_would<D: Device, W: Write>(
    alloc: Global,
    mut device: D,
    directory: Name,
    pattern: &Pattern,
    change: Change,
    writer: &mut W,
) -> (D, Result<FileAnswer, Failure>)
    ensures ends { EndsWould (parts_of pattern.now) change directory result.1
        (D.disk device) (D.disk result.0) W.contents writer.old writer.new }
    ensures reads { IsOnlyRead (D.disk device) (D.disk result.0) }
{
    match chosen_actions(alloc, &mut device, directory, pattern, change) {
        Ok(Ok(actions)) => print_would_act(alloc, device, &actions, writer),
        Ok(Err(NoNames::Refused(refusal))) => leave_all(alloc, device, refusal, writer),
        Ok(Err(NoNames::Unreadable)) => print_would_act(alloc, device, &[], writer),
        Err(failure) => (device, Err(failure)),
    }
}

/// Verifies the volume on a device, and tells that these actions would be done where it is accepted, as [`print_would`] does. Where it has
/// faults it writes the lines of `vfy`.
///
/// # Errors
///
/// As of [`print_would`].
pub fn print_would_act<D: Device, W: Write>(
    alloc: Global,
    device: D,
    actions: &[Action],
    writer: &mut W,
) -> (D, Result<FileAnswer, Failure>)
    ensures ends { TellsWould actions.now result.1 (D.disk device) (D.disk result.0)
        W.contents writer.old writer.new }
    ensures reads { IsOnlyRead (D.disk device) (D.disk result.0) }
{
    match accept_files(alloc, device, writer) {
        Ok(accepted) => (accepted.device(), tell_would(actions, writer)),
        Err((device, told)) => (device, told),
    }
}

/// Writes the line of each, and the last one.
fn tell_would<W: Write>(actions: &[Action], writer: &mut W) -> Result<FileAnswer, Failure>
    ensures tells { TellsLines Done (would_lines actions.now) result W.contents writer.old writer.new }
{
    for action in actions {
        write_would_line(writer, action)?;
    }
    write_all_would_line(writer, actions.len())?;
    Ok(FileAnswer::Done)
}
