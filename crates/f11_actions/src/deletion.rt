//! The command that deletes one file.
ghost use Rattle.f11_actions.specs.Deletion.{EndsDeletion, kept_lines};
ghost use Rattle.f11_actions.specs.Undone.{EndsUndone, TellsWhy};

use crate::behind::Behind;
use crate::command::print_actions;
use crate::line::{write_all_line, write_line};
use f11_commands::{Failure, FileAnswer, accept_files, leads_to_records};
use f11_dev::Device;
use f11_making::Action;
use f11_rad50::Name;
use f11_store::Refusal;
use std::alloc::Global;
use std::io::Write;

/// Deletes the file that a directory has under a name, as [`print_actions`] does one action, unless it is a directory that has a record: of such
/// a one it writes `NAME.TYP;V not deleted NotEmpty` and the last line, with nothing done, and answers [`FileAnswer::Refused`]. Whether it is one
/// is read off the image first; the files of a directory that is deleted would be in none. The directory is the one that the master file
/// directory has under its name.
///
/// # Errors
///
/// As of [`print_actions`]; [`Failure::DeviceFault`] and [`Failure::NoMemory`] also where that can't be read, with nothing done.
pub fn print_deletion<D: Device, W: Write>(
    alloc: Global,
    mut device: D,
    directory: Name,
    name: Name,
    writer: &mut W,
) -> (D, Result<FileAnswer, Failure>)
    ensures ends { EndsDeletion directory name result.1 (D.disk device) (D.disk result.0)
        W.contents writer.old writer.new }
{
    let action = Action::Delete { directory, name };
    match leads_to_records(alloc, &mut device, &directory, &name) {
        Ok(Ok(true)) => keep(alloc, device, directory, name, writer),
        Ok(Ok(false)) => print_actions(alloc, device, &[action], Behind::GoesOn, writer),
        Ok(Err(_)) => print_actions(alloc, device, &[action], Behind::GoesOn, writer),
        Err(failure) => (device, Err(failure)),
    }
}

/// Verifies the volume on a device, and tells that a directory stays where it is accepted.
fn keep<D: Device, W: Write>(
    alloc: Global,
    device: D,
    directory: Name,
    name: Name,
    writer: &mut W,
) -> (D, Result<FileAnswer, Failure>)
    ensures ends { EndsUndone (kept_lines directory name) result.1 (D.disk device) (D.disk result.0)
        W.contents writer.old writer.new }
{
    match accept_files(alloc, device, writer) {
        Ok(accepted) => (accepted.device(), tell_kept(directory, name, writer)),
        Err((device, told)) => (device, told),
    }
}

/// Tells that a directory stays.
fn tell_kept<W: Write>(directory: Name, name: Name, writer: &mut W) -> Result<FileAnswer, Failure>
    ensures tells { TellsWhy (kept_lines directory name) result W.contents writer.old writer.new }
{
    let action = Action::Delete { directory, name };
    write_line(writer, &action, &Err(Refusal::NotEmpty))?;
    write_all_line(writer, 0, 1)?;
    Ok(FileAnswer::Refused)
}
