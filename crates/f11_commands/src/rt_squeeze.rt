//! The command `rt-squeeze`.
ghost use Rattle.std.specs.Prelude.{◌≡◌, OnOk, count_by, length};
ghost use Rattle.f11_commands.specs.Output.{WriterTakes};
ghost use Rattle.f11_commands.specs.RtSqueeze.{EndsSqueezed, EndsSqueezing, TellsSqueezed, TellsSqueezing, is_moved, is_refused, look_failure, squeezed_line, squeezed_lines};
ghost use Rattle.rt11_volume.specs.Files.{is_device_fault};

use crate::outcome::{Failure, FileAnswer};
use crate::rt_file::is_fault;
use crate::sync::synced;
use crate::telling::tell;
use crate::verifying::accept_rt;
use f11_dev::Device;
use f11_flx::FlxRefusal;
use rt11_squeeze::{FileToMove, Squeezed, files_told, squeeze};
use rt11_volume::RtRefusal;
use std::alloc::Global;
use std::io::{self, Write};

/// Verifies the RT-11 volume on a device, brings its files to lower blocks, one after another, so that its empty areas come together behind
/// them, and syncs the device; where the volume has faults it writes the lines of `rt-vfy`, and no file is moved. The device comes back.
///
/// A file before which no empty area lies has no line; else it is `NAME.TYP moved`, or where it couldn't be brought to a lower block
/// `NAME.TYP not moved` and the refusal's name, and it answers [`FileAnswer::Refused`]. The last line is `all N moved, K not moved`. Files of the
/// type `BAD`, which cover bad blocks, stay where they are, with no line.
///
/// At each moment the blocks of each file stand in a row on the volume.
///
/// # Errors
///
/// [`Failure::DeviceFault`] where a transfer failed, or the sync when all are moved, [`Failure::NoMemory`] where there was no memory, and
/// [`Failure::CannotWrite`] where the writer takes no more. With each of them files may be moved already.
pub fn print_rt_squeeze<D: Device, W: Write>(
    alloc: Global,
    device: D,
    writer: &mut W,
) -> (D, Result<FileAnswer, Failure>)
    ensures ends { EndsSqueezing result.1 (D.disk device) (D.disk result.0)
        W.contents writer.old writer.new }
{
    let mut device = device;
    let files = match files_told(alloc, &mut device) {
        Ok(files) => files,
        Err(refusal) => return (device, Err(look_failure(refusal))),
    };
    let mut volume = match accept_rt(alloc, device, writer) {
        Ok(volume) => volume,
        Err((device, told)) => return (device, told),
    };
    let squeezed = squeeze(alloc, &mut volume, &files);
    end_squeezing(volume.device(), &files, squeezed, writer)
}

/// As what it is told that the directory couldn't be read.
fn look_failure(refusal: RtRefusal) -> Failure
    ensures { result ≡ look_failure refusal }
{
    if is_fault(&refusal) {
        Failure::DeviceFault
    } else {
        Failure::NoMemory
    }
}

/// Syncs the device, unless a transfer failed, and tells what became of the files.
fn end_squeezing<D: Device, W: Write>(
    device: D,
    files: &[FileToMove],
    squeezed: Result<Vec<Squeezed>, RtRefusal>,
    writer: &mut W,
) -> (D, Result<FileAnswer, Failure>)
    ensures ends { EndsSqueezed files.now squeezed result.1 (D.disk device) (D.disk result.0)
        W.contents writer.old writer.new }
{
    if has_faulted(&squeezed) {
        return (device, Err(Failure::DeviceFault));
    }
    match synced(device) {
        Ok(device) => (device, tell_squeezing(files, squeezed, writer)),
        Err(device) => (device, Err(Failure::DeviceFault)),
    }
}

/// Whether a transfer failed.
fn has_faulted(squeezed: &Result<Vec<Squeezed>, RtRefusal>) -> bool
    ensures { result ≡ is_device_fault squeezed.now }
{
    match squeezed {
        Ok(_) => false,
        Err(refusal) => is_fault(refusal),
    }
}

/// Writes the lines of files, or why it was ended before the last of them.
fn tell_squeezing<W: Write>(
    files: &[FileToMove],
    squeezed: Result<Vec<Squeezed>, RtRefusal>,
    writer: &mut W,
) -> Result<FileAnswer, Failure>
    ensures tells { TellsSqueezing files.now squeezed result W.contents writer.old writer.new }
{
    match squeezed {
        Ok(outcomes) => tell_squeezed(files, &outcomes, writer),
        Err(refusal) => tell(Err(FlxRefusal::Rt(refusal)), writer),
    }
}

/// Writes the line of each file, and the last one.
fn tell_squeezed<W: Write>(
    files: &[FileToMove],
    outcomes: &[Squeezed],
    writer: &mut W,
) -> Result<FileAnswer, Failure>
    ensures tells { TellsSqueezed files.now outcomes.now result W.contents writer.old writer.new }
{
    write_lines(writer, files, outcomes)?;
    let moved = count_moved(outcomes);
    let refused = count_refused(outcomes);
    writeln!(writer, "all {moved} moved, {refused} not moved")?;
    if refused == 0 {
        Ok(FileAnswer::Done)
    } else {
        Ok(FileAnswer::Refused)
    }
}

/// How many files were moved.
fn count_moved(outcomes: &[Squeezed]) -> usize
    ensures { result ≡ count_by is_moved outcomes.now }
{
    outcomes.iter().filter(|outcome| is_moved(outcome)).count()
}

/// How many weren't, though they should have been.
fn count_refused(outcomes: &[Squeezed]) -> usize
    ensures { result ≡ count_by is_refused outcomes.now }
{
    outcomes
        .iter()
        .filter(|outcome| is_refused(outcome))
        .count()
}

/// Whether a file was moved.
fn is_moved(outcome: &Squeezed) -> bool
    ensures { result ≡ is_moved outcome.now }
{
    matches!(outcome, Squeezed::Moved)
}

/// Whether it wasn't, though it should have been.
fn is_refused(outcome: &Squeezed) -> bool
    ensures { result ≡ is_refused outcome.now }
{
    matches!(outcome, Squeezed::Refused(_))
}

/// Writes the lines of files, in their order.
fn write_lines<W: Write>(
    writer: &mut W,
    files: &[FileToMove],
    outcomes: &[Squeezed],
) -> io::Result<()>
    ensures { OnOk result (WriterTakes W.contents writer.old writer.new
        (squeezed_lines files.now outcomes.now)) }
{
    for at in 0..files.len().min(outcomes.len()) {
        write_line(writer, &files[at], &outcomes[at])?;
    }
    Ok(())
}

/// Writes the line of a file, if it has one.
fn write_line<W: Write>(writer: &mut W, file: &FileToMove, outcome: &Squeezed) -> io::Result<()>
    ensures { OnOk result (WriterTakes W.contents writer.old writer.new
        (squeezed_line file.now outcome.now)) }
{
    let name = file.name;
    match outcome {
        Squeezed::InPlace => Ok(()),
        Squeezed::Moved => writeln!(writer, "{name} moved"),
        Squeezed::Refused(refusal) => writeln!(writer, "{name} not moved {refusal}"),
    }
}
