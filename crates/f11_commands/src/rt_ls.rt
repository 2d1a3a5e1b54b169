//! The command `rt-ls`.
ghost use Rattle.std.specs.Prelude.{◌≡◌, IfErr, IfOk, OnOk};
ghost use Rattle.f11_commands.specs.Output.{WriterTakes};
ghost use Rattle.f11_commands.specs.RtLs.{ListsRt, entry_line, entry_lines, entry_text, read_transfers};
ghost use Rattle.f11_commands.specs.RtVolume.{FailsToPrintRt};

use crate::outcome::{Failure, FileAnswer};
use crate::rt_any::{RtServed, read_volume, served, write_replaced};
use crate::rt_area::{ShownBreak, first_past};
use crate::rt_list::{ShownName, ShownProtection};
use f11_dev::Device;
use rt11_volume::{RtEntry, RtKind, RtState};
use std::alloc::Global;
use std::fmt;
use std::io::{self, Write};

/// What stands behind an entry that isn't a file's.
#[derive(Clone, Copy)]
struct ShownKind(Option<RtKind>);

impl fmt::Display for ShownKind {
    ghost use Rattle.std.specs.Prelude.{Some};
    ghost use Rattle.f11_commands.specs.RtLs.{kind_shown};

    ghost output = { λ k. Some (kind_shown k.0) };

    fn fmt<W: fmt::Write>(&self, f: &mut fmt::Formatter<W>) -> fmt::Result {
        match self.0 {
            Some(RtKind::Tentative) => write!(f, " tentative"),
            Some(RtKind::Empty) => Ok(()),
            Some(RtKind::Permanent) => Ok(()),
            None => write!(f, " status wrong"),
        }
    }
}

/// What is told of an entry's area, on a device of so many blocks.
#[derive(Clone, Copy)]
struct ShownArea {
    entry: RtEntry,
    size: u32,
}

impl fmt::Display for ShownArea {
    ghost use Rattle.std.specs.Prelude.{Some};
    ghost use Rattle.f11_commands.specs.RtLs.{area_shown};

    ghost output = { λ a. Some (area_shown a.entry a.size) };

    fn fmt<W: fmt::Write>(&self, f: &mut fmt::Formatter<W>) -> fmt::Result {
        if self.entry.fits() {
            let broken = ShownBreak(first_past(self.entry.first, self.entry.blocks, self.size));
            write!(f, "{broken}")
        } else {
            write!(f, " past block 65534")
        }
    }
}

/// Lists the entries of the RT-11 volume on a device, in the order of its segments and their entries, but those of empty areas. It serves any
/// volume whose directory has the size that it should have, faulty or not: the entries of each segment that the links lead to and whose
/// extra bytes are right. The device comes back; nothing is written to it.
///
/// A line is `NAME.TYP first F blocks N`, with `?` for a name that is none, and behind it ` tentative`, or ` status wrong` where the entry's
/// status says nothing or several things; ` protected`; and ` broke off at block V` where V, from 1, is the first block past the device's
/// end, or ` past block 65534` where a directory may not give the area away; and ` block N replaced` for each block N of it that the table of
/// bad blocks has, for which others stand on some disks: what is read of it may be none of the file's. Where the directory can't be read the lines are those of `rt-vfy`.
///
/// # Errors
///
/// [`Failure::DeviceFault`] where a transfer failed, [`Failure::NoMemory`] where there was no memory, and
/// [`Failure::CannotWrite`] where the writer takes no more: then it may hold a part of the lines.
pub fn print_rt_ls<D: Device, W: Write>(
    alloc: Global,
    device: D,
    writer: &mut W,
) -> (D, Result<RtServed, Failure>)
    ensures lists { IfOk result.1 (λ served. ListsRt served
        (D.disk device) (D.disk result.0) W.contents writer.old writer.new) }
    ensures failed { IfErr result.1 (λ failure. FailsToPrintRt read_transfers failure
        (D.disk device) (D.disk result.0) W.contents writer.old writer.new) }
{
    let mut device = device;
    match read_volume(alloc, &mut device, writer) {
        Ok((state, entries, bad)) => {
            let size = device.blocks();
            match write_entries(writer, entries.as_slice(), bad.as_slice(), size) {
                Ok(()) => (device, served(state, Ok(FileAnswer::Done))),
                Err(_) => (device, Err(Failure::CannotWrite)),
            }
        }
        Err(told) => (device, served(RtState::Faulty, told)),
    }
}

/// Writes the lines of entries, on a device of so many blocks.
fn write_entries<W: Write>(
    writer: &mut W,
    entries: &[RtEntry],
    bad: &[u16],
    size: u32,
) -> io::Result<()>
    ensures { OnOk result (WriterTakes W.contents writer.old writer.new
        (entry_lines bad.now size entries.now)) }
{
    for entry in entries {
        write_entry(writer, entry, bad, size)?;
    }
    Ok(())
}

/// Writes the line of an entry, if it has one.
fn write_entry<W: Write>(writer: &mut W, entry: &RtEntry, bad: &[u16], size: u32) -> io::Result<()>
    ensures { OnOk result (WriterTakes W.contents writer.old writer.new
        (entry_line bad.now size entry.now)) }
{
    if entry.is_empty_area() {
        return Ok(());
    }
    write_text(writer, entry, size)?;
    write_replaced(writer, bad, entry.first, entry.blocks)?;
    writeln!(writer)
}

/// Writes the line of an entry, but for its end.
fn write_text<W: Write>(writer: &mut W, entry: &RtEntry, size: u32) -> io::Result<()>
    ensures { OnOk result (WriterTakes W.contents writer.old writer.new
        (entry_text size entry.now)) }
{
    let RtEntry { first, blocks, .. } = *entry;
    let name = ShownName(entry.name);
    let kind = ShownKind(entry.kind);
    let protection = ShownProtection(entry.protected);
    let area = ShownArea {
        entry: *entry,
        size,
    };
    write!(
        writer,
        "{name} first {first} blocks {blocks}{kind}{protection}{area}"
    )
}
