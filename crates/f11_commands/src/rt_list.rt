//! The command `rt-list`.
ghost use Rattle.std.specs.Prelude.{◌≡◌, IfOk, IfErr, OnOk};
ghost use Rattle.f11_commands.specs.Output.{WriterTakes};
ghost use Rattle.f11_commands.specs.RtList.{area_line, area_lines, list_transfers, PrintsList};
ghost use Rattle.f11_commands.specs.RtVolume.{PrintsFaulty, FailsToPrintRt};

use crate::outcome::{Answer, Failure};
use crate::report::{System, write_faulty};
use f11_dev::Device;
use rt11_volume::{RtArea, RtKind, RtName, RtRefusal, RtReport, RtVfyError, verify};
use std::alloc::Global;
use std::fmt;
use std::io::{self, Write};

/// The name of a file, or `?`.
#[derive(Clone, Copy)]
pub(crate) struct ShownName(pub(crate) Option<RtName>);

impl fmt::Display for ShownName {
    ghost use Rattle.std.specs.Prelude.{Some};
    ghost use Rattle.f11_commands.specs.RtList.{name_shown};

    ghost output = { λ n. Some (name_shown n.0) };

    fn fmt<W: fmt::Write>(&self, f: &mut fmt::Formatter<W>) -> fmt::Result {
        match self.0 {
            Some(name) => write!(f, "{name}"),
            None => write!(f, "?"),
        }
    }
}

/// What stands behind a protected file.
#[derive(Clone, Copy)]
pub(crate) struct ShownProtection(pub(crate) bool);

impl fmt::Display for ShownProtection {
    ghost use Rattle.std.specs.Prelude.{Some};
    ghost use Rattle.f11_commands.specs.RtList.{protection_shown};

    ghost output = { λ p. Some (protection_shown p.0) };

    fn fmt<W: fmt::Write>(&self, f: &mut fmt::Formatter<W>) -> fmt::Result {
        if self.0 {
            write!(f, " protected")
        } else {
            Ok(())
        }
    }
}

/// Verifies the RT-11 volume on a device and writes a line for each of its areas, in the order of its segments and their entries;
/// where it has faults the lines of `rt-vfy`, with which it answers [`Answer::Fault`]. The device comes back; nothing is written to it.
///
/// # Errors
///
/// [`Failure::DeviceFault`] where a transfer failed, [`Failure::NoMemory`] where there was no memory, and
/// [`Failure::CannotWrite`] where the writer takes no more: then it may hold a part of the lines.
pub fn print_rt_list<D: Device, W: Write>(
    alloc: Global,
    device: D,
    writer: &mut W,
) -> (D, Result<Answer, Failure>)
    ensures listed { result.1 ≡ Ok Answer.Done → PrintsList
        (D.disk device) (D.disk result.0) W.contents writer.old writer.new }
    ensures faulty { result.1 ≡ Ok Answer.Fault → PrintsFaulty
        (D.disk device) (D.disk result.0) W.contents writer.old writer.new }
    ensures failed { IfErr result.1 (λ failure. FailsToPrintRt list_transfers failure
        (D.disk device) (D.disk result.0) W.contents writer.old writer.new) }
{
    match verify(alloc, device) {
        Ok(RtReport::Accepted(mut volume, _notes)) => match volume.list(alloc) {
            Ok(areas) => (volume.device(), write_list(writer, &areas)),
            Err(RtRefusal::NoMemory) => (volume.device(), Err(Failure::NoMemory)),
            Err(_) => (volume.device(), Err(Failure::DeviceFault)),
        },
        Ok(RtReport::Faulty(device, faults, notes)) => {
            (device, write_faulty(writer, System::Rt11, &faults, &notes))
        }
        Err(RtVfyError::DeviceFault(device)) => (device, Err(Failure::DeviceFault)),
        Err(RtVfyError::NoMemory(device)) => (device, Err(Failure::NoMemory)),
    }
}

/// Writes the lines of areas, and that it is done.
fn write_list<W: Write>(writer: &mut W, areas: &[RtArea]) -> Result<Answer, Failure>
    ensures lines { OnOk result (WriterTakes W.contents writer.old writer.new (area_lines areas.now)) }
    ensures answer { IfOk result (λ answer. answer ≡ Answer.Done) }
    ensures failed { IfErr result (λ failure. failure ≡ Failure.CannotWrite) }
{
    write_areas(writer, areas)?;
    Ok(Answer::Done)
}

/// Writes the lines of areas.
fn write_areas<W: Write>(writer: &mut W, areas: &[RtArea]) -> io::Result<()>
    ensures { OnOk result (WriterTakes W.contents writer.old writer.new (area_lines areas.now)) }
{
    for area in areas {
        write_area(writer, area)?;
    }
    Ok(())
}

/// Writes the line of an area.
fn write_area<W: Write>(writer: &mut W, area: &RtArea) -> io::Result<()>
    ensures { OnOk result (WriterTakes W.contents writer.old writer.new (area_line area.now)) }
{
    let RtArea { start, length, .. } = *area;
    match area.kind {
        RtKind::Tentative => writeln!(writer, "tent {start} {length}"),
        RtKind::Empty => writeln!(writer, "empty {start} {length}"),
        RtKind::Permanent => {
            let name = ShownName(area.name);
            let protection = ShownProtection(area.protected);
            writeln!(writer, "perm {name} {start} {length}{protection}")
        }
    }
}
