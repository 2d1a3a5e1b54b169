//! The lines of a verifier's report.
ghost use Rattle.std.specs.Prelude.{◌≡◌, true, false, [], IfOk, IfErr, OnOk};
ghost use Rattle.f11_commands.specs.Output.{WriterTakes};
ghost use Rattle.f11_commands.specs.Lines.{fault_lines, note_lines, verdict_line, report_lines};

pub(crate) mod files11;
pub(crate) mod rt11;

use crate::outcome::{Answer, Failure};
use f11_findings::{Finding, Findings};
use std::alloc::Global;
use std::fmt;
use std::io::{self, Write};

/// A file system, whose verifier reports.
#[derive(Clone, Copy, Debug, PartialEq, Eq)]
pub enum System {
    /// Files-11.
    Files11,
    /// RT-11.
    Rt11,
}

/// A fault, as its line says it.
#[derive(Clone, Copy)]
struct Fault {
    system: System,
    finding: Finding,
}

impl fmt::Display for Fault {
    ghost use Rattle.std.specs.Prelude.{Some};
    ghost use Rattle.f11_commands.specs.Lines.{fault_said};

    ghost output = { λ fault. Some (fault_said fault.system fault.finding) };

    fn fmt<W: fmt::Write>(&self, f: &mut fmt::Formatter<W>) -> fmt::Result {
        match self.system {
            System::Files11 => write!(f, "{}", files11::FaultText(self.finding)),
            System::Rt11 => write!(f, "{}", rt11::FaultText(self.finding)),
        }
    }
}

/// A note, as its line says it.
#[derive(Clone, Copy)]
struct Note {
    system: System,
    finding: Finding,
}

impl fmt::Display for Note {
    ghost use Rattle.std.specs.Prelude.{Some};
    ghost use Rattle.f11_commands.specs.Lines.{note_said};

    ghost output = { λ note. Some (note_said note.system note.finding) };

    fn fmt<W: fmt::Write>(&self, f: &mut fmt::Formatter<W>) -> fmt::Result {
        match self.system {
            System::Files11 => write!(f, "{}", files11::NoteText(self.finding)),
            System::Rt11 => write!(f, "{}", rt11::NoteText(self.finding)),
        }
    }
}

/// Writes the report of a volume without faults: a line for each note, and `accepted`.
pub(crate) fn write_accepted<W: Write>(
    alloc: Global,
    writer: &mut W,
    system: System,
    notes: &Findings,
) -> Result<Answer, Failure>
    ensures lines { OnOk result (WriterTakes W.contents writer.old writer.new
        (report_lines system true [] notes.now)) }
    ensures answer { IfOk result (λ answer. answer ≡ Answer.Done) }
    ensures failed { IfErr result (λ failure. failure ≡ Failure.CannotWrite) }
{
    write_report(writer, system, true, &Findings::new(alloc), notes)?;
    Ok(Answer::Done)
}

/// Writes the report of one with faults: a line for each fault, one for each note, and `faulty`.
pub(crate) fn write_faulty<W: Write>(
    writer: &mut W,
    system: System,
    faults: &Findings,
    notes: &Findings,
) -> Result<Answer, Failure>
    ensures lines { OnOk result (WriterTakes W.contents writer.old writer.new
        (report_lines system false faults.now notes.now)) }
    ensures answer { IfOk result (λ answer. answer ≡ Answer.Fault) }
    ensures failed { IfErr result (λ failure. failure ≡ Failure.CannotWrite) }
{
    write_report(writer, system, false, faults, notes)?;
    Ok(Answer::Fault)
}

/// Writes a report: a line for each fault, one for each note, and `accepted` or `faulty`.
fn write_report<W: Write>(
    writer: &mut W,
    system: System,
    accepted: bool,
    faults: &Findings,
    notes: &Findings,
) -> io::Result<()>
    ensures { OnOk result (WriterTakes W.contents writer.old writer.new
        (report_lines system accepted faults.now notes.now)) }
{
    write_faults(writer, system, faults)?;
    write_notes(writer, system, notes)?;
    write_verdict(writer, accepted)
}

/// Writes the line of each fault.
fn write_faults<W: Write>(writer: &mut W, system: System, faults: &Findings) -> io::Result<()>
    ensures { OnOk result (WriterTakes W.contents writer.old writer.new (fault_lines system faults.now)) }
{
    for i in 0..faults.len() {
        if let Some(finding) = faults.get(i) {
            writeln!(writer, "fault {}", Fault { system, finding })?;
        }
    }
    Ok(())
}

/// Writes the line of each note.
fn write_notes<W: Write>(writer: &mut W, system: System, notes: &Findings) -> io::Result<()>
    ensures { OnOk result (WriterTakes W.contents writer.old writer.new (note_lines system notes.now)) }
{
    for i in 0..notes.len() {
        if let Some(finding) = notes.get(i) {
            writeln!(writer, "note {}", Note { system, finding })?;
        }
    }
    Ok(())
}

/// Writes the verdict's line.
fn write_verdict<W: Write>(writer: &mut W, accepted: bool) -> io::Result<()>
    ensures { OnOk result (WriterTakes W.contents writer.old writer.new (verdict_line accepted)) }
{
    if accepted {
        writeln!(writer, "accepted")
    } else {
        writeln!(writer, "faulty")
    }
}
