//! What is told of files of an RT-11 volume that were copied to another.
ghost use Rattle.std.specs.Prelude.{◌≡◌, OnOk, count_by};
ghost use Rattle.f11_commands.specs.Output.{WriterTakes};
ghost use Rattle.f11_salvage.specs.RtLines.{boot_line, copy_answer, copy_lines, counts_line, entry_line, entry_lines, is_copied, is_left, left_line};

use f11_commands::FileAnswer;
use rt11_copy::{RtCopied, RtUncopied};
use rt11_volume::RtEntry;
use std::fmt;
use std::io::{self, Write};

/// As what an entry is called.
#[derive(Clone, Copy)]
struct Called<'a>(&'a RtEntry);

impl<'a> fmt::Display for Called<'a> {
    ghost use Rattle.std.specs.Prelude.{Some};
    ghost use Rattle.f11_salvage.specs.RtLines.{called};

    ghost output = { λ c. Some (called c.0.now) };

    /// Writes `NAME.TYP`, or `S,E` where it has no name.
    fn fmt<W: fmt::Write>(&self, f: &mut fmt::Formatter<W>) -> fmt::Result {
        match self.0.name {
            Some(name) => write!(f, "{name}"),
            None => {
                let (segment, number) = (self.0.segment, self.0.number);
                write!(f, "{segment},{number}")
            }
        }
    }
}

/// Why its file wasn't copied.
#[derive(Clone, Copy)]
struct ShownWhy(RtUncopied);

impl fmt::Display for ShownWhy {
    ghost use Rattle.std.specs.Prelude.{Some};
    ghost use Rattle.f11_salvage.specs.RtLines.{why_text};

    ghost output = { λ why. Some (why_text why.0) };

    fn fmt<W: fmt::Write>(&self, f: &mut fmt::Formatter<W>) -> fmt::Result {
        match self.0 {
            RtUncopied::NoFile => write!(f, "no file"),
            RtUncopied::StatusWrong => write!(f, "status wrong"),
            RtUncopied::NoName => write!(f, "no name"),
            RtUncopied::PastEnd => write!(f, "past the end"),
            RtUncopied::Unreadable => write!(f, "cannot be read"),
            RtUncopied::Refused(refusal) => write!(f, "{refusal}"),
        }
    }
}

/// Writes the line of an entry whose file wasn't copied, if it has one.
fn write_left<W: Write>(writer: &mut W, entry: &RtEntry, why: RtUncopied) -> io::Result<()>
    ensures { OnOk result (WriterTakes W.contents writer.old writer.new
        (left_line entry.now why)) }
{
    match why {
        RtUncopied::NoFile => Ok(()),
        _ => {
            let called = Called(entry);
            let why = ShownWhy(why);
            writeln!(writer, "{called} not copied {why}")
        }
    }
}

/// Writes the line of an entry, if it has one.
fn write_entry<W: Write>(writer: &mut W, entry: &RtEntry, outcome: &RtCopied) -> io::Result<()>
    ensures { OnOk result (WriterTakes W.contents writer.old writer.new
        (entry_line entry.now outcome.now)) }
{
    match outcome {
        RtCopied::Copied => {
            let called = Called(entry);
            let blocks = entry.blocks;
            writeln!(writer, "{called} copied {blocks}")
        }
        RtCopied::NotCopied(why) => write_left(writer, entry, *why),
    }
}

/// Writes those of entries, in their order.
fn write_entries<W: Write>(
    writer: &mut W,
    entries: &[RtEntry],
    outcomes: &[RtCopied],
) -> io::Result<()>
    ensures { OnOk result (WriterTakes W.contents writer.old writer.new
        (entry_lines entries.now outcomes.now)) }
{
    for at in 0..entries.len().min(outcomes.len()) {
        write_entry(writer, &entries[at], &outcomes[at])?;
    }
    Ok(())
}

/// Writes that a boot block isn't copied in which there is something.
fn write_boot<W: Write>(writer: &mut W, boots: bool) -> io::Result<()>
    ensures { OnOk result (WriterTakes W.contents writer.old writer.new (boot_line boots)) }
{
    if boots {
        writeln!(writer, "boot block not copied")?;
    }
    Ok(())
}

/// Whether a file was copied.
fn is_copied(outcome: &RtCopied) -> bool
    ensures { result ≡ is_copied outcome.now }
{
    matches!(outcome, RtCopied::Copied)
}

/// Whether one wasn't.
fn is_left(outcome: &RtCopied) -> bool
    ensures { result ≡ is_left outcome.now }
{
    match outcome {
        RtCopied::Copied => false,
        RtCopied::NotCopied(RtUncopied::NoFile) => false,
        RtCopied::NotCopied(_) => true,
    }
}

/// How many files were copied.
fn count_copied(outcomes: &[RtCopied]) -> usize
    ensures { result ≡ count_by is_copied outcomes.now }
{
    outcomes.iter().filter(|outcome| is_copied(outcome)).count()
}

/// How many weren't.
fn count_left(outcomes: &[RtCopied]) -> usize
    ensures { result ≡ count_by is_left outcomes.now }
{
    outcomes.iter().filter(|outcome| is_left(outcome)).count()
}

/// Writes how many were copied, and how many weren't.
fn write_counts<W: Write>(writer: &mut W, outcomes: &[RtCopied]) -> io::Result<()>
    ensures { OnOk result (WriterTakes W.contents writer.old writer.new
        (counts_line outcomes.now)) }
{
    let copied = count_copied(outcomes);
    let left = count_left(outcomes);
    writeln!(writer, "all {copied} copied, {left} not copied")
}

/// Writes the lines of files that were copied, or weren't: `NAME.TYP copied N` with its number of blocks, `NAME.TYP not copied` and why,
/// both with `S,E` where an entry has no name; then `boot block not copied` where there is something in that, and `all N copied, K not
/// copied`.
pub(crate) fn write_copies<W: Write>(
    writer: &mut W,
    entries: &[RtEntry],
    boots: bool,
    outcomes: &[RtCopied],
) -> io::Result<()>
    ensures { OnOk result (WriterTakes W.contents writer.old writer.new
        (copy_lines entries.now boots outcomes.now)) }
{
    write_entries(writer, entries, outcomes)?;
    write_boot(writer, boots)?;
    write_counts(writer, outcomes)
}

/// What is answered behind them.
pub(crate) fn copy_answer(outcomes: &[RtCopied]) -> FileAnswer
    ensures { result ≡ copy_answer outcomes.now }
{
    if count_left(outcomes) == 0 {
        FileAnswer::Done
    } else {
        FileAnswer::Refused
    }
}
