//! The lines of actions.
ghost use Rattle.std.specs.Prelude.{◌≡◌, OnOk};
ghost use Rattle.std.specs.Prelude.{codes};
ghost use Rattle.f11_actions.specs.Lines.{action_line, all_line, all_would_line, copy_line, name_in, rt_copy_line, would_line};
ghost use Rattle.f11_commands.specs.Output.{WriterTakes};

use f11_making::Action;
use f11_rad50::Name;
use f11_store::Refusal;
use rt11_volume::RtName;
use std::fmt;
use std::io::{self, Write};

/// What an action does, as its line says it.
#[derive(Clone, Copy, Debug)]
struct Done(Action);

impl fmt::Display for Done {
    ghost use Rattle.std.specs.Prelude.{Some};
    ghost use Rattle.f11_actions.specs.Lines.{done_text};

    ghost output = { λ done. Some (done_text done.0) };

    /// Writes `deleted`, `made`, `protected`, `purged`, `truncated`, or `renamed` and the new name.
    fn fmt<W: fmt::Write>(&self, f: &mut fmt::Formatter<W>) -> fmt::Result {
        match &self.0 {
            Action::Delete { .. } => write!(f, "deleted"),
            Action::Purge { .. } => write!(f, "purged"),
            Action::Rename { new, .. } => write!(f, "renamed {new}"),
            Action::Protect { .. } => write!(f, "protected"),
            Action::Truncate { .. } => write!(f, "truncated"),
            Action::MakeDirectory { .. } => write!(f, "made"),
        }
    }
}

/// What an action would do, as its line says it.
#[derive(Clone, Copy, Debug)]
struct Would(Action);

impl fmt::Display for Would {
    ghost use Rattle.std.specs.Prelude.{Some};
    ghost use Rattle.f11_actions.specs.Lines.{would_text};

    ghost output = { λ would. Some (would_text would.0) };

    /// Writes what is written of an action that is done, but `deleted` of a purge.
    fn fmt<W: fmt::Write>(&self, f: &mut fmt::Formatter<W>) -> fmt::Result {
        match self.0 {
            Action::Purge { .. } => write!(f, "deleted"),
            action => {
                let done = Done(action);
                write!(f, "{done}")
            }
        }
    }
}

/// The name of an action's file.
fn name_of(action: &Action) -> Name
    ensures { result ≡ name_in action.now }
{
    match action {
        Action::Delete { name, .. } => *name,
        Action::Purge { name, .. } => *name,
        Action::Rename { name, .. } => *name,
        Action::Protect { name, .. } => *name,
        Action::Truncate { name, .. } => *name,
        Action::MakeDirectory { name, .. } => *name,
    }
}

/// Writes the line of an action, of what came of it.
pub(crate) fn write_line<W: Write>(
    writer: &mut W,
    action: &Action,
    came: &Result<(), Refusal>,
) -> io::Result<()>
    ensures { OnOk result (WriterTakes W.contents writer.old writer.new (action_line action.now came.now)) }
{
    let name = name_of(action);
    let done = Done(*action);
    match came {
        Ok(()) => writeln!(writer, "{name} {done}"),
        Err(refusal) => writeln!(writer, "{name} not {done} {refusal}"),
    }
}

/// Writes the last line: how many were done, and how many weren't.
pub(crate) fn write_all_line<W: Write>(
    writer: &mut W,
    done: usize,
    refused: usize,
) -> io::Result<()>
    ensures { OnOk result (WriterTakes W.contents writer.old writer.new (all_line done refused)) }
{
    writeln!(writer, "all {done} done, {refused} not done")
}

/// Writes the line of an action that would be done.
pub(crate) fn write_would_line<W: Write>(writer: &mut W, action: &Action) -> io::Result<()>
    ensures { OnOk result (WriterTakes W.contents writer.old writer.new (would_line action.now)) }
{
    let name = name_of(action);
    let would = Would(*action);
    writeln!(writer, "{name} would be {would}")
}

/// Writes the last line of so many actions that would be done.
pub(crate) fn write_all_would_line<W: Write>(writer: &mut W, count: usize) -> io::Result<()>
    ensures { OnOk result (WriterTakes W.contents writer.old writer.new (all_would_line count (codes "done"))) }
{
    writeln!(writer, "all {count} would be done")
}

/// Writes the line of a file that would be copied, `NAME.TYP;V would be copied`.
pub fn write_copy_line<W: Write>(writer: &mut W, name: &Name) -> io::Result<()>
    ensures { OnOk result (WriterTakes W.contents writer.old writer.new (copy_line name.now)) }
{
    writeln!(writer, "{name} would be copied")
}

/// Writes the line of a file of an RT-11 volume that would be copied, `NAME.TYP would be copied`.
pub fn write_rt_copy_line<W: Write>(writer: &mut W, name: &RtName) -> io::Result<()>
    ensures { OnOk result (WriterTakes W.contents writer.old writer.new (rt_copy_line name.now)) }
{
    writeln!(writer, "{name} would be copied")
}

/// Writes the last line of so many files that would be copied, `all N would be copied`.
pub fn write_all_copy_line<W: Write>(writer: &mut W, count: usize) -> io::Result<()>
    ensures { OnOk result (WriterTakes W.contents writer.old writer.new (all_would_line count (codes "copied"))) }
{
    writeln!(writer, "all {count} would be copied")
}
