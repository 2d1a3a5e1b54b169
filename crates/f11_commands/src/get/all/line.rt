//! The lines of `get --all`.
ghost use Rattle.std.specs.Prelude.{OnOk};
ghost use Rattle.f11_commands.specs.Output.{WriterTakes};
ghost use Rattle.f11_commands.specs.AllCommand.{all_line, left_out_line, taken_at_line};
ghost use Rattle.f11_commands.specs.AllText.{text_at_line};

use crate::get::all::counts::Counts;
use crate::get::all::left_out::LeftOut;
use crate::get::all::taken_text::TakenText;
use crate::get::all::taking::Taken;
use crate::get::missing::ShownMissing;
use f11_catalog::Place;
use f11_store::FileId;
use std::fmt;
use std::io::{self, Write};

/// The identification of a file that stands beside another of its name.
#[derive(Clone, Copy)]
struct Beside(Option<FileId>);

impl fmt::Display for Beside {
    ghost use Rattle.std.specs.Prelude.{Some};
    ghost use Rattle.f11_commands.specs.AllCommand.{beside_text};

    ghost output = { λ beside. Some (beside_text beside.0) };

    fn fmt<W: fmt::Write>(&self, f: &mut fmt::Formatter<W>) -> fmt::Result {
        match self.0 {
            Some(id) => write!(f, " ({id})"),
            None => Ok(()),
        }
    }
}

/// Whether a file's slot isn't in use.
#[derive(Clone, Copy)]
struct Unused(bool);

impl fmt::Display for Unused {
    ghost use Rattle.std.specs.Prelude.{Some, not};
    ghost use Rattle.f11_commands.specs.AllCommand.{use_text};

    ghost output = { λ unused. Some (use_text (not unused.0)) };

    fn fmt<W: fmt::Write>(&self, f: &mut fmt::Formatter<W>) -> fmt::Result {
        if self.0 {
            write!(f, " out of use")
        } else {
            Ok(())
        }
    }
}

/// Writes the line of a file that was taken out: its place, how many bytes were written, whether these are all its blocks since it wasn't
/// closed, whether its slot is in use, for which block zeros were the first, and by which it broke off.
pub(crate) fn write_line<W: Write>(
    writer: &mut W,
    place: &Place,
    in_use: bool,
    beside: Option<FileId>,
    taken: &Taken,
) -> io::Result<()>
    ensures { OnOk result (WriterTakes W.contents writer.old writer.new
        (taken_at_line place.now in_use beside taken.now)) }
{
    let beside = Beside(beside);
    let Taken {
        bytes,
        zeros,
        broke,
        all_blocks,
        ..
    } = *taken;
    let missing = ShownMissing { zeros, broke };
    let open = if all_blocks { " open, all blocks" } else { "" };
    let unused = Unused(!in_use);
    writeln!(
        writer,
        "{place}{beside} copied {bytes} bytes{open}{unused}{missing}"
    )
}

/// Writes the line of a file whose text was taken out: its place, how many bytes were written, or that it was a beginning, and whether its
/// slot is in use.
pub(crate) fn write_text_line<W: Write>(
    writer: &mut W,
    place: &Place,
    in_use: bool,
    beside: Option<FileId>,
    taken: &TakenText,
) -> io::Result<()>
    ensures { OnOk result (WriterTakes W.contents writer.old writer.new
        (text_at_line place.now in_use beside taken.now)) }
{
    let beside = Beside(beside);
    let unused = Unused(!in_use);
    writeln!(writer, "{place}{beside} copied {taken} as text{unused}")
}

/// Writes the line of a file that isn't taken out.
pub(crate) fn write_left_out<W: Write>(
    writer: &mut W,
    place: &Place,
    why: &LeftOut,
) -> io::Result<()>
    ensures { OnOk result (WriterTakes W.contents writer.old writer.new
        (left_out_line place.now why.now)) }
{
    writeln!(writer, "{place} not copied {why}")
}

/// Writes the last line.
pub(crate) fn write_all_line<W: Write>(writer: &mut W, counts: &Counts) -> io::Result<()>
    ensures { OnOk result (WriterTakes W.contents writer.old writer.new (all_line counts.now)) }
{
    let Counts {
        copied,
        cut,
        left_out,
        lost,
    } = *counts;
    writeln!(
        writer,
        "all {copied} copied, {cut} cut, {left_out} not copied, {lost} in lost"
    )
}
