//! The command `put --all`: directories that are made on a volume, and files in them.
ghost use Rattle.std.specs.Prelude.{OnOk};
ghost use Rattle.f11_commands.specs.Output.{WriterTakes};
ghost use Rattle.f11_commands.specs.PutAll.{TellsIn, TellsMade, line_in};
ghost use Rattle.f11_commands.specs.PuttingCounts.{CountsOne};

use crate::finding::{MASTER_DIRECTORY, OPERATOR, first_lun, first_task};
use crate::outcome::{Failure, FileAnswer};
use crate::put::each::{ending, refusal_of};
use crate::put::puts::Puts;
use crate::put::{Putting, put_by_name};
use crate::put_counts::PutCounts;
use f11_catalog::DirectoryName;
use f11_dev::Device;
use f11_host::HostRefusal;
use f11_making::{Action, Asker, carry_out};
use f11_rad50::Name;
use f11_store::{Refusal, Uic};
use std::io::{self, Read, Write};

/// Writes the line of a file in a directory, of what came of it.
fn write_in<W: Write>(
    writer: &mut W,
    place: &DirectoryName,
    name: &Name,
    made: Result<u32, HostRefusal>,
) -> io::Result<()>
    ensures { OnOk result (WriterTakes W.contents writer.old writer.new (line_in place.now name.now made)) }
{
    match made {
        Ok(blocks) => writeln!(writer, "{place} {name} copied {blocks}"),
        Err(refusal) => {
            let refusal = refusal_of(refusal);
            writeln!(writer, "{place} {name} no {refusal}")
        }
    }
}

/// Counts a file in a directory, and writes its line, of what came of it; but of one that ends the others nothing.
fn tell_in<W: Write>(
    place: &DirectoryName,
    name: &Name,
    made: Result<u32, HostRefusal>,
    counts: &mut PutCounts,
    writer: &mut W,
) -> Result<FileAnswer, Failure>
    ensures tells { TellsIn place.now name.now made result counts.old counts.new
        W.contents writer.old writer.new }
    ensures counts { OnOk result (CountsOne counts.old counts.new) }
{
    let answer = counts.count(ending(&made), made.is_ok())?;
    write_in(writer, place, name, made)?;
    Ok(answer)
}

/// Writes the line of a directory, of what came of it; but of one that ends the others nothing.
fn tell_made<W: Write>(
    place: &DirectoryName,
    made: Result<(), Refusal>,
    writer: &mut W,
) -> Result<FileAnswer, Failure>
    ensures tells { TellsMade place.now made result W.contents writer.old writer.new }
{
    match made {
        Ok(()) => {
            writeln!(writer, "{place} made")?;
            Ok(FileAnswer::Done)
        }
        Err(refusal) => tell_unmade(place, refusal, writer),
    }
}

/// The same of one that was refused.
fn tell_unmade<W: Write>(
    place: &DirectoryName,
    refusal: Refusal,
    writer: &mut W,
) -> Result<FileAnswer, Failure>
    ensures tells { TellsMade place.now (Err refusal) result W.contents writer.old writer.new }
{
    if let Some(failure) = ending(&Err(HostRefusal::Files(refusal))) {
        return Err(failure);
    }
    writeln!(writer, "{place} not made {refusal}")?;
    Ok(FileAnswer::Refused)
}

impl<D: Device> Puts<D> {
    ghost use Rattle.f11_commands.specs.PutAll.{MakesOne, PutsOneIn};
    ghost use Rattle.f11_commands.specs.PutCommand.{hosts};
    ghost use Rattle.f11_commands.specs.PutEach.{counts_of};

    /// Makes a directory of this name for its owner, with that protection, as [`carry_out`] does, and writes its line, `PLACE made`, or `PLACE
    /// not made` and the refusal's name. No file is counted. It answers [`FileAnswer::Done`] or [`FileAnswer::Refused`].
    ///
    /// # Errors
    ///
    /// As of [`Puts::put`].
    pub fn make_directory<W: Write>(
        &mut self,
        place: &DirectoryName,
        name: Name,
        owner: Uic,
        protection: u16,
        writer: &mut W,
    ) -> Result<FileAnswer, Failure>
        ensures makes { MakesOne place.now name owner protection result self.old self.new
            W.contents writer.old writer.new }
    {
        let by = Asker {
            task: first_task(),
            lun: first_lun(),
            uic: OPERATOR,
        };
        let action = Action::MakeDirectory {
            name,
            owner,
            protection,
        };
        let made = carry_out(&mut self.volume, &by, MASTER_DIRECTORY, &action);
        tell_made(place, made, writer)
    }

    /// Makes a file as [`Puts::put`] does; its line has `PLACE`, what its directory is called, and a space in front.
    ///
    /// # Errors
    ///
    /// As of [`Puts::put`].
    pub fn put_in<R: Read, W: Write>(
        &mut self,
        place: &DirectoryName,
        put: &Putting,
        host: &mut R,
        again: &mut R,
        bytes: u64,
        writer: &mut W,
    ) -> Result<FileAnswer, Failure>
        ensures puts { PutsOneIn place.now put.now bytes result
            (hosts (R.remaining host.old) (R.remaining again.old))
            (hosts (R.remaining host.new) (R.remaining again.new))
            self.old self.new W.contents writer.old writer.new }
        ensures counts { OnOk result (CountsOne (counts_of self.old) (counts_of self.new)) }
    {
        let made = put_by_name(&mut self.volume, put, host, again, bytes);
        tell_in(place, &put.name, made, &mut self.counts, writer)
    }
}
