//! How many files of the host were put on a volume of either system, one after another, and how that is told.
ghost use Rattle.std.specs.Prelude.{◌≡◌, IfErr, IfOk, None, Some};
ghost use Rattle.f11_commands.specs.PuttingCounts.{TellsCounts, TellsLeftOut, answer_if, counted, counts_line, has_refused, left_out_line, no_files};

use crate::get::all::counts::count_if;
use crate::outcome::{Failure, FileAnswer};
use std::fmt;
use std::io::Write;

/// How many files were made, and how many weren't. A count that reaches `u64::MAX` stays.
#[derive(Clone, Copy, Debug, PartialEq, Eq)]
pub(crate) struct PutCounts {
    pub(crate) made: u64,
    pub(crate) refused: u64,
}

/// Why nothing is asked of the volume for a file of the host.
#[derive(Clone, Copy, Debug, PartialEq, Eq)]
pub enum Unput {
    /// Its name can't be that of a file of the volume.
    BadName,
    /// It can't be opened.
    CannotOpen,
}

impl fmt::Display for Unput {
    ghost use Rattle.std.specs.Prelude.{Some};
    ghost use Rattle.f11_commands.specs.PuttingCounts.{unput_text};

    ghost output = { λ why. Some (unput_text why) };

    /// Writes `BadName` or `CannotOpen` (profile).
    fn fmt<W: fmt::Write>(&self, f: &mut fmt::Formatter<W>) -> fmt::Result {
        f.write_str(match self {
            Unput::BadName => "BadName",
            Unput::CannotOpen => "CannotOpen",
        })
    }
}

impl PutCounts {
    /// None so far.
    pub(crate) fn none() -> PutCounts
        ensures { result ≡ no_files }
    {
        PutCounts {
            made: 0,
            refused: 0,
        }
    }

    /// One more file was made, or wasn't.
    fn add(&mut self, is_made: bool)
        ensures { self.new ≡ counted is_made self.old }
    {
        *self = PutCounts {
            made: count_if(self.made, is_made),
            refused: count_if(self.refused, !is_made),
        };
    }

    /// Counts a file, and answers whether it was made.
    ///
    /// # Errors
    ///
    /// The failure behind which no other file is made, where there is one: then it isn't counted.
    pub(crate) fn count(
        &mut self,
        ending: Option<Failure>,
        is_made: bool,
    ) -> Result<FileAnswer, Failure>
        ensures counted { IfOk result (λ answer. (ending ≡ None) × (answer ≡ answer_if is_made)
            × (self.new ≡ counted is_made self.old)) }
        ensures ended { IfErr result (λ failure. (ending ≡ Some failure) × (self.new ≡ self.old)) }
    {
        if let Some(failure) = ending {
            return Err(failure);
        }
        self.add(is_made);
        if is_made {
            Ok(FileAnswer::Done)
        } else {
            Ok(FileAnswer::Refused)
        }
    }

    /// Counts a file of the host for which nothing is asked of the volume as one that isn't made, and writes its line, `HOST no` and why.
    pub(crate) fn leave_out<W: Write>(
        &mut self,
        host: &str,
        why: Unput,
        writer: &mut W,
    ) -> Result<(), Failure>
        ensures leaves { TellsLeftOut host.now why result self.old self.new
            W.contents writer.old writer.new }
    {
        self.add(false);
        writeln!(writer, "{host} no {why}")?;
        Ok(())
    }

    /// Whether one of the files wasn't made.
    pub(crate) fn has_refused(self) -> bool
        ensures { result ≡ has_refused self }
    {
        self.refused != 0
    }
}

/// Writes the last line: how many were made, and how many weren't.
pub(crate) fn tell_counts<W: Write>(
    counts: PutCounts,
    writer: &mut W,
) -> Result<FileAnswer, Failure>
    ensures tells { TellsCounts counts result W.contents writer.old writer.new }
{
    let (made, refused) = (counts.made, counts.refused);
    writeln!(writer, "all {made} copied, {refused} not copied")?;
    if refused == 0 {
        Ok(FileAnswer::Done)
    } else {
        Ok(FileAnswer::Refused)
    }
}
