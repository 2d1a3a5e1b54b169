//! What is told of several files of a directory that are to be taken out, beside the line of each that is.
ghost use Rattle.std.specs.Prelude.{◌≡◌, IfErr, IfOk, OnOk};
ghost use Rattle.f11_commands.specs.CopyCommand.{refused_line};
ghost use Rattle.f11_commands.specs.Output.{WriterTakes};
ghost use Rattle.f11_commands.specs.Several.{no_host_line, several_answer, several_line};
ghost use Rattle.f11_flx.specs.declared.refusal.FlxRefusal.TheVariants.{Files};

use crate::get::all::left_out::LeftOut;
use crate::outcome::{Answer, Failure};
use f11_rad50::Name;
use f11_store::Refusal;
use std::io::Write;

/// Writes why none is taken out, `no` and the refusal, and answers [`Answer::Fault`].
///
/// # Errors
///
/// [`Failure::CannotWrite`] where the writer takes no more.
pub fn refuse_files<W: Write>(refusal: Refusal, writer: &mut W) -> Result<Answer, Failure>
    ensures refused { IfOk result (λ answer. (answer ≡ Answer.Fault)
        × WriterTakes W.contents writer.old writer.new (refused_line (Files refusal))) }
    ensures failures { IfErr result (λ failure. failure ≡ Failure.CannotWrite) }
{
    writeln!(writer, "no {refusal}")?;
    Ok(Answer::Fault)
}

/// Writes the line of a file for which none of the host can be made: `NAME no file of the host`.
///
/// # Errors
///
/// [`Failure::CannotWrite`] where the writer takes no more.
pub fn refuse_host<W: Write>(name: Name, writer: &mut W) -> Result<(), Failure>
    ensures refused { OnOk result (WriterTakes W.contents writer.old writer.new
        (no_host_line name)) }
    ensures failures { IfErr result (λ failure. failure ≡ Failure.CannotWrite) }
{
    let why = LeftOut::Host;
    writeln!(writer, "{name} {why}")?;
    Ok(())
}

/// Writes the last line, `all N copied, M not copied`, and answers [`Answer::Fault`] where one wasn't.
///
/// # Errors
///
/// [`Failure::CannotWrite`] where the writer takes no more.
pub fn tell_several<W: Write>(
    copied: usize,
    refused: usize,
    writer: &mut W,
) -> Result<Answer, Failure>
    ensures tells { IfOk result (λ answer. (answer ≡ several_answer refused)
        × WriterTakes W.contents writer.old writer.new (several_line copied refused)) }
    ensures failures { IfErr result (λ failure. failure ≡ Failure.CannotWrite) }
{
    writeln!(writer, "all {copied} copied, {refused} not copied")?;
    Ok(if refused == 0 {
        Answer::Done
    } else {
        Answer::Fault
    })
}
