//! How the answer of a copy is told.
ghost use Rattle.std.specs.Prelude.{◌≡◌};
ghost use Rattle.f11_commands.specs.CopyCommand.{TellsCopy, TellsRefusal, failure_of_refusal};

use crate::outcome::{Failure, FileAnswer};
use f11_flx::FlxRefusal;
use f11_store::Refusal;
use rt11_volume::RtRefusal;
use std::io::Write;

/// Writes the line of a copy, or of its refusal; a refusal that has no line is a failure of the command.
pub fn tell<W: Write>(
    copied: Result<u32, FlxRefusal>,
    writer: &mut W,
) -> Result<FileAnswer, Failure>
    ensures tells { TellsCopy copied result W.contents writer.old writer.new }
{
    match copied {
        Ok(blocks) => {
            writeln!(writer, "copied {blocks}")?;
            Ok(FileAnswer::Done)
        }
        Err(refusal) => tell_refusal(refusal, writer),
    }
}

/// Writes the line of a refusal, if it has one.
fn tell_refusal<W: Write>(refusal: FlxRefusal, writer: &mut W) -> Result<FileAnswer, Failure>
    ensures tells { TellsRefusal refusal (failure_of_refusal refusal) result
        W.contents writer.old writer.new }
{
    if let Some(failure) = failure_of(refusal) {
        return Err(failure);
    }
    writeln!(writer, "no {refusal}")?;
    Ok(FileAnswer::Refused)
}

/// As which failure a refusal is told that has no line.
fn failure_of(refusal: FlxRefusal) -> Option<Failure>
    ensures { result ≡ failure_of_refusal refusal }
{
    match refusal {
        FlxRefusal::Files(Refusal::DeviceFault) => Some(Failure::DeviceFault),
        FlxRefusal::Files(Refusal::NoMemory) => Some(Failure::NoMemory),
        FlxRefusal::Rt(RtRefusal::DeviceFault) => Some(Failure::DeviceFault),
        FlxRefusal::Rt(RtRefusal::NoMemory) => Some(Failure::NoMemory),
        _ => None,
    }
}
