//! A volume that serves scripts.
ghost use Rattle.f11_fcp.specs.Lists.{ServesCall};
ghost use Rattle.f11_fcp.specs.Serving.{RequestsSpareLost, StaysAccepted, state_in};
ghost use Rattle.f11_serving.specs.Answering.{AnswersScript};
ghost use Rattle.f11_serving.specs.Scripts.{KeepsScriptCosts, ServesScriptRun};
ghost use Rattle.f11_serving.specs.Serving.{RunsScript};

use crate::script::serve_lines;
use f11_dev::Device;
use f11_fcp::Volume;
use f11_script::{ScriptError, ScriptReader};
use std::io::{Read, Write};

/// Serves the requests of a script, one line after another, and gives their number, refused ones too (profile).
///
/// An empty line and a comment are passed over, a bad line is answered `bad line`, and a request is served and answered before
/// the next line is read. The first request is lent a block of zeros, each later one the block as the last one left it. It
/// takes no memory but for slots of the index file, by `GrowIndex` or first, for headers of others. A request that fails the
/// volume ends nothing: the later ones are answered so. Blocks are written in order, so that a stop between two writes leaves an
/// accepted volume, and no block is changed that was lost before.
///
/// # Errors
///
/// [`ScriptError::ReadFault`] where the reader fails, and [`ScriptError::TooLong`] at byte 16,777,217: then each whole line
/// before that was served, and its answer written. [`ScriptError::WriteFault`] where the writer fails: then each line up to
/// one was served, and all answers written but some last bytes of that one's.
pub fn run_script<D: Device, R: Read + Drop, W: Write>(
    reader: R,
    writer: &mut W,
    volume: &mut Volume<D>,
) -> Result<u32, ScriptError>
    ensures serves { RunsScript ServesCall (R.remaining reader) volume.old volume.new
        (W.contents writer.old) (W.contents writer.new) result }
    ensures answers { AnswersScript volume.old volume.new (R.remaining reader)
        (W.contents writer.old) (W.contents writer.new) result }
    ensures run { ServesScriptRun volume.old volume.new (R.remaining reader)
        (W.contents writer.old) (W.contents writer.new) result }
    ensures costs { KeepsScriptCosts volume.old volume.new (R.remaining reader)
        (W.contents writer.old) (W.contents writer.new) result }
    ensures accepted { StaysAccepted (state_in volume.new) }
    ensures lost { RequestsSpareLost volume.old volume.new }
{
    let mut script = ScriptReader::new(reader);
    serve_lines(&mut script, writer, volume)
}
