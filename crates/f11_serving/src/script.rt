//! Scripts, served line by line.

ghost use Rattle.std.specs.Prelude.{◌≡◌};
ghost use Rattle.f11_script.specs.Input.{left_of, number_read};
ghost use Rattle.f11_serving.specs.Serving.{AnswersLine, ServesScript, place_of};

use f11_bytes::{BLOCK_SIZE, Block};
use f11_making::Asked;
use f11_script::{Line, Parsed, ScriptError, ScriptReader, bad_line, parse, reply};
use std::io::{Read, Write};

/// Answers a line, and tells whether it was a request.
fn answer_line<W: Write, S: Asked>(
    line: &[u8],
    block: &mut Block,
    writer: &mut W,
    service: &mut S,
) -> Result<bool, ScriptError>
    ensures answers { AnswersLine S.service.serves line.now service.old service.new block.old block.new
        (W.contents writer.old) (W.contents writer.new) result }
{
    match parse(line, block) {
        Parsed::Nothing => Ok(false),
        Parsed::Bad => match bad_line(writer) {
            Ok(()) => Ok(false),
            Err(error) => Err(error),
        },
        Parsed::Asks {
            task,
            caller,
            request,
        } => {
            let answer = service.serve(task, caller, &request, block);
            reply(writer, &request, &answer, block)?;
            Ok(true)
        }
    }
}

/// Serves a script from its beginning, line by line, and gives the number of its requests, refused ones too (profile).
///
/// An empty line and a comment are passed over, a bad line is answered `bad line`, and a request is served and answered
/// before the next line is read. The first request is lent a block of zeros, each later one the block as the last one left
/// it. It takes no memory but what the service takes.
///
/// # Errors
///
/// [`ScriptError::ReadFault`] where the reader fails, and [`ScriptError::TooLong`] at byte 16,777,217: then each whole line
/// before that was served, and its answer written. [`ScriptError::WriteFault`] where the writer fails: then each line up to
/// one was served, and all answers written but some last bytes of that one's.
pub fn serve_lines<R: Read, W: Write, S: Asked>(
    script: &mut ScriptReader<R>,
    writer: &mut W,
    service: &mut S,
) -> Result<u32, ScriptError>
    requires begins { number_read script.old ≡ 0 }
    ensures serves { ServesScript S.service.serves (left_of R.remaining script.old)
        (place_of R.remaining script.new) service.old service.new (W.contents writer.old)
        (W.contents writer.new) result }
{
    let mut line = Line::new();
    let mut block = [0; BLOCK_SIZE];
    let mut count = 0;
    loop {
        match script.read_line(&mut line) {
            Err(error) => return Err(error),
            Ok(more) => {
                if !more {
                    return Ok(count);
                }
            }
        }
        let asked = answer_line(line.as_slice(), &mut block, writer, service)?;
        if asked {
            count += 1;
        }
    }
}
