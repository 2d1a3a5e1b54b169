//! The lines of answers, written.

ghost use Rattle.std.specs.Prelude.{◌≡◌, ◌<◌, ◌≤◌, IfErr, OnErr, OnOk, MatchResult, length, take};
ghost use Rattle.std.specs.Io.KnownBytes.{Appends, Keeps};
ghost use Rattle.f11_script.specs.Answers.{AppendsSome, answer_line, bad_line_text};

use crate::answer::answer_line;
use crate::errors::{ScriptError, TRIES};
use f11_bytes::Block;
use f11_store::{Refusal, Reply, Request};
use std::io::{ErrorKind, Write};

/// Writes the line of an answer to a request, with the caller's block after it.
///
/// `ok` and what the request is told, or `no` and the name of the refusal (profile). A block that was read is written
/// in lower-case hex up to its last byte that isn't 0, or as `-`.
///
/// # Errors
///
/// [`ScriptError::WriteFault`] where the writer takes no more, or where it was interrupted more than 65,536 times in a
/// row: then it may hold some first bytes of the line.
pub fn reply<W: Write>(
    writer: &mut W,
    request: &Request,
    answer: &Result<Reply, Refusal>,
    block: &Block,
) -> Result<(), ScriptError>
    ensures done { OnOk result (Appends (W.contents writer.old) (W.contents writer.new)
        (answer_line request.now block.now answer.now)) }
    ensures failed { OnErr result (AppendsSome (W.contents writer.old) (W.contents writer.new)
        (answer_line request.now block.now answer.now)) }
    ensures error { IfErr result (λ e. e ≡ ScriptError.WriteFault) }
{
    let line = answer_line(request, answer, block);
    put(writer, line.as_slice())
}

/// Writes the line that answers a bad line, `bad line`.
///
/// # Errors
///
/// As [`reply`].
pub fn bad_line<W: Write>(writer: &mut W) -> Result<(), ScriptError>
    ensures done { OnOk result
        (Appends (W.contents writer.old) (W.contents writer.new) bad_line_text) }
    ensures failed { OnErr result
        (AppendsSome (W.contents writer.old) (W.contents writer.new) bad_line_text) }
    ensures error { IfErr result (λ e. e ≡ ScriptError.WriteFault) }
{
    put(writer, b"bad line\n")
}

/// Writes all bytes.
fn put<W: Write>(writer: &mut W, bytes: &[u8]) -> Result<(), ScriptError>
    ensures done { OnOk result (Appends (W.contents writer.old) (W.contents writer.new) bytes.now) }
    ensures failed { OnErr result
        (AppendsSome (W.contents writer.old) (W.contents writer.new) bytes.now) }
    ensures error { IfErr result (λ e. e ≡ ScriptError.WriteFault) }
{
    let mut at = 0;
    while at < bytes.len() {
        at += put_some(writer, &bytes[at..])?;
    }
    Ok(())
}

/// Writes some first bytes, at least one, and gives their number; an interrupted write is tried again.
fn put_some<W: Write>(writer: &mut W, bytes: &[u8]) -> Result<usize, ScriptError>
    ensures written { MatchResult result
        (λ n. (0 < n) × (n ≤ length bytes.now)
        × Appends (W.contents writer.old) (W.contents writer.new) (take n bytes.now))
        (λ e. (e ≡ ScriptError.WriteFault)
        × Keeps (W.contents writer.old) (W.contents writer.new)) }
{
    for _ in 0..=TRIES {
        match writer.write(bytes) {
            Ok(0) => return Err(ScriptError::WriteFault),
            Ok(n) => return Ok(n),
            Err(error) => {
                if error.kind() != ErrorKind::Interrupted {
                    return Err(ScriptError::WriteFault);
                }
            }
        }
    }
    Err(ScriptError::WriteFault)
}
