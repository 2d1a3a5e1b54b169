//! Laws of the script language, each the contract of a function that does nothing: they show that the definitions say
//! what is meant.

ghost use Rattle.std.specs.Prelude.{◌≡◌, ◌<◌};
ghost use Rattle.f11_script.specs.Asking as asking;
ghost use Rattle.f11_script.specs.Input.{CutLineIsAlike, HasByte, at_hand, left_of, reader_of};
ghost use Rattle.f11_script.specs.Spelling as spelling;

use crate::input::ScriptReader;
use std::io::Read;

/// The line of a request, spelled as a task, a user's code, a verb and its arguments with single spaces between them, is
/// read as that request.
pub fn spelling()
    ensures { spelling.SpelledIsRead }
{}

/// What a line asks is told by the line alone: the caller's block decides only the block that comes with the request,
/// and of `FILL` and `WRITE` not even that.
pub fn asking()
    ensures alone { asking.LineAsksAlone }
    ensures block { asking.BlockIsPassedOn }
{}

/// A line that a reader hands out is what its whole line is, though a long one is cut short.
pub fn cut_lines()
    ensures { CutLineIsAlike }
{}

/// With none at hand, the bytes that are left are those of the reader; with a byte at hand, one is left.
pub fn at_hand<R: Read>(script: &ScriptReader<R>)
    ensures none { at_hand script.now ≡ 0
        → left_of R.remaining script.now ≡ R.remaining (reader_of script.now) }
    ensures some { 0 < at_hand script.now → HasByte (left_of R.remaining script.now) }
{}
