//! What a line asks.

ghost use Rattle.std.specs.Prelude.{◌≡◌, IfNone, option_map};
ghost use Rattle.f11_script.specs.Reading.{Gives, words_left};
ghost use Rattle.f11_script.specs.Lines as specs;

use crate::fields;
use crate::verb::Verb;
use crate::words::Words;
use f11_bytes::Block;
use f11_store::{Request, Task, Uic};

/// The most bytes of a line, without the line feed at its end and a carriage return before it.
const LONGEST: usize = 1200;

/// What a line of a script is (profile).
#[derive(Clone, Copy, PartialEq, Eq, Debug)]
pub enum Parsed {
    /// An empty line or a comment: it asks nothing, and isn't answered.
    Nothing,
    /// A line that is none of the script language.
    Bad,
    /// A request.
    Asks {
        /// The task that asks.
        task: Task,
        /// The user for whom it asks.
        caller: Uic,
        /// The request.
        request: Request,
    },
}

/// What a line asks.
///
/// The line comes without the line feed at its end and a carriage return before it. One of more than 1,200 bytes is
/// [`Parsed::Bad`], a comment too. `FILL` and `WRITE` fill the block, which holds for their request; every other line
/// leaves it as it is.
///
/// A line is a task, 0 to 7, a user's code as `[g,m]`, a verb and its arguments, with single spaces between them
/// (profile):
///
/// ```text
/// CREATE name word      EXTEND lun n           CONTIG lun n      TRUNCATE lun n
/// DELETE f              GROW n                 ACCESS f mode lun CLOSE lun
/// RELEASE               READ lun vbn
/// FILL lun vbn octal    WRITE lun vbn hex      FIND d name       ENTER d name f
/// REMOVE d name         ATTR f                 PROTECT f word    SPACE
/// SETATTR f rtyp ratt rsiz hibk efbk ffby
/// ```
pub fn parse(line: &[u8], block: &mut Block) -> Parsed
    ensures exact { specs.line_parsed result block.new ≡ specs.line_of line.now block.old }
    ensures stays { specs.KeepsBlock result block.old block.new }
{
    if line.len() > LONGEST {
        return Parsed::Bad;
    }
    if is_comment(line) {
        return Parsed::Nothing;
    }
    match call(Words::of(line), block) {
        Some(parsed) => parsed,
        None => Parsed::Bad,
    }
}

/// Whether a line is empty or a comment.
fn is_comment(line: &[u8]) -> bool
    ensures { result ≡ specs.is_comment line.now }
{
    line.is_empty() || line[0] == b';'
}

/// The request of a line's words.
#[tactic(auto, unfolding(crate::specs::Lines::call_of))]
fn call(words: Words<'_>, block: &mut Block) -> Option<Parsed>
    ensures exact { Gives (λ parsed. specs.line_parsed parsed block.new) result
        (option_map specs.request_line (specs.call_of (words_left words.entry) block.old)) }
    ensures stays { IfNone result (block.new ≡ block.old) }
{
    let (word, words) = words.next()?;
    let task = fields::task(word)?;
    let (word, words) = words.next()?;
    let caller = fields::uic(word)?;
    let (word, words) = words.next()?;
    let verb = Verb::of(word)?;
    let request = words.request(verb, block)?;
    Some(Parsed::Asks {
        task,
        caller,
        request,
    })
}
