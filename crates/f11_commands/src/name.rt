//! The command `name`, and what commands say of a text that is no name.
ghost use Rattle.std.specs.Prelude.{◌≡◌, ℕ, List, IfErr, IfOk, OnOk};
ghost use Rattle.f11_rad50.specs.Name.{Spells};
ghost use Rattle.f11_commands.specs.Name.{PrintsBadName, PrintsName, PrintsWords, bad_name_line, words_line};
ghost use Rattle.f11_commands.specs.Output.{WriterTakes};

use crate::outcome::{Answer, Failure};
use f11_rad50::{BadName, Name};
use std::io::{self, Write};

/// Writes the line of a file's name, `words` and its five words: the three of its characters and that of its type
/// in Radix-50, and its version, in decimal (Files-11 On-Disk Structure Level 1, file names).
///
/// Where the text is no name it writes `bad name`, and answers [`Answer::Fault`].
///
/// # Errors
///
/// [`Failure::CannotWrite`] where the writer takes no more: then it may hold a part of the line.
pub fn print_name<W: Write>(text: &str, writer: &mut W) -> Result<Answer, Failure>
    ensures done { result ≡ Ok Answer.Done → PrintsName text.now W.contents writer.old writer.new }
    ensures fault { result ≡ Ok Answer.Fault
        → PrintsBadName text.now W.contents writer.old writer.new }
    ensures every { (words : List ℕ) → Spells text.now words
        → IfOk result (PrintsWords words W.contents writer.old writer.new) }
    ensures failures { IfErr result (λ failure. failure ≡ Failure.CannotWrite) }
{
    match Name::parse(text.as_bytes()) {
        Ok(name) => {
            write_words(name.words(), writer)?;
            Ok(Answer::Done)
        }
        Err(BadName) => {
            writeln!(writer, "bad name")?;
            Ok(Answer::Fault)
        }
    }
}

/// Writes the line of a name's five words.
fn write_words<W: Write>(words: [u16; 5], writer: &mut W) -> io::Result<()>
    ensures { OnOk result (WriterTakes W.contents writer.old writer.new (words_line words)) }
{
    let [first, second, third, kind, version] = words;
    writeln!(writer, "words {first} {second} {third} {kind} {version}")
}

/// Writes the line `bad name`, and answers [`Answer::Fault`].
///
/// # Errors
///
/// [`Failure::CannotWrite`] where the writer takes no more.
pub fn refuse_names<W: Write>(writer: &mut W) -> Result<Answer, Failure>
    ensures refused { IfOk result (λ answer. (answer ≡ Answer.Fault)
        × WriterTakes W.contents writer.old writer.new bad_name_line) }
    ensures failures { IfErr result (λ failure. failure ≡ Failure.CannotWrite) }
{
    writeln!(writer, "bad name")?;
    Ok(Answer::Fault)
}
