//! The command `rights`.
ghost use Rattle.std.specs.Prelude.{◌≡◌, IfErr, IfOk, OnOk};
ghost use Rattle.f11_store.specs.Rights.{may};
ghost use Rattle.f11_commands.specs.Rights.{letter_or_hyphen, rights_line};
ghost use Rattle.f11_commands.specs.Output.{WriterTakes};

use crate::outcome::{Answer, Failure};
use f11_store::{Right, Uic, may};
use std::io::Write;

/// Writes the line of a caller's rights to a file with this owner and protection word: the letters `RWED`, for reading,
/// writing, extending and deleting, with `-` in place of each right that is missing (Files-11 On-Disk Structure Level
/// 1, file protection).
///
/// # Errors
///
/// [`Failure::CannotWrite`] where the writer takes no more: then it may hold a part of the line.
pub fn print_rights<W: Write>(
    caller: Uic,
    owner: Uic,
    protection: u16,
    writer: &mut W,
) -> Result<Answer, Failure>
    ensures done { IfOk result (λ answer. answer ≡ Answer.Done) }
    ensures line { OnOk result (WriterTakes W.contents writer.old writer.new
        (rights_line caller owner protection)) }
    ensures failures { IfErr result (λ failure. failure ≡ Failure.CannotWrite) }
{
    writer.write_all(&[
        letter(caller, owner, protection, Right::Read, b'R'),
        letter(caller, owner, protection, Right::Write, b'W'),
        letter(caller, owner, protection, Right::Extend, b'E'),
        letter(caller, owner, protection, Right::Delete, b'D'),
        b'\n',
    ])?;
    Ok(Answer::Done)
}

/// The letter where the caller has the right, and a hyphen where it is missing.
fn letter(caller: Uic, owner: Uic, protection: u16, right: Right, letter: u8) -> u8
    ensures { result ≡ letter_or_hyphen (may caller owner protection right) letter }
{
    if may(caller, owner, protection, right) {
        letter
    } else {
        b'-'
    }
}
