//! The name of the file that is taken out.
ghost use Rattle.std.specs.Prelude.{◌≡◌, IfErr, IfOk, map};
ghost use Rattle.std.specs.Char.{to_ascii_uppercase};
ghost use Rattle.f11_rad50.specs.Name.{words_spelled};

use crate::outcome::Failure;
use f11_rad50::Name;
use std::alloc::Global;

/// The name that a text spells, whose lower-case letters count as upper-case ones; nothing where it spells none.
///
/// # Errors
///
/// [`Failure::NoMemory`] where there was no memory for the text in upper case.
pub fn read_name(alloc: Global, text: &str) -> Result<Option<Name>, Failure>
    ensures name { IfOk result (λ found. found
        ≡ words_spelled (map to_ascii_uppercase text.now)) }
    ensures failures { IfErr result (λ failure. failure ≡ Failure.NoMemory) }
{
    match text.to_ascii_uppercase(alloc) {
        Ok(text) => Ok(Name::parse(text.as_bytes()).ok()),
        Err(_) => Err(Failure::NoMemory),
    }
}
