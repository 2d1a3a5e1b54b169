//! What the line of a file says that was taken out.
ghost use Rattle.std.specs.Prelude.{Some};

use f11_flx::FlxRefusal;
use f11_rad50::Name;
use std::fmt;

/// What a line begins with: the name of its file, or nothing.
#[derive(Clone, Copy)]
pub(crate) struct Called(pub(crate) Option<Name>);

impl fmt::Display for Called {
    ghost use Rattle.f11_commands.specs.GetCommand.{called_text};

    ghost output = { λ called. Some (called_text called.0) };

    fn fmt<W: fmt::Write>(&self, f: &mut fmt::Formatter<W>) -> fmt::Result {
        match self.0 {
            Some(name) => write!(f, "{name} "),
            None => Ok(()),
        }
    }
}

/// What a line says of a file that was taken out, before it tells which blocks aren't there.
#[derive(Clone, Copy)]
pub(crate) enum Told {
    /// How many bytes the host was given.
    Copied(u64),
    /// Its records can't all be read.
    BadRecords,
}

impl fmt::Display for Told {
    ghost use Rattle.f11_commands.specs.GetCommand.{told_text};

    ghost output = { λ told. Some (told_text told) };

    fn fmt<W: fmt::Write>(&self, f: &mut fmt::Formatter<W>) -> fmt::Result {
        match self {
            Told::Copied(count) => write!(f, "copied {count} bytes"),
            Told::BadRecords => {
                let refusal = FlxRefusal::BadRecord;
                write!(f, "no {refusal}")
            }
        }
    }
}
