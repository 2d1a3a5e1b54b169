ghost use Rattle.std.specs.Prelude.{Some, codes};

use std::error::Error;
use std::fmt;

/// A byte that Radix-50 has no code for.
#[derive(Clone, Copy, Debug, PartialEq, Eq)]
pub struct BadCharacter;

impl fmt::Display for BadCharacter {
    ghost output = { λ _. Some (codes "not a character of Radix-50") };

    fn fmt<W: fmt::Write>(&self, f: &mut fmt::Formatter<W>) -> fmt::Result {
        write!(f, "not a character of Radix-50")
    }
}

impl Error for BadCharacter {}

/// A text that is not the name of a file.
#[derive(Clone, Copy, Debug, PartialEq, Eq)]
pub struct BadName;

impl fmt::Display for BadName {
    ghost output = { λ _. Some (codes "bad name") };

    fn fmt<W: fmt::Write>(&self, f: &mut fmt::Formatter<W>) -> fmt::Result {
        write!(f, "bad name")
    }
}

impl Error for BadName {}
