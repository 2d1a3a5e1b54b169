//! Why a copy is refused.

use f11_store::Refusal;
use rt11_volume::RtRefusal;
use std::error::Error;
use std::fmt;

/// Why a copy is refused: the refusal of the first of its steps that is refused.
#[derive(Clone, Copy, Debug, PartialEq, Eq)]
pub enum FlxRefusal {
    /// That of the Files-11 volume.
    Files(Refusal),
    /// That of the RT-11 volume.
    Rt(RtRefusal),
    /// The records of the source can't be read.
    BadRecord,
    /// A line of the source has more than 2,048 bytes.
    LineTooLong,
    /// The source gave fewer bytes than it had, or others where it was read again: a file of the host may, no volume does.
    Unread,
}

impl fmt::Display for FlxRefusal {
    ghost use Rattle.std.specs.Prelude.{Some};
    ghost use Rattle.f11_flx.specs.Refusal.{flx_refusal_name};

    ghost output = { λ refusal. Some (flx_refusal_name refusal) };

    /// Writes the refusal's name, that of the volume where it is one's (profile).
    fn fmt<W: fmt::Write>(&self, f: &mut fmt::Formatter<W>) -> fmt::Result {
        match self {
            FlxRefusal::Files(refusal) => write!(f, "{refusal}"),
            FlxRefusal::Rt(refusal) => write!(f, "{refusal}"),
            FlxRefusal::BadRecord => write!(f, "BadRecord"),
            FlxRefusal::LineTooLong => write!(f, "LineTooLong"),
            FlxRefusal::Unread => write!(f, "Unread"),
        }
    }
}

impl Error for FlxRefusal {}
