//! Why no file is made of one of the host.
ghost use Rattle.std.specs.Prelude.{◌≡◌};
ghost use Rattle.f11_host.specs.Refusal.{of_copy};

use f11_flx::FlxRefusal;
use f11_store::Refusal;

/// Why no file is made of one of the host.
#[derive(Clone, Copy, Debug, PartialEq, Eq)]
pub enum HostRefusal {
    /// The volume refused something.
    Files(Refusal),
    /// The host's file couldn't be read to its length, or as a text twice alike.
    Unread,
    /// A line of a text has more than 2,048 bytes.
    LineTooLong,
}

/// As which refusal one is told: one of the volume as it is, a line that is too long as such, and any other as a file that couldn't be read.
pub fn told(refusal: FlxRefusal) -> HostRefusal
    ensures { result ≡ of_copy refusal }
{
    match refusal {
        FlxRefusal::Files(refusal) => HostRefusal::Files(refusal),
        FlxRefusal::Rt(_) => HostRefusal::Unread,
        FlxRefusal::BadRecord => HostRefusal::Unread,
        FlxRefusal::LineTooLong => HostRefusal::LineTooLong,
        FlxRefusal::Unread => HostRefusal::Unread,
    }
}
