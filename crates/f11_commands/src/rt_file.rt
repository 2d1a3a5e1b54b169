//! What the commands on one file of an RT-11 volume share.
ghost use Rattle.std.specs.Prelude.{◌≡◌};
ghost use Rattle.rt11_volume.specs.Files.{is_fault};

use rt11_volume::RtRefusal;
use std::io;

/// Why the blocks of a file aren't all moved between an RT-11 volume and a file of the host.
#[derive(Clone, Copy, Debug, PartialEq, Eq)]
pub enum Stop {
    /// The volume refused one.
    Volume(RtRefusal),
    /// The host's file takes no more, or gives no more.
    Host,
}

/// An error of the host's file.
impl From<io::Error> for Stop {
    ghost use Rattle.f11_commands.specs.declared.rt_file.Stop.TheVariants.{Host as HostFile};

    ghost from_gives = { λ _ stop. stop ≡ HostFile };

    fn from(_: io::Error) -> Self {
        Stop::Host
    }
}

/// Whether a refusal is that of a transfer that failed.
pub(crate) fn is_fault(refusal: &RtRefusal) -> bool
    ensures { result ≡ is_fault refusal.now }
{
    matches!(refusal, RtRefusal::DeviceFault)
}
