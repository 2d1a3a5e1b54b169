//! Why a call on a volume's files is refused.
ghost use Rattle.std.specs.Prelude.{◌≡◌};
ghost use Rattle.rt11_volume.specs.declared.refusal.RtRefusal.TheVariants.{DeviceFault as Fault, NoMemory as Lack};

use f11_bytes::NoMemory;
use f11_dev::DeviceFault;
use std::error::Error;
use std::fmt;

/// Why a call on a volume's files is refused, in the order in which the causes are judged (profile).
///
/// A refusal but `DeviceFault` changes nothing.
#[derive(Clone, Copy, Debug, PartialEq, Eq, Hash)]
pub enum RtRefusal {
    /// An earlier call answered `DeviceFault`.
    Failed,
    /// There is no file with that name.
    NoSuchFile,
    /// The file has no block at that place.
    EndOfFile,
    /// The file is protected.
    Protected,
    /// There is a file with that name.
    DuplicateName,
    /// No empty area is so long.
    NoSpace,
    /// One more entry is needed, for which there is no room, and each segment is in use.
    DirectoryFull,
    /// There was no memory.
    NoMemory,
    /// A transfer failed.
    DeviceFault,
}

impl fmt::Display for RtRefusal {
    ghost use Rattle.std.specs.Prelude.{Some};
    ghost use Rattle.rt11_volume.specs.Refusal.{refusal_name};

    ghost output = { λ refusal. Some (refusal_name refusal) };

    fn fmt<W: fmt::Write>(&self, f: &mut fmt::Formatter<W>) -> fmt::Result {
        match self {
            RtRefusal::Failed => write!(f, "Failed"),
            RtRefusal::NoSuchFile => write!(f, "NoSuchFile"),
            RtRefusal::EndOfFile => write!(f, "EndOfFile"),
            RtRefusal::Protected => write!(f, "Protected"),
            RtRefusal::DuplicateName => write!(f, "DuplicateName"),
            RtRefusal::NoSpace => write!(f, "NoSpace"),
            RtRefusal::DirectoryFull => write!(f, "DirectoryFull"),
            RtRefusal::NoMemory => write!(f, "NoMemory"),
            RtRefusal::DeviceFault => write!(f, "DeviceFault"),
        }
    }
}

impl Error for RtRefusal {}

impl From<DeviceFault> for RtRefusal {
    ghost from_gives = { λ _ refusal. refusal ≡ Fault };

    fn from(_: DeviceFault) -> Self {
        RtRefusal::DeviceFault
    }
}

impl From<NoMemory> for RtRefusal {
    ghost from_gives = { λ _ refusal. refusal ≡ Lack };

    fn from(_: NoMemory) -> Self {
        RtRefusal::NoMemory
    }
}
