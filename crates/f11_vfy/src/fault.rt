//! Why a volume could not be read.
ghost use Rattle.std.specs.Prelude.{◌≡◌};
ghost use Rattle.f11_vfy.specs.declared.fault.ReadFault.TheVariants.{DeviceFault as Fault, NoMemory as Lack};

use f11_bytes::NoMemory;
use f11_dev::DeviceFault;

/// Why a volume could not be read.
#[derive(Clone, Copy, Debug, PartialEq, Eq)]
pub enum ReadFault {
    /// A transfer failed.
    DeviceFault,
    /// There was no memory, or a list of findings is full.
    NoMemory,
}

impl From<DeviceFault> for ReadFault {
    ghost from_gives = { λ _ fault. fault ≡ Fault };

    fn from(_: DeviceFault) -> Self {
        ReadFault::DeviceFault
    }
}

impl From<NoMemory> for ReadFault {
    ghost from_gives = { λ _ fault. fault ≡ Lack };

    fn from(_: NoMemory) -> Self {
        ReadFault::NoMemory
    }
}
