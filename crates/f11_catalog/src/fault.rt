//! Why a listing, a walk over all files or a look for names breaks off.
ghost use Rattle.std.specs.Prelude.{◌≡◌};
ghost use Rattle.f11_catalog.specs.declared.fault.WalkFault.TheVariants as faults;

use f11_bytes::NoMemory;
use f11_dev::DeviceFault;

/// Why a listing breaks off.
#[derive(Clone, Copy, Debug, PartialEq, Eq)]
pub enum ListFault {
    /// A transfer failed.
    DeviceFault,
    /// The writer takes no more.
    CannotWrite,
}

/// Why a walk over all files can't begin, or names aren't told.
#[derive(Clone, Copy, Debug, PartialEq, Eq)]
pub enum WalkFault {
    /// A transfer failed.
    DeviceFault,
    /// There was no memory.
    NoMemory,
}

impl From<DeviceFault> for WalkFault {
    ghost from_gives = { λ _ fault. fault ≡ faults.DeviceFault };

    fn from(_: DeviceFault) -> Self {
        WalkFault::DeviceFault
    }
}

impl From<NoMemory> for WalkFault {
    ghost from_gives = { λ _ fault. fault ≡ faults.NoMemory };

    fn from(_: NoMemory) -> Self {
        WalkFault::NoMemory
    }
}
