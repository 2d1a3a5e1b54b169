//! Why an index file could not be loaded.
ghost use Rattle.std.specs.Prelude.{◌≡◌};
ghost use Rattle.f11_index.specs.declared.fault.IndexFault.TheVariants.{DeviceFault as Fault, NoMemory as Lack};

use f11_bytes::NoMemory;
use f11_dev::DeviceFault;
use std::error::Error;
use std::fmt;

/// Why an index file could not be loaded.
#[derive(Clone, Copy, Debug, PartialEq, Eq, Hash)]
pub enum IndexFault {
    /// The index file is misplaced: slot 1 isn't in use, header 1 isn't that of the file 1,1, a link of its headers isn't
    /// to the next one, a pointer leaves the device, or one of its first blocks isn't where it should be.
    Misplaced,
    /// The bit of this number is 1 and there is no such slot. No lower number is one.
    PastSlots(u32),
    /// A transfer failed.
    DeviceFault,
    /// There was no memory.
    NoMemory,
}

impl fmt::Display for IndexFault {
    ghost use Rattle.std.specs.Prelude.{Some};
    ghost use Rattle.f11_index.specs.IndexFault.{index_fault_text};

    ghost output = { λ fault. Some (index_fault_text fault) };

    fn fmt<W: fmt::Write>(&self, f: &mut fmt::Formatter<W>) -> fmt::Result {
        match self {
            IndexFault::Misplaced => write!(f, "index file misplaced"),
            IndexFault::PastSlots(n) => write!(f, "index bit {n} past the slots"),
            IndexFault::DeviceFault => write!(f, "device fault"),
            IndexFault::NoMemory => write!(f, "no memory"),
        }
    }
}

impl Error for IndexFault {}

impl From<DeviceFault> for IndexFault {
    ghost from_gives = { λ _ fault. fault ≡ Fault };

    fn from(_: DeviceFault) -> Self {
        IndexFault::DeviceFault
    }
}

impl From<NoMemory> for IndexFault {
    ghost from_gives = { λ _ fault. fault ≡ Lack };

    fn from(_: NoMemory) -> Self {
        IndexFault::NoMemory
    }
}
