//! Why a call along a file's headers has no answer.
ghost use Rattle.std.specs.Prelude.{◌≡◌};
ghost use Rattle.f11_chain.specs.declared.fault.ChainFault.TheVariants.{DeviceFault as Fault};

use f11_dev::DeviceFault;
use std::error::Error;
use std::fmt;

/// Why a call along a file's headers has no answer.
#[derive(Clone, Copy, Debug, PartialEq, Eq, Hash)]
pub enum ChainFault {
    /// The file has fewer blocks.
    EndOfFile,
    /// A transfer failed.
    DeviceFault,
    /// A header or a link isn't as it should be.
    Damaged,
}

impl fmt::Display for ChainFault {
    ghost use Rattle.std.specs.Prelude.{Some};
    ghost use Rattle.f11_chain.specs.ChainFault.{chain_fault_text};

    ghost output = { λ fault. Some (chain_fault_text fault) };

    fn fmt<W: fmt::Write>(&self, f: &mut fmt::Formatter<W>) -> fmt::Result {
        match self {
            ChainFault::EndOfFile => write!(f, "end of file"),
            ChainFault::DeviceFault => write!(f, "device fault"),
            ChainFault::Damaged => write!(f, "damaged"),
        }
    }
}

impl Error for ChainFault {}

impl From<DeviceFault> for ChainFault {
    ghost from_gives = { λ _ fault. fault ≡ Fault };

    fn from(_: DeviceFault) -> Self {
        ChainFault::DeviceFault
    }
}
