//! A volume's home block and index file, found for a command.
ghost use Rattle.std.specs.Prelude.{◌≡◌, ◌⊎◌, IfOk, IfErr, IsErrOf};
ghost use Rattle.f11_dev.specs.Looked.{Looked};
ghost use Rattle.f11_index.specs.Kept.{index_kept};
ghost use Rattle.f11_commands.specs.DumpCommand.{FindsIndex, FindsFault, index_reads};
ghost use Rattle.f11_commands.specs.AnyVolume.{FindsVolume, Hinders};

use crate::outcome::Failure;
use crate::report::files11::FaultText;
use f11_dev::Device;
use f11_findings::Finding;
use f11_home::{Home, HomeFault, find};
use f11_index::{IndexFault, IndexFile};
use std::alloc::Global;
use std::fmt;

/// What is wrong with a volume before its headers are looked at. Its text is that of the verifier's line.
#[derive(Clone, Copy, Debug, PartialEq, Eq)]
pub enum VolumeFault {
    /// There is no home block.
    NoHome,
    /// The index file isn't where it should be.
    IndexMisplaced,
    /// The bit of this number is 1 and there is no such slot.
    PastSlots(u32),
}

impl VolumeFault {
    ghost use Rattle.f11_commands.specs.DumpCommand.{fault_found};

    /// What the verifier finds of such a volume.
    fn finding(self) -> Finding
        ensures { result ≡ fault_found self }
    {
        match self {
            VolumeFault::NoHome => Finding {
                code: 1,
                a: 0,
                b: 0,
            },
            VolumeFault::IndexMisplaced => Finding {
                code: 2,
                a: 0,
                b: 0,
            },
            VolumeFault::PastSlots(n) => Finding {
                code: 6,
                a: n,
                b: 0,
            },
        }
    }
}

impl fmt::Display for VolumeFault {
    ghost use Rattle.std.specs.Prelude.{Some};
    ghost use Rattle.f11_commands.specs.DumpCommand.{volume_fault_text};

    ghost output = { λ fault. Some (volume_fault_text fault) };

    fn fmt<W: fmt::Write>(&self, f: &mut fmt::Formatter<W>) -> fmt::Result {
        write!(f, "{}", FaultText(self.finding()))
    }
}

/// Finds the home block of a device and loads the index file, or says what is wrong with the volume.
///
/// # Errors
///
/// [`Failure::DeviceFault`] where a transfer failed, and [`Failure::NoMemory`] where there was no memory.
pub(crate) fn find_index<D: Device>(
    alloc: Global,
    device: &mut D,
) -> Result<Result<(Home, IndexFile), VolumeFault>, Failure>
    ensures found { IfOk result (λ answer. IfOk answer (λ found.
        FindsIndex found.0 (index_kept found.1) (D.disk device.old) (D.disk device.new))) }
    ensures fault { IfOk result (λ answer. IfErr answer (λ fault.
        FindsFault fault (D.disk device.old) (D.disk device.new))) }
    ensures device_fault { IsErrOf result Failure.DeviceFault
        → Looked (D.disk device.old) (D.disk device.new) (index_reads (D.disk device.old)) 1 }
    ensures memory { IsErrOf result Failure.NoMemory
        → Looked (D.disk device.old) (D.disk device.new) (index_reads (D.disk device.old)) 0 }
    ensures failures { IfErr result (λ failure. (failure ≡ Failure.DeviceFault)
        ⊎ (failure ≡ Failure.NoMemory)) }
{
    match read_index(alloc, device)? {
        Ok((home, index)) => match index.first_past() {
            Some(n) => Ok(Err(VolumeFault::PastSlots(n))),
            None => Ok(Ok((home, index))),
        },
        Err(fault) => Ok(Err(fault)),
    }
}

/// Finds the home block of a device and reads the index file, or says by which fault the volume can't be read: that of a bit past the slots
/// isn't one.
///
/// # Errors
///
/// [`Failure::DeviceFault`] where a transfer failed, and [`Failure::NoMemory`] where there was no memory.
pub(crate) fn read_index<D: Device>(
    alloc: Global,
    device: &mut D,
) -> Result<Result<(Home, IndexFile), VolumeFault>, Failure>
    ensures found { IfOk result (λ answer. IfOk answer (λ found.
        FindsVolume found.0 (index_kept found.1) (D.disk device.old) (D.disk device.new))) }
    ensures fault { IfOk result (λ answer. IfErr answer (λ fault.
        FindsFault fault (D.disk device.old) (D.disk device.new))) }
    ensures hinders { IfOk result (λ answer. IfErr answer Hinders) }
    ensures device_fault { IsErrOf result Failure.DeviceFault
        → Looked (D.disk device.old) (D.disk device.new) (index_reads (D.disk device.old)) 1 }
    ensures memory { IsErrOf result Failure.NoMemory
        → Looked (D.disk device.old) (D.disk device.new) (index_reads (D.disk device.old)) 0 }
    ensures failures { IfErr result (λ failure. (failure ≡ Failure.DeviceFault)
        ⊎ (failure ≡ Failure.NoMemory)) }
{
    let home = match find(device) {
        Ok(home) => home,
        Err(HomeFault::DeviceFault) => return Err(Failure::DeviceFault),
        Err(HomeFault::NoHome) => return Ok(Err(VolumeFault::NoHome)),
    };
    match IndexFile::read(alloc, device, &home) {
        Ok(index) => Ok(Ok((home, index))),
        Err(IndexFault::Misplaced) => Ok(Err(VolumeFault::IndexMisplaced)),
        Err(IndexFault::PastSlots(n)) => Ok(Err(VolumeFault::PastSlots(n))),
        Err(IndexFault::DeviceFault) => Err(Failure::DeviceFault),
        Err(IndexFault::NoMemory) => Err(Failure::NoMemory),
    }
}
