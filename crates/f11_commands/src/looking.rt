//! The index file of a volume, faulty or not, for a look at its directories.
ghost use Rattle.std.specs.Prelude.{IfErr, IfOk};
ghost use Rattle.f11_index.specs.Kept.{index_kept};
ghost use Rattle.f11_commands.specs.AnyVolume.{CannotBeRead};
ghost use Rattle.f11_commands.specs.Looking.{LookFails, FindsIndexes};

use crate::outcome::Failure;
use crate::volume::{VolumeFault, read_index};
use f11_bytes::NoMemory;
use f11_dev::Device;
use f11_index::IndexFile;
use std::alloc::Global;

/// Reads the index file of a volume, and makes the one of it that takes each slot as in use, or says by which fault the volume can't be read.
///
/// # Errors
///
/// [`Failure::DeviceFault`] where a transfer failed, and [`Failure::NoMemory`] where there was no memory.
pub(crate) fn read_indexes<D: Device>(
    alloc: Global,
    device: &mut D,
) -> Result<Result<(IndexFile, IndexFile), VolumeFault>, Failure>
    ensures found { IfOk result (λ answer. IfOk answer (λ both.
        FindsIndexes (index_kept both.0) (index_kept both.1) (D.disk device.old) (D.disk device.new))) }
    ensures none { IfOk result (λ answer. IfErr answer (λ fault.
        CannotBeRead fault (D.disk device.old) (D.disk device.new))) }
    ensures failed { IfErr result (λ failure.
        LookFails failure (D.disk device.old) (D.disk device.new)) }
{
    let index = match read_index(alloc, device) {
        Ok(Ok((_, index))) => index,
        Ok(Err(fault)) => return Ok(Err(fault)),
        Err(failure) => return Err(failure),
    };
    match index.with_all_in_use(alloc) {
        Ok(wide) => Ok(Ok((index, wide))),
        Err(NoMemory) => Err(Failure::NoMemory),
    }
}
