//! The beginning of `rt-get --all`.
ghost use Rattle.std.specs.Prelude.{◌≡◌, false, IfErr, IfOk};
ghost use Rattle.f11_commands.specs.RtAll.{bad_of, counts_of, device_of, entries_of, has_failed, next_of, no_counts, state_of};
ghost use Rattle.f11_commands.specs.RtAny.{CannotServe, ReadsVolume};

use crate::outcome::Failure;
use crate::rt_all::state::{RtCounts, TakingAllRt};
use crate::rt_any::{RtServed, read_volume, served};
use f11_dev::Device;
use rt11_volume::RtState;
use std::alloc::Global;
use std::io::Write;

/// Nothing was counted yet.
const NO_COUNTS: RtCounts = RtCounts {
    copied: 0,
    cut: 0,
    not_copied: 0,
    lost: 0,
};

/// Begins with all files of the RT-11 volume on a device, in the order of its segments and their entries. It serves any volume whose directory
/// has the size that it should have, faulty or not: the entries of each segment that the links lead to and whose extra bytes are right.
/// Nothing is written to the device.
///
/// Where the directory can't be read it writes the lines of `rt-vfy`: then it gives the device back, and what the command answers. Else it
/// writes nothing.
///
/// # Errors
///
/// In the answer [`Failure::DeviceFault`] where a transfer failed, [`Failure::NoMemory`] where there was no memory, and
/// [`Failure::CannotWrite`] where the writer takes no more.
pub fn begin_all_rt<D: Device, W: Write>(
    alloc: Global,
    device: D,
    writer: &mut W,
) -> Result<TakingAllRt<D>, (D, Result<RtServed, Failure>)>
    ensures begins { IfOk result (λ all. (writer.new ≡ writer.old)
        × (next_of all ≡ 0) × (counts_of all ≡ no_counts) × (has_failed all ≡ false)
        × ReadsVolume (state_of all) (entries_of all) (bad_of all)
        (D.disk device) (D.disk (device_of all))) }
    ensures ended { IfErr result (λ end. CannotServe end.1
        (D.disk device) (D.disk end.0) W.contents writer.old writer.new) }
{
    let mut device = device;
    match read_volume(alloc, &mut device, writer) {
        Ok((state, entries, bad)) => Ok(TakingAllRt {
            device,
            entries,
            bad,
            next: 0,
            state,
            counts: NO_COUNTS,
            failed: false,
        }),
        Err(told) => Err((device, served(RtState::Faulty, told))),
    }
}
