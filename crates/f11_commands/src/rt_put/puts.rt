//! An RT-11 volume on which files of the host are made.
ghost use Rattle.std.specs.Prelude.{◌≡◌, false};
ghost use Rattle.rt11_volume.specs.Calls.{has_failed};

use crate::put_counts::PutCounts;
use f11_dev::Device;
use rt11_volume::RtAccepted;

/// An RT-11 volume without faults on which files of the host are made, one after another.
#[derive(Drop)]
pub struct RtPuts<D: Device> {
    /// The volume.
    pub(crate) volume: RtAccepted<D>,
    /// Whether a transfer failed: nothing is asked of the volume behind it.
    pub(crate) failed: bool,
    /// No call on it has answered `DeviceFault` else.
    pub ghost fresh: { failed ≡ false → has_failed volume ≡ false },
    /// How many files were made, and how many weren't.
    pub(crate) counts: PutCounts,
}
