//! A file of an RT-11 volume that was found.

use f11_dev::Device;
use rt11_volume::{RtBadBlocks, RtEntry, RtState};

/// A file of an RT-11 volume, faulty or not, that was found, none of whose blocks was read, on its device.
#[derive(Drop)]
pub struct FoundRtFile<D: Device> {
    /// The device that has the volume.
    pub(crate) device: D,
    /// Its entry.
    pub(crate) entry: RtEntry,
    /// How the volume is.
    pub(crate) state: RtState,
    /// The blocks of the volume for which others stand.
    pub(crate) bad: RtBadBlocks,
}
