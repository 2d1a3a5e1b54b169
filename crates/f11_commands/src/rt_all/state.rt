//! An RT-11 volume whose files are taken out one after another.

use f11_dev::Device;
use rt11_volume::{RtBadBlocks, RtEntries, RtState};

/// How many entries of a volume became what.
#[derive(Clone, Copy, Debug, PartialEq, Eq)]
pub struct RtCounts {
    /// Files that were taken out, of which some blocks may be missing.
    pub copied: u32,
    /// Those of them of which some are.
    pub cut: u32,
    /// Entries that weren't taken out, but were to be.
    pub not_copied: u32,
    /// Files that were taken out to `lost`.
    pub lost: u32,
}

/// An RT-11 volume, faulty or not, whose files are taken out one after another, on its device.
#[derive(Drop)]
pub struct TakingAllRt<D: Device> {
    /// The device that has the volume.
    pub(crate) device: D,
    /// All entries of its directory that can be read.
    pub(crate) entries: RtEntries,
    /// The volume's bad blocks, for which others stand.
    pub(crate) bad: RtBadBlocks,
    /// Which entry is the next, from 0.
    pub(crate) next: usize,
    /// How the volume is.
    pub(crate) state: RtState,
    /// What became of those before.
    pub(crate) counts: RtCounts,
    /// Whether a transfer failed.
    pub(crate) failed: bool,
}
