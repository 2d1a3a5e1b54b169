//! A volume whose files are taken out one after another.
ghost use Rattle.std.specs.Prelude.{◌≡◌, length};
ghost use Rattle.std.proofs.Props.{props};
ghost use Rattle.f11_catalog.specs.Walking.{IsWalking};
ghost use Rattle.f11_index.specs.Kept.{index_kept, IndexLiesWithin};

use crate::get::all::counts::Counts;
use f11_catalog::AllFiles;
use f11_dev::Device;
use f11_index::IndexFile;

/// A volume whose files are taken out one after another, on its device.
#[derive(Drop)]
pub struct TakingAll<D: Device> {
    /// The device that has the volume.
    pub(crate) device: D,
    /// The volume's index file.
    pub(crate) index: IndexFile,
    /// The same with each slot in use, by which a file is found whose slot's bit is lost.
    pub(crate) wide: IndexFile,
    /// The files that are still to come.
    pub(crate) files: AllFiles,
    /// Where the volume ends, in blocks.
    pub(crate) size: u32,
    /// Whether the volume has faults.
    pub(crate) faulty: bool,
    /// Whether a transfer failed.
    pub(crate) failed: bool,
    /// How many files were taken out, and how many weren't.
    pub(crate) counts: Counts,
    /// The index file lies on the device.
    pub ghost within: { IndexLiesWithin (index_kept index) (length (D.disk device).image) },
    /// So does the other one.
    pub ghost wide_within: { IndexLiesWithin (index_kept wide) (length (D.disk device).image) },
    /// Its directories are read from the device.
    pub ghost walking: { IsWalking (index_kept index) (index_kept wide) files (D.disk device) } by { Prim.hlevel props },
}
