//! A mounted volume on which files of the host are made.
use crate::put_counts::PutCounts;
use f11_dev::Device;
use f11_serving::f11_fcp::Volume;

/// A mounted volume on which files of the host are made, one after another.
#[derive(Drop)]
pub struct Puts<D: Device> {
    /// The volume.
    pub(crate) volume: Volume<D>,
    /// How many files were made, and how many weren't.
    pub(crate) counts: PutCounts,
}
