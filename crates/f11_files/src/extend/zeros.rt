//! Zeros in the blocks that a file is to have.
ghost use Rattle.std.specs.Prelude.{◌≤◌, ◌+◌, length, IsTrue, OnOk, OnErr};
ghost use Rattle.std.specs.List.{range_with_len};
ghost use Rattle.f11_image_store.specs.Confines.{no_header};
ghost use Rattle.f11_files.specs.Structure.{home_of, IsStructureFor, ConfinesTo};
ghost use Rattle.f11_files.specs.Extending.Zeros.{Zeroes, FailsToZero};
ghost use Rattle.f11_volume.specs.Volume.{volume_of};
ghost use Rattle.f11_writes.specs.NameLaws.{AreUnreferenced};

use crate::structure::Structure;
use f11_dev::{Device, DeviceFault};

impl Structure {
    /// Makes zeros of `count` blocks from `lbn` on, which are in use and named by no header: so many writes.
    ///
    /// # Errors
    ///
    /// `DeviceFault` where a transfer failed.
    pub(crate) fn zero_run<D: Device>(
        &self,
        device: &mut D,
        lbn: u32,
        count: u32,
    ) -> Result<(), DeviceFault>
        requires is_for { IsStructureFor self.now (D.disk device.old) }
        requires within { lbn + count ≤ length (D.disk device.old).image }
        requires unreferenced { IsTrue (D.disk device.old).honest
            → AreUnreferenced (volume_of (D.disk device.old).image (home_of self.now)) lbn count }
        ensures zeroes { OnOk result
            (Zeroes (home_of self.now) lbn count (D.disk device.old) (D.disk device.new)) }
        ensures failed { OnErr result
            (FailsToZero (home_of self.now) count (D.disk device.old) (D.disk device.new)) }
        ensures confined { ConfinesTo self.now no_header (range_with_len lbn count)
            (D.disk device.old) (D.disk device.new) }
    {
        device.write_zeros(lbn, count)
    }
}
