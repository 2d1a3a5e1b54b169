//! A whole run of blocks that is marked used.
ghost use Rattle.std.specs.Prelude.{◌≡◌, ◌<◌, false, IfNone, IfOk, IfSome, OnErr, OnOk};
ghost use Rattle.f11_image_store.specs.Confines.{no_header};
ghost use Rattle.f11_files.specs.LayingOut.Take.{FailsToTakeWholeRun, HasNoRun, TakesWholeRun};
ghost use Rattle.f11_files.specs.Structure.{counts_of, home_of, IsStructureFor, StandsAlike, StaysFor, WritesParts};

use crate::structure::Structure;
use f11_dev::{Device, DeviceFault};

impl Structure {
    /// Marks the first `n` free blocks in a row used, and gives the first of them; `None` where nowhere so many are free in a row, and then
    /// nothing is written. Each bitmap block from where one may be free up to that of the last of them is read, and each that has their bits is read and written then.
    ///
    /// # Errors
    ///
    /// `DeviceFault` where a transfer failed.
    pub(crate) fn take_whole_run<D: Device>(
        &mut self,
        device: &mut D,
        n: u32,
    ) -> Result<Option<u32>, DeviceFault>
        requires is_for { IsStructureFor self.old (D.disk device.old) }
        requires some { 0 < n }
        ensures taken { IfOk result (λ answer. IfSome answer (λ lbn. TakesWholeRun self.old self.new
            n lbn (D.disk device.old) (D.disk device.new))) }
        ensures none { IfOk result (λ answer. IfNone answer
            (HasNoRun self.old n (D.disk device.old) (D.disk device.new))) }
        ensures counts { IfOk result (λ answer. IfNone answer
            (counts_of self.new ≡ counts_of self.old)) }
        ensures failed { OnErr result
            (FailsToTakeWholeRun self.old n (D.disk device.old) (D.disk device.new)) }
        ensures stays { OnOk result (StaysFor false self.old self.new (D.disk device.new)) }
        ensures home { home_of self.new ≡ home_of self.old }
        ensures confined { WritesParts self.old no_header (D.disk device.old) (D.disk device.new) }
        ensures places { StandsAlike self.old self.new }
    {
        match self.storage.take_run(device, n) {
            Ok(Some(lbn)) => Ok(Some(lbn)),
            Ok(None) => Ok(None),
            Err(fault) => Err(fault),
        }
    }
}
