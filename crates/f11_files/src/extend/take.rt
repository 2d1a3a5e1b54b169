//! Blocks that are marked used.
ghost use Rattle.std.specs.Prelude.{◌≡◌, ◌+◌, ◌<◌, ◌≤◌, IfErr, IfOk, IsTrue};
ghost use Rattle.f11_bits.specs.Transfers.{blocks_from};
ghost use Rattle.f11_files.specs.Answers.{is_fatal, is_refused, Breaks};
ghost use Rattle.f11_image_store.specs.Confines.{no_header};
ghost use Rattle.f11_files.specs.Extending.Growing.{WhileTaking};
ghost use Rattle.f11_files.specs.Structure.{bitmap_in, home_of, store_on, IsStructureFor, StaysFor, StandsAlike, WritesParts};
ghost use Rattle.f11_files.specs.Extending.Take.{NoneFreeBelow, TakesNextRun};

use crate::structure::Structure;
use f11_dev::Device;
use f11_store::Refusal;

impl Structure {
    /// Marks the first run of free blocks used, 256 at most and `most` at most, and gives the first of them and how many they are. None below
    /// `from` is free. Each bitmap block from that of `from` to that of the block behind them is read once at most, and one or two are
    /// written.
    ///
    /// # Errors
    ///
    /// `DeviceFault` where a transfer failed, `Damaged` where no block is free, though there should be.
    pub(crate) fn take_next_run<D: Device>(
        &mut self,
        device: &mut D,
        from: u32,
        most: u32,
    ) -> Result<(u32, u32), Refusal>
        requires is_for { IsStructureFor self.old (D.disk device.old) }
        requires some { 0 < most }
        requires free { IsTrue (D.disk device.old).honest
            → most ≤ (store_on self.old (D.disk device.old)).free }
        requires none_below { IsTrue (D.disk device.old).honest
            → NoneFreeBelow (D.disk device.old).image (bitmap_in self.old) from }
        ensures taken { IfOk result (λ run. TakesNextRun self.old self.new from most run.0 run.1
            (D.disk device.old) (D.disk device.new)) }
        ensures refused { IfErr result (λ refusal. Breaks
            (WhileTaking (home_of self.old) most 0 (store_on self.old (D.disk device.old))
            (D.disk device.old))
            (blocks_from (bitmap_in self.old) from + 2) refusal (D.disk device.old)
            (D.disk device.new)) }
        ensures stays { StaysFor (is_refused is_fatal result) self.old self.new
            (D.disk device.new) }
        ensures confined { WritesParts self.old no_header (D.disk device.old) (D.disk device.new) }
        ensures places { StandsAlike self.old self.new }
    {
        match self.storage.take(device, from, most) {
            Ok(Some(run)) => Ok(run),
            Ok(None) => Err(Refusal::Damaged),
            Err(_) => Err(Refusal::DeviceFault),
        }
    }
}
