//! The contiguous mark of a file that is to grow.
ghost use Rattle.std.specs.Prelude.{◌≡◌, ◌⊎◌, ◌≤◌, OnOk, OnErr};
ghost use Rattle.f11_dev.specs.Went.{Went};
ghost use Rattle.f11_files.specs.Extending.Mark.{Clearing, ClearsMark};
ghost use Rattle.f11_image_store.specs.Confines.{only_header};
ghost use Rattle.f11_files.specs.Finding.First.{HoldsFile};
ghost use Rattle.f11_files.specs.Structure.{index_in, IsStructureFor, WritesParts};

use crate::change::fields::clear_contiguous;
use crate::structure::Structure;
use f11_bytes::Block;
use f11_dev::{Device, DeviceFault};
use f11_store::FileId;

impl Structure {
    /// Clears the contiguous mark in a file's first header, which the block holds, and writes it where it was set.
    ///
    /// # Errors
    ///
    /// `DeviceFault` where the transfer failed.
    pub(crate) fn clear_mark<D: Device>(
        &self,
        device: &mut D,
        f: FileId,
        first: &mut Block,
    ) -> Result<(), DeviceFault>
        requires is_for { IsStructureFor self.now (D.disk device.old) }
        requires own { (f.number ≡ 1) ⊎ (4 ≤ f.number) }
        requires holds { HoldsFile (index_in self.now) f first.old (D.disk device.old) }
        ensures clears { OnOk result
            (ClearsMark self.now f first.old first.new (D.disk device.old) (D.disk device.new)) }
        ensures failed { OnErr result (Went (Clearing self.now f (D.disk device.old))
            (D.disk device.old) (D.disk device.new) 1 1) }
        ensures confined { WritesParts self.now (only_header f.number) (D.disk device.old)
            (D.disk device.new) }
    {
        if !clear_contiguous(first, f) {
            return Ok(());
        }
        match device.write(self.index.lbn_of_header(f.number), first) {
            Ok(()) => Ok(()),
            Err(fault) => Err(fault),
        }
    }
}
