//! The next of all files.
ghost use Rattle.std.specs.Prelude.{◌≡◌, IfOk, IfSome, IfNone, OnErr, length};
ghost use Rattle.f11_index.specs.Kept.{index_kept, IndexLiesWithin};
ghost use Rattle.f11_catalog.specs.Records.{Reads};

use crate::walk::place::FileAt;
use crate::walk::state::AllFiles;
use f11_dev::{Device, DeviceFault};
use f11_index::IndexFile;

impl AllFiles {
    ghost use Rattle.f11_catalog.specs.Walking.{GivesFile, HasNoFile, IsWalking};

    /// What stands in the next place; `None` behind the last. `wide` is the index file that takes each slot as in use.
    ///
    /// # Errors
    ///
    /// `DeviceFault` where a transfer failed: then files may be left out.
    pub fn next<D: Device>(
        &mut self,
        device: &mut D,
        index: &IndexFile,
        wide: &IndexFile,
    ) -> Result<Option<FileAt>, DeviceFault>
        requires within { IndexLiesWithin (index_kept index.now) (length (D.disk device.old).image) }
        requires wide { IndexLiesWithin (index_kept wide.now) (length (D.disk device.old).image) }
        requires walking { IsWalking (index_kept index.now) (index_kept wide.now) self.old (D.disk device.old) }
        ensures walking { IsWalking (index_kept index.now) (index_kept wide.now) self.new (D.disk device.new) }
        ensures gives { IfOk result (λ answer. IfSome answer (λ found.
            GivesFile (index_kept index.now) (index_kept wide.now) self.old self.new found
            (D.disk device.old) (D.disk device.new))) }
        ensures ended { IfOk result (λ answer. IfNone answer (
            HasNoFile (index_kept index.now) (index_kept wide.now) self.old self.new
            (D.disk device.old) (D.disk device.new))) }
        ensures failed { OnErr result (Reads (D.disk device.old) (D.disk device.new) 1) }
    {
        if let Some(found) = self.entered.next(device, index, wide)? {
            let id = found.place.id();
            self.others.meet(id.number, found.content.is_file());
            return Ok(Some(found));
        }
        self.others.next_lost(device, index)
    }
}
