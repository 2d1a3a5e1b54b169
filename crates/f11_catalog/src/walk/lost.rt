//! The files that no directory names, one after another.
ghost use Rattle.std.specs.Prelude.{◌≡◌, IfOk, IfSome, IfNone, OnErr, length};
ghost use Rattle.f11_index.specs.Kept.{index_kept, IndexLiesWithin};
ghost use Rattle.f11_catalog.specs.Records.{Reads};

use crate::own_name::own_name;
use crate::walk::content::Content;
use crate::walk::place::{FileAt, Place};
use crate::walk::state::Numbers;
use f11_dev::{Device, DeviceFault};
use f11_index::IndexFile;
use f11_reader::FileReader;

impl Numbers {
    ghost use Rattle.f11_catalog.specs.AllFiles.{place_lost};
    ghost use Rattle.f11_catalog.specs.Steps.{EntersNone, is_met};
    ghost use Rattle.f11_catalog.specs.Walking.{FindsLost, FindsNoOther, FindsOther};

    /// The file whose first header is in this slot, if there is one and it wasn't met. One transfer at most.
    ///
    /// # Errors
    ///
    /// `DeviceFault` where the transfer failed.
    fn open_lost<D: Device>(
        &self,
        device: &mut D,
        index: &IndexFile,
        number: u16,
    ) -> Result<Option<FileAt>, DeviceFault>
        requires within { IndexLiesWithin (index_kept index.now) (length (D.disk device.old).image) }
        ensures one { IfOk result (λ answer. IfSome answer (λ found.
            FindsLost (λ image t. place_lost t (is_met self.now) number) (index_kept index.now)
            found (D.disk device.old) (D.disk device.new))) }
        ensures none { IfOk result (λ answer. IfNone answer (
            EntersNone (λ image t. place_lost t (is_met self.now) number) (index_kept index.now)
            (D.disk device.old) (D.disk device.new))) }
        ensures failed { OnErr result (Reads (D.disk device.old) (D.disk device.new) 1) }
    {
        if self.has_met(number) {
            return Ok(None);
        }
        match FileReader::open_slot(device, index, number)? {
            Some(file) => Ok(Some(FileAt {
                place: Place::Lost(own_name(file.header()), file.id()),
                content: Content::File(file),
            })),
            None => Ok(None),
        }
    }

    /// The next file that wasn't met; `None` behind the last slot. Each header that may be one's first is read once.
    ///
    /// # Errors
    ///
    /// `DeviceFault` where a transfer failed.
    pub(crate) fn next_lost<D: Device>(
        &mut self,
        device: &mut D,
        index: &IndexFile,
    ) -> Result<Option<FileAt>, DeviceFault>
        requires within { IndexLiesWithin (index_kept index.now) (length (D.disk device.old).image) }
        ensures finds { IfOk result (λ answer. IfSome answer (λ found.
            FindsOther (is_met self.old) (index_kept index.now) self.old self.new found
            (D.disk device.old) (D.disk device.new))) }
        ensures none { IfOk result (λ answer. IfNone answer (
            FindsNoOther (is_met self.old) (index_kept index.now) self.old self.new
            (D.disk device.old) (D.disk device.new))) }
        ensures met { self.new.met ≡ self.old.met }
        ensures failed { OnErr result (Reads (D.disk device.old) (D.disk device.new) 1) }
    {
        while self.next <= index.slots() {
            let number = self.take_number();
            if let Some(found) = self.open_lost(device, index, number)? {
                return Ok(Some(found));
            }
        }
        Ok(None)
    }
}
