//! The directories that the master file directory doesn't name, one after another.
ghost use Rattle.std.specs.Prelude.{◌≡◌, ◌⊎◌, IfOk, IfSome, IfNone, None, OnErr, false, length};
ghost use Rattle.f11_catalog.specs.AllDirectories.{name_in, own_directory as directory_of_own};
ghost use Rattle.f11_catalog.specs.Facts.{is_directory_header};
ghost use Rattle.f11_catalog.specs.GoingOver.{IsUnderItsName};
ghost use Rattle.f11_catalog.specs.Records.{Reads};
ghost use Rattle.f11_header.specs.Fields.{ident_area};
ghost use Rattle.f11_index.specs.IndexFile.{Index};
ghost use Rattle.f11_index.specs.Kept.{index_kept, IndexLiesWithin};
ghost use Rattle.f11_reader.specs.Reading.{header_in_hand};
ghost use Rattle.f11_volume.specs.map.HeaderBlock.{segment_number};

use crate::directory::DirectoryReader;
use crate::directory_name::DirectoryName;
use crate::found::FoundDirectory;
use crate::own_name::own_name;
use crate::walk::state::{Numbers, OpenDirectory};
use f11_dev::{Device, DeviceFault};
use f11_index::IndexFile;
use f11_reader::FileReader;

/// The directory whose first header is in hand, under the name that this header has, if it is one and has one; its slot is in use, or
/// isn't.
pub(crate) fn under_its_name(file: &FileReader, in_use: bool) -> Option<OpenDirectory>
    requires first { segment_number (header_in_hand file.now) ≡ 0 }
    ensures under { IfSome result (λ hand. IsUnderItsName file.now in_use hand) }
    ensures none { IfNone result (
        (name_in (ident_area (header_in_hand file.now)) ≡ None)
        ⊎ (is_directory_header (header_in_hand file.now) ≡ false)) }
{
    let Some(name) = own_name(file.header()) else {
        return None;
    };
    match DirectoryReader::of(*file) {
        Some(directory) => Some(OpenDirectory {
            name: DirectoryName::of(&name),
            id: file.id(),
            found: FoundDirectory { directory, in_use },
        }),
        None => None,
    }
}

impl Numbers {
    ghost use Rattle.f11_catalog.specs.GoingOver.{FindsNoUnnamed, FindsUnnamed, OpensNamed};
    ghost use Rattle.f11_catalog.specs.Steps.{EntersNone, is_met};

    /// The directory whose first header is in this slot, under its own name, if it is one, has one, and wasn't met. One transfer at most.
    ///
    /// # Errors
    ///
    /// `DeviceFault` where the transfer failed.
    fn open_unnamed<D: Device>(
        &self,
        device: &mut D,
        index: &IndexFile,
        number: u16,
    ) -> Result<Option<OpenDirectory>, DeviceFault>
        requires within { IndexLiesWithin (index_kept index.now) (length (D.disk device.old).image) }
        ensures opens { IfOk result (λ answer. IfSome answer (λ hand. (wide : Index) →
            OpensNamed (λ image t. directory_of_own image t (is_met self.now) number)
            (index_kept index.now) wide hand (D.disk device.old) (D.disk device.new))) }
        ensures none { IfOk result (λ answer. IfNone answer (
            EntersNone (λ image t. directory_of_own image t (is_met self.now) number)
            (index_kept index.now) (D.disk device.old) (D.disk device.new))) }
        ensures failed { OnErr result (Reads (D.disk device.old) (D.disk device.new) 1) }
    {
        if self.has_met(number) {
            return Ok(None);
        }
        match FileReader::open_slot(device, index, number)? {
            Some(file) => match under_its_name(&file, true) {
                Some(hand) => Ok(Some(hand)),
                None => Ok(None),
            },
            None => Ok(None),
        }
    }

    /// The next directory that wasn't met; `None` behind the last slot. Each header that may be one's first is read once.
    ///
    /// # Errors
    ///
    /// `DeviceFault` where a transfer failed.
    pub(crate) fn next_unnamed<D: Device>(
        &mut self,
        device: &mut D,
        index: &IndexFile,
    ) -> Result<Option<OpenDirectory>, DeviceFault>
        requires within { IndexLiesWithin (index_kept index.now) (length (D.disk device.old).image) }
        ensures finds { IfOk result (λ answer. IfSome answer (λ hand. (wide : Index) →
            FindsUnnamed (is_met self.old) (index_kept index.now) wide self.old self.new hand
            (D.disk device.old) (D.disk device.new))) }
        ensures none { IfOk result (λ answer. IfNone answer (
            FindsNoUnnamed (is_met self.old) (index_kept index.now) self.old self.new
            (D.disk device.old) (D.disk device.new))) }
        ensures met { self.new.met ≡ self.old.met }
        ensures failed { OnErr result (Reads (D.disk device.old) (D.disk device.new) 1) }
    {
        while self.next <= index.slots() {
            let number = self.take_number();
            if let Some(hand) = self.open_unnamed(device, index, number)? {
                return Ok(Some(hand));
            }
        }
        Ok(None)
    }
}
