//! The directories whose slots aren't in use, and to which other directories lead, one after another.
ghost use Rattle.std.specs.Prelude.{◌≡◌, IfOk, IfSome, IfNone, OnErr, length};
ghost use Rattle.f11_catalog.specs.AllDirectories.{unused_directory};
ghost use Rattle.f11_catalog.specs.GoingOver.{OpensNamed};
ghost use Rattle.f11_catalog.specs.Records.{Reads};
ghost use Rattle.f11_catalog.specs.Steps.{EntersNone};
ghost use Rattle.f11_index.specs.Kept.{index_kept, IndexLiesWithin};

use crate::walk::state::{Numbers, OpenDirectory};
use crate::walk::unnamed::under_its_name;
use f11_dev::{Device, DeviceFault};
use f11_index::IndexFile;
use f11_reader::FileReader;

/// The directory whose first header is in this slot, under its own name, if it is one and has one, and the slot isn't in use. Two transfers
/// at most.
///
/// # Errors
///
/// `DeviceFault` where a transfer failed.
fn open_unused<D: Device>(
    device: &mut D,
    index: &IndexFile,
    wide: &IndexFile,
    number: u16,
) -> Result<Option<OpenDirectory>, DeviceFault>
    requires within { IndexLiesWithin (index_kept index.now) (length (D.disk device.old).image) }
    requires wide { IndexLiesWithin (index_kept wide.now) (length (D.disk device.old).image) }
    ensures opens { IfOk result (λ answer. IfSome answer (λ hand.
        OpensNamed (λ image t. unused_directory (index_kept wide.now) image t number) (index_kept index.now)
        (index_kept wide.now) hand (D.disk device.old) (D.disk device.new))) }
    ensures none { IfOk result (λ answer. IfNone answer (
        EntersNone (λ image t. unused_directory (index_kept wide.now) image t number) (index_kept index.now)
        (D.disk device.old) (D.disk device.new))) }
    ensures failed { OnErr result (Reads (D.disk device.old) (D.disk device.new) 1) }
{
    match FileReader::open_slot(device, wide, number)? {
        Some(file) => match under_its_name(&file, false) {
            Some(hand) => match FileReader::open(device, index, file.id())? {
                None => Ok(Some(hand)),
                Some(_) => Ok(None),
            },
            None => Ok(None),
        },
        None => Ok(None),
    }
}

impl Numbers {
    ghost use Rattle.f11_catalog.specs.GoingOver.{FindsLed, FindsNoLed};
    ghost use Rattle.f11_catalog.specs.Steps.{is_met};

    /// The next of the numbers that were met here, and that aren't known, which is that of such a directory; `None` behind the last slot.
    ///
    /// # Errors
    ///
    /// `DeviceFault` where a transfer failed.
    pub(crate) fn next_led<D: Device>(
        &mut self,
        device: &mut D,
        index: &IndexFile,
        wide: &IndexFile,
        known: &Numbers,
    ) -> Result<Option<OpenDirectory>, DeviceFault>
        requires within { IndexLiesWithin (index_kept index.now) (length (D.disk device.old).image) }
        requires wide { IndexLiesWithin (index_kept wide.now) (length (D.disk device.old).image) }
        ensures finds { IfOk result (λ answer. IfSome answer (λ hand.
            FindsLed (is_met known.now) (index_kept index.now) (index_kept wide.now) self.old self.new hand
            (D.disk device.old) (D.disk device.new))) }
        ensures none { IfOk result (λ answer. IfNone answer (
            FindsNoLed (is_met known.now) (index_kept index.now) (index_kept wide.now) self.old self.new
            (D.disk device.old) (D.disk device.new))) }
        ensures met { self.new.met ≡ self.old.met }
        ensures failed { OnErr result (Reads (D.disk device.old) (D.disk device.new) 1) }
    {
        while self.next <= wide.slots() {
            let number = self.take_number();
            if let Some(hand) = self.open_led(device, index, wide, known, number)? {
                return Ok(Some(hand));
            }
        }
        Ok(None)
    }

    ghost use Rattle.f11_catalog.specs.AllDirectories.{led_directory};

    /// The directory in this slot, if its number was met here and isn't known.
    ///
    /// # Errors
    ///
    /// `DeviceFault` where a transfer failed.
    fn open_led<D: Device>(
        &self,
        device: &mut D,
        index: &IndexFile,
        wide: &IndexFile,
        known: &Numbers,
        number: u16,
    ) -> Result<Option<OpenDirectory>, DeviceFault>
        requires within { IndexLiesWithin (index_kept index.now) (length (D.disk device.old).image) }
        requires wide { IndexLiesWithin (index_kept wide.now) (length (D.disk device.old).image) }
        ensures opens { IfOk result (λ answer. IfSome answer (λ hand.
            OpensNamed (λ image t. led_directory (index_kept wide.now) image t (is_met self.now) (is_met known.now) number)
            (index_kept index.now) (index_kept wide.now) hand (D.disk device.old) (D.disk device.new))) }
        ensures none { IfOk result (λ answer. IfNone answer (
            EntersNone (λ image t. led_directory (index_kept wide.now) image t (is_met self.now) (is_met known.now) number)
            (index_kept index.now) (D.disk device.old) (D.disk device.new))) }
        ensures failed { OnErr result (Reads (D.disk device.old) (D.disk device.new) 1) }
    {
        if self.has_met(number) && !known.has_met(number) {
            open_unused(device, index, wide, number)
        } else {
            Ok(None)
        }
    }
}
