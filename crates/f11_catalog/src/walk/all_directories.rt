//! All directories, one after another.
ghost use Rattle.std.specs.Prelude.{◌≡◌, IfOk, IfSome, IfNone, OnErr, length};
ghost use Rattle.f11_index.specs.Kept.{index_kept, IndexLiesWithin};
ghost use Rattle.f11_catalog.specs.Records.{Reads};

use crate::found::FoundDirectory;
use crate::walk::entered::next_directory;
use crate::walk::state::{Directories, OpenDirectory};
use f11_dev::{Device, DeviceFault};
use f11_index::IndexFile;

impl Directories {
    ghost use Rattle.f11_catalog.specs.GoingOver.{FindsNamed, FindsNoNamed, GivesDirectory, HasNoDirectory, IsReadingMaster};

    /// The next directory, none of whose records was read; `None` behind the last.
    ///
    /// # Errors
    ///
    /// `DeviceFault` where a transfer failed.
    pub(crate) fn next<D: Device>(
        &mut self,
        device: &mut D,
        index: &IndexFile,
        wide: &IndexFile,
    ) -> Result<Option<OpenDirectory>, DeviceFault>
        requires within { IndexLiesWithin (index_kept index.now) (length (D.disk device.old).image) }
        requires wide { IndexLiesWithin (index_kept wide.now) (length (D.disk device.old).image) }
        requires reading { IsReadingMaster (index_kept index.now) (index_kept wide.now) self.old.master (D.disk device.old) }
        ensures reading { IsReadingMaster (index_kept index.now) (index_kept wide.now) self.new.master (D.disk device.new) }
        ensures gives { IfOk result (λ answer. IfSome answer (λ hand.
            GivesDirectory (index_kept index.now) (index_kept wide.now) self.old self.new hand
            (D.disk device.old) (D.disk device.new))) }
        ensures ended { IfOk result (λ answer. IfNone answer (
            HasNoDirectory (index_kept index.now) (index_kept wide.now) self.old self.new
            (D.disk device.old) (D.disk device.new))) }
        ensures failed { OnErr result (Reads (D.disk device.old) (D.disk device.new) 1) }
    {
        if let Some(hand) = self.next_named(device, index, wide)? {
            self.others.meet(hand.id.number, true);
            return Ok(Some(hand));
        }
        if let Some(hand) = self.others.next_unnamed(device, index)? {
            return Ok(Some(hand));
        }
        self.led.next_led(device, index, wide, &self.others)
    }

    /// The next directory that the master file directory names; `None` where it names no more, or can't be read.
    ///
    /// # Errors
    ///
    /// `DeviceFault` where a transfer failed.
    fn next_named<D: Device>(
        &mut self,
        device: &mut D,
        index: &IndexFile,
        wide: &IndexFile,
    ) -> Result<Option<OpenDirectory>, DeviceFault>
        requires within { IndexLiesWithin (index_kept index.now) (length (D.disk device.old).image) }
        requires wide { IndexLiesWithin (index_kept wide.now) (length (D.disk device.old).image) }
        requires reading { IsReadingMaster (index_kept index.now) (index_kept wide.now) self.old.master (D.disk device.old) }
        ensures reading { IsReadingMaster (index_kept index.now) (index_kept wide.now) self.new.master (D.disk device.new) }
        ensures finds { IfOk result (λ answer. IfSome answer (λ hand.
            FindsNamed (index_kept index.now) (index_kept wide.now) self.old.master self.new.master hand
            (D.disk device.old) (D.disk device.new))) }
        ensures none { IfOk result (λ answer. IfNone answer (
            FindsNoNamed (index_kept index.now) (index_kept wide.now) self.old.master self.new.master
            (D.disk device.old) (D.disk device.new))) }
        ensures others { self.new.others ≡ self.old.others }
        ensures led { self.new.led ≡ self.old.led }
        ensures failed { OnErr result (Reads (D.disk device.old) (D.disk device.new) 1) }
    {
        let Some(master) = self.master else {
            return Ok(None);
        };
        let by = master.index_by(index, wide);
        let mut directory = master.directory;
        match next_directory(device, by, index, wide, &mut directory) {
            Ok(Some(hand)) => {
                self.master = Some(FoundDirectory {
                    directory,
                    in_use: master.in_use,
                });
                Ok(Some(hand))
            }
            Ok(None) => {
                self.master = None;
                Ok(None)
            }
            Err(DeviceFault) => {
                self.master = None;
                Err(DeviceFault)
            }
        }
    }
}
