//! What all directories name, one after another.
ghost use Rattle.std.specs.Prelude.{◌≡◌, IfOk, IfSome, IfNone, OnErr, Ok, true, false, None, length};
ghost use Rattle.f11_index.specs.Kept.{index_kept, IndexLiesWithin};
ghost use Rattle.f11_catalog.specs.Records.{Reads};

use crate::found::FoundDirectory;
use crate::walk::entered::next_record;
use crate::walk::place::FileAt;
use crate::walk::state::{EnteredFiles, OpenDirectory};
use f11_dev::{Device, DeviceFault};
use f11_index::IndexFile;

impl EnteredFiles {
    ghost use Rattle.f11_catalog.specs.Walking.{EntersFile, EntersNoMore, IsWalkingDirectories, StaysToCome, TakesDirectory};

    /// The next file; `None` behind the last.
    ///
    /// # Errors
    ///
    /// `DeviceFault` where a transfer failed.
    pub(crate) fn next<D: Device>(
        &mut self,
        device: &mut D,
        index: &IndexFile,
        wide: &IndexFile,
    ) -> Result<Option<FileAt>, DeviceFault>
        requires within { IndexLiesWithin (index_kept index.now) (length (D.disk device.old).image) }
        requires wide { IndexLiesWithin (index_kept wide.now) (length (D.disk device.old).image) }
        requires walking { IsWalkingDirectories (index_kept index.now) (index_kept wide.now) self.old (D.disk device.old) }
        ensures walking { IsWalkingDirectories (index_kept index.now) (index_kept wide.now) self.new (D.disk device.new) }
        ensures enters { IfOk result (λ answer. IfSome answer (λ found.
            EntersFile (index_kept index.now) (index_kept wide.now) self.old self.new found
            (D.disk device.old) (D.disk device.new))) }
        ensures ended { IfOk result (λ answer. IfNone answer (
            EntersNoMore (index_kept index.now) (index_kept wide.now) self.old self.new
            (D.disk device.old) (D.disk device.new))) }
        ensures failed { OnErr result (Reads (D.disk device.old) (D.disk device.new) 1) }
    {
        loop {
            if let Some(found) = self.next_in_hand(device, index, wide)? {
                return Ok(Some(found));
            }
            if !self.take_directory(device, index, wide)? {
                return Ok(None);
            }
        }
    }

    /// The next file of the directory in hand; `None` where it names no more, or there is none, and then none is in hand.
    ///
    /// # Errors
    ///
    /// `DeviceFault` where a transfer failed.
    fn next_in_hand<D: Device>(
        &mut self,
        device: &mut D,
        index: &IndexFile,
        wide: &IndexFile,
    ) -> Result<Option<FileAt>, DeviceFault>
        requires within { IndexLiesWithin (index_kept index.now) (length (D.disk device.old).image) }
        requires wide { IndexLiesWithin (index_kept wide.now) (length (D.disk device.old).image) }
        requires walking { IsWalkingDirectories (index_kept index.now) (index_kept wide.now) self.old (D.disk device.old) }
        ensures walking { IsWalkingDirectories (index_kept index.now) (index_kept wide.now) self.new (D.disk device.new) }
        ensures enters { IfOk result (λ answer. IfSome answer (λ found.
            EntersFile (index_kept index.now) (index_kept wide.now) self.old self.new found
            (D.disk device.old) (D.disk device.new))) }
        ensures ended { IfOk result (λ answer. IfNone answer (
            StaysToCome (index_kept index.now) (index_kept wide.now) self.old self.new
            (D.disk device.old) (D.disk device.new)
            × (self.new.hand ≡ None))) }
        ensures failed { OnErr result (Reads (D.disk device.old) (D.disk device.new) 1) }
    {
        let Some(OpenDirectory { name, id, found }) = self.hand else {
            return Ok(None);
        };
        let by = found.index_by(index, wide);
        let mut directory = found.directory;
        match next_record(device, by, index, wide, &name, &mut directory) {
            Ok(Some(file)) => {
                self.hand = Some(OpenDirectory {
                    name: name.copy(),
                    id,
                    found: FoundDirectory {
                        directory,
                        in_use: found.in_use,
                    },
                });
                Ok(Some(file))
            }
            Ok(None) => {
                self.hand = None;
                Ok(None)
            }
            Err(DeviceFault) => {
                self.hand = None;
                Err(DeviceFault)
            }
        }
    }

    /// Takes the next directory in hand, where none is, and says whether there is one.
    ///
    /// # Errors
    ///
    /// `DeviceFault` where a transfer failed.
    fn take_directory<D: Device>(
        &mut self,
        device: &mut D,
        index: &IndexFile,
        wide: &IndexFile,
    ) -> Result<bool, DeviceFault>
        requires within { IndexLiesWithin (index_kept index.now) (length (D.disk device.old).image) }
        requires wide { IndexLiesWithin (index_kept wide.now) (length (D.disk device.old).image) }
        requires walking { IsWalkingDirectories (index_kept index.now) (index_kept wide.now) self.old (D.disk device.old) }
        requires no_hand { self.old.hand ≡ None }
        ensures walking { IsWalkingDirectories (index_kept index.now) (index_kept wide.now) self.new (D.disk device.new) }
        ensures takes { result ≡ Ok true → TakesDirectory (index_kept index.now) (index_kept wide.now)
            self.old self.new
            (D.disk device.old) (D.disk device.new) }
        ensures ended { result ≡ Ok false → EntersNoMore (index_kept index.now) (index_kept wide.now)
            self.old self.new (D.disk device.old) (D.disk device.new) }
        ensures failed { OnErr result (Reads (D.disk device.old) (D.disk device.new) 1) }
    {
        match self.directories.next(device, index, wide)? {
            Some(hand) => {
                self.hand = Some(hand);
                Ok(true)
            }
            None => Ok(false),
        }
    }
}
