//! To which directories others lead whose slots aren't in use.
ghost use Rattle.std.specs.Prelude.{◌≡◌, IfOk, IfSome, OnErr, length};
ghost use Rattle.f11_index.specs.Kept.{index_kept, IndexLiesWithin};
ghost use Rattle.f11_catalog.specs.Records.{Reads};
ghost use Rattle.f11_catalog.specs.Steps.{is_met};
ghost use Rattle.f11_catalog.specs.Walking.{FindsAllLed, FollowsEntered};

use crate::fault::WalkFault;
use crate::walk::content::open_content;
use crate::walk::state::{EnteredFiles, Numbers};
use f11_bytes::NoMemory;
use f11_dev::{Device, DeviceFault};
use f11_index::IndexFile;
use f11_store::FileId;
use std::alloc::Global;

/// The numbers to which directories lead: that of each directory out of use that one which is gone over names, and of the master file
/// directory if it is out of use. What directories name is gone over until no further one is found. It tells whether a transfer failed: then
/// it has those that were found before. It takes 256 KiB of memory, of which 64 KiB are kept.
///
/// # Errors
///
/// `NoMemory` where there is no memory for it.
pub(crate) fn find_led<D: Device>(
    alloc: Global,
    device: &mut D,
    index: &IndexFile,
    wide: &IndexFile,
    master: FileId,
) -> Result<(Numbers, bool), NoMemory>
    requires within { IndexLiesWithin (index_kept index.now) (length (D.disk device.old).image) }
    requires wide { IndexLiesWithin (index_kept wide.now) (length (D.disk device.old).image) }
    ensures finds { IfOk result (λ found. FindsAllLed (index_kept index.now) (index_kept wide.now) master
        found.0 found.1 (D.disk device.old) (D.disk device.new)) }
    ensures failed { OnErr result (Reads (D.disk device.old) (D.disk device.new) 0) }
{
    let Some(led) = Numbers::begin(alloc) else {
        return Err(NoMemory);
    };
    let mut led = led;
    match open_content(device, index, wide, master) {
        Ok(content) => led.meet(master.number, content.is_unused_directory()),
        Err(DeviceFault) => return Ok((led, true)),
    }
    loop {
        let (seen, failed) = follow_entered(alloc, device, index, wide, master, &led)?;
        let leads_on = led.meet_all(&seen);
        if failed || !leads_on {
            return Ok((led, failed));
        }
    }
}

/// The numbers to which directories lead, where these are those of directories to which others lead; and whether a transfer failed: then it
/// has those that were met before.
fn follow_entered<D: Device>(
    alloc: Global,
    device: &mut D,
    index: &IndexFile,
    wide: &IndexFile,
    master: FileId,
    led: &Numbers,
) -> Result<(Numbers, bool), NoMemory>
    requires within { IndexLiesWithin (index_kept index.now) (length (D.disk device.old).image) }
    requires wide { IndexLiesWithin (index_kept wide.now) (length (D.disk device.old).image) }
    ensures follows { IfOk result (λ found. FollowsEntered (index_kept index.now) (index_kept wide.now)
        master (is_met led.now) found.0 found.1 (D.disk device.old) (D.disk device.new)) }
    ensures failed { OnErr result (Reads (D.disk device.old) (D.disk device.new) 0) }
{
    let Some(copy) = Numbers::begin(alloc) else {
        return Err(NoMemory);
    };
    let Some(seen) = Numbers::begin(alloc) else {
        return Err(NoMemory);
    };
    let mut copy = copy;
    let mut seen = seen;
    copy.meet_all(led);
    match EnteredFiles::begin(alloc, device, index, wide, master, copy) {
        Ok(entered) => {
            let mut entered = entered;
            match entered.follow(device, index, wide, &mut seen) {
                Ok(()) => Ok((seen, false)),
                Err(DeviceFault) => Ok((seen, true)),
            }
        }
        Err(WalkFault::DeviceFault) => Ok((seen, true)),
        Err(WalkFault::NoMemory) => Err(NoMemory),
    }
}

impl EnteredFiles {
    ghost use Rattle.f11_catalog.specs.Walking.{FollowsAll, FollowsPart, IsWalkingDirectories};

    /// Goes over all that is still to come: the numbers to which it leads are met; some of them, where a transfer failed.
    ///
    /// # Errors
    ///
    /// `DeviceFault` where a transfer failed.
    fn follow<D: Device>(
        &mut self,
        device: &mut D,
        index: &IndexFile,
        wide: &IndexFile,
        seen: &mut Numbers,
    ) -> Result<(), DeviceFault>
        requires within { IndexLiesWithin (index_kept index.now) (length (D.disk device.old).image) }
        requires wide { IndexLiesWithin (index_kept wide.now) (length (D.disk device.old).image) }
        requires walking { IsWalkingDirectories (index_kept index.now) (index_kept wide.now) self.old (D.disk device.old) }
        ensures follows { IfOk result (λ _. FollowsAll (index_kept index.now) (index_kept wide.now) self.old
            seen.old seen.new (D.disk device.old) (D.disk device.new)) }
        ensures failed { OnErr result (FollowsPart (index_kept index.now) (index_kept wide.now) self.old
            seen.old seen.new (D.disk device.old) (D.disk device.new)) }
    {
        while let Some(found) = self.next(device, index, wide)? {
            let id = found.place.id();
            seen.meet(id.number, found.content.is_unused_directory());
        }
        Ok(())
    }
}
