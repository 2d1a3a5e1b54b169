//! The beginning of a walk over all files.
ghost use Rattle.std.specs.Prelude.{◌≡◌, IfOk, IfErr, OnErr, length};
ghost use Rattle.f11_dev.specs.Looked.{Looked};
ghost use Rattle.f11_index.specs.Kept.{index_kept, IndexLiesWithin};
ghost use Rattle.f11_catalog.specs.GoingOver.{OpensMaster};

use crate::fault::WalkFault;
use crate::found::FoundDirectory;
use crate::walk::following::find_led;
use crate::walk::state::{AllFiles, Directories, EnteredFiles, Numbers};
use f11_bytes::NoMemory;
use f11_dev::{Device, DeviceFault};
use f11_index::IndexFile;
use f11_store::FileId;
use std::alloc::Global;

/// The master file directory, whose records are all to come, if it is a directory. Two transfers at most.
///
/// # Errors
///
/// `DeviceFault` where a transfer failed.
fn open_master<D: Device>(
    device: &mut D,
    index: &IndexFile,
    wide: &IndexFile,
    master: FileId,
) -> Result<Option<FoundDirectory>, DeviceFault>
    requires within { IndexLiesWithin (index_kept index.now) (length (D.disk device.old).image) }
    requires wide { IndexLiesWithin (index_kept wide.now) (length (D.disk device.old).image) }
    ensures opens { IfOk result (λ answer.
        OpensMaster (index_kept index.now) (index_kept wide.now) master answer
        (D.disk device.old) (D.disk device.new)) }
    ensures failed { OnErr result (Looked (D.disk device.old) (D.disk device.new) 2 1) }
{
    match FoundDirectory::open(device, index, wide, master)? {
        Ok(found) => Ok(Some(found)),
        Err(_) => Ok(None),
    }
}

impl EnteredFiles {
    ghost use Rattle.f11_catalog.specs.Steps.{is_met};
    ghost use Rattle.f11_catalog.specs.Walking.{BeginsEntered, FailsToBegin};

    /// Begins with what directories name, where the numbers that were met are those to which others lead. Two transfers at most. It takes
    /// 64 KiB of memory.
    ///
    /// # Errors
    ///
    /// [`WalkFault::NoMemory`] where there is no memory for it, and [`WalkFault::DeviceFault`] where a transfer failed.
    pub(crate) fn begin<D: Device>(
        alloc: Global,
        device: &mut D,
        index: &IndexFile,
        wide: &IndexFile,
        master: FileId,
        led: Numbers,
    ) -> Result<EnteredFiles, WalkFault>
        requires within { IndexLiesWithin (index_kept index.now) (length (D.disk device.old).image) }
        requires wide { IndexLiesWithin (index_kept wide.now) (length (D.disk device.old).image) }
        requires first { led.next ≡ 1 }
        ensures begins { IfOk result (λ files.
            BeginsEntered (index_kept index.now) (index_kept wide.now) master (is_met led) files
            (D.disk device.old) (D.disk device.new)) }
        ensures failed { IfErr result (λ fault. FailsToBegin fault (D.disk device.old) (D.disk device.new)) }
    {
        let Some(others) = Numbers::begin(alloc) else {
            return Err(WalkFault::NoMemory);
        };
        match open_master(device, index, wide, master) {
            Ok(master) => Ok(EnteredFiles {
                hand: None,
                directories: Directories {
                    master,
                    others,
                    led,
                },
            }),
            Err(DeviceFault) => Err(WalkFault::DeviceFault),
        }
    }
}

impl AllFiles {
    ghost use Rattle.f11_catalog.specs.Walking.{BeginsWalk, FailsToBegin};

    /// Begins with all files of a volume whose master file directory has this identification, and is found by `wide`, which
    /// takes each slot as in use, where its slot's bit is lost. What directories name is gone over for those to which they lead, and again
    /// each time that led on. It tells whether a transfer failed before all of these were found: then they may be left out. It takes
    /// 384 KiB of memory, of which a walk keeps 192 KiB and takes no more.
    ///
    /// # Errors
    ///
    /// [`WalkFault::NoMemory`] where there is no memory for it; [`WalkFault::DeviceFault`] where a transfer failed before the master file
    /// directory was found, or found not to be there.
    pub fn begin<D: Device>(
        alloc: Global,
        device: &mut D,
        index: &IndexFile,
        wide: &IndexFile,
        master: FileId,
    ) -> Result<(AllFiles, bool), WalkFault>
        requires within { IndexLiesWithin (index_kept index.now) (length (D.disk device.old).image) }
        requires wide { IndexLiesWithin (index_kept wide.now) (length (D.disk device.old).image) }
        ensures begins { IfOk result (λ begun.
            BeginsWalk (index_kept index.now) (index_kept wide.now) master begun.0 begun.1
            (D.disk device.old) (D.disk device.new)) }
        ensures failed { IfErr result (λ fault. FailsToBegin fault
            (D.disk device.old) (D.disk device.new)) }
    {
        let Some(directories) = Numbers::begin(alloc) else {
            return Err(WalkFault::NoMemory);
        };
        let Some(files) = Numbers::begin(alloc) else {
            return Err(WalkFault::NoMemory);
        };
        match open_master(device, index, wide, master) {
            Ok(found) => match find_led(alloc, device, index, wide, master) {
                Ok((led, failed)) => {
                    let directories = Directories {
                        master: found,
                        others: directories,
                        led,
                    };
                    let entered = EnteredFiles {
                        hand: None,
                        directories,
                    };
                    Ok((
                        AllFiles {
                            entered,
                            others: files,
                        },
                        failed,
                    ))
                }
                Err(NoMemory) => Err(WalkFault::NoMemory),
            },
            Err(DeviceFault) => Err(WalkFault::DeviceFault),
        }
    }
}
