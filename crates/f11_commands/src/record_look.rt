//! Whether a file is a directory with records, told before anything is changed.
ghost use Rattle.std.specs.Prelude.{Err, IfErr, IfOk, Ok, OnErr, length};
ghost use Rattle.f11_catalog.specs.Records.{Reads};
ghost use Rattle.f11_index.specs.Kept.{index_kept, IndexLiesWithin};
ghost use Rattle.f11_commands.specs.DirectoryRecords.{FindsRecords, HasNoRecords, LooksForRecords};
ghost use Rattle.f11_commands.specs.Looking.{LookFails};

use crate::finding::MASTER_DIRECTORY;
use crate::looking::read_indexes;
use crate::name_list::NoNames;
use crate::outcome::Failure;
use f11_catalog::{find, has_records};
use f11_dev::{Device, DeviceFault};
use f11_index::IndexFile;
use f11_rad50::Name;
use f11_store::Refusal;
use std::alloc::Global;

/// Whether the file that a directory has under a name is a directory with a record that isn't empty. The directory is the one that the master
/// file directory has under its name. It serves any volume whose home block and index file can be read, faulty or not, and writes nothing to
/// it.
///
/// # Errors
///
/// [`Failure::DeviceFault`] where a transfer failed, and [`Failure::NoMemory`] where there was no memory. Within:
/// [`NoNames::Unreadable`] where there is no home block, or the index file isn't as it should be; [`NoNames::Refused`] with `NoSuchEntry`
/// where there is no such name, `NoSuchFile` where there is no file that it names, or no such directory, and `NotDirectory` where either is no
/// directory.
pub fn leads_to_records<D: Device>(
    alloc: Global,
    device: &mut D,
    directory: &Name,
    name: &Name,
) -> Result<Result<bool, NoNames>, Failure>
    ensures told { IfOk result (λ answer. IfOk answer (λ some.
        FindsRecords directory.now name.now (Ok some) (D.disk device.old) (D.disk device.new))) }
    ensures none { IfOk result (λ answer. IfErr answer (λ why.
        HasNoRecords why directory.now name.now (D.disk device.old) (D.disk device.new))) }
    ensures failed { IfErr result (λ failure.
        LookFails failure (D.disk device.old) (D.disk device.new)) }
{
    let (index, wide) = match read_indexes(alloc, device)? {
        Ok(both) => both,
        Err(_) => return Ok(Err(NoNames::Unreadable)),
    };
    match records_under(device, &index, &wide, directory, name) {
        Ok(Ok(some)) => Ok(Ok(some)),
        Ok(Err(refusal)) => Ok(Err(NoNames::Refused(refusal))),
        Err(DeviceFault) => Err(Failure::DeviceFault),
    }
}

/// The same of the files that an index file has.
fn records_under<D: Device>(
    device: &mut D,
    index: &IndexFile,
    wide: &IndexFile,
    directory: &Name,
    name: &Name,
) -> Result<Result<bool, Refusal>, DeviceFault>
    requires within { IndexLiesWithin (index_kept index.now) (length (D.disk device.old).image) }
    requires wide { IndexLiesWithin (index_kept wide.now) (length (D.disk device.old).image) }
    ensures told { IfOk result (λ answer. IfOk answer (λ some.
        LooksForRecords (index_kept index.now) (index_kept wide.now) directory.now name.now (Ok some)
        (D.disk device.old) (D.disk device.new))) }
    ensures refused { IfOk result (λ answer. IfErr answer (λ refusal.
        LooksForRecords (index_kept index.now) (index_kept wide.now) directory.now name.now (Err refusal)
        (D.disk device.old) (D.disk device.new))) }
    ensures failed { OnErr result (Reads (D.disk device.old) (D.disk device.new) 1) }
{
    let dir = match find(device, index, wide, MASTER_DIRECTORY, directory)? {
        Ok(id) => id,
        Err(refusal) => return Ok(Err(refusal)),
    };
    let id = match find(device, index, wide, dir, name)? {
        Ok(id) => id,
        Err(refusal) => return Ok(Err(refusal)),
    };
    match has_records(device, index, wide, id) {
        Ok(Ok(some)) => Ok(Ok(some)),
        Ok(Err(refusal)) => Ok(Err(refusal)),
        Err(fault) => Err(fault),
    }
}
