//! A file found by its name in a directory.
ghost use Rattle.std.specs.Prelude.{IfOk, IfErr, OnErr, length};
ghost use Rattle.f11_index.specs.Kept.{index_kept, IndexLiesWithin};
ghost use Rattle.f11_catalog.specs.Listing.{FindsId, FindsNoId, FindsUnder};
ghost use Rattle.f11_catalog.specs.Records.{IsReadingRecords, Reads};

use crate::directory::DirectoryReader;
use crate::found::FoundDirectory;
use f11_dev::{Device, DeviceFault};
use f11_index::IndexFile;
use f11_rad50::Name;
use f11_store::{FileId, Refusal};

/// The identification in the first record of a directory that has a name. The directory's blocks are read up to that one, each once. `wide`
/// is the index file that takes each slot as in use: by it a directory is found and read whose slot's bit is lost.
///
/// # Errors
///
/// `DeviceFault` where a transfer failed. Within: `NoSuchFile` where there is no file with the directory's identification,
/// `NotDirectory` where that is no directory, and `NoSuchEntry` where no record has the name.
pub fn find<D: Device>(
    device: &mut D,
    index: &IndexFile,
    wide: &IndexFile,
    directory: FileId,
    name: &Name,
) -> Result<Result<FileId, Refusal>, DeviceFault>
    requires within { IndexLiesWithin (index_kept index.now) (length (D.disk device.old).image) }
    requires wide { IndexLiesWithin (index_kept wide.now) (length (D.disk device.old).image) }
    ensures found { IfOk result (λ answer. IfOk answer (λ id.
        FindsId (index_kept index.now) (index_kept wide.now) directory name.now id
        (D.disk device.old) (D.disk device.new))) }
    ensures refused { IfOk result (λ answer. IfErr answer (λ refusal.
        FindsNoId (index_kept index.now) (index_kept wide.now) directory name.now refusal
        (D.disk device.old) (D.disk device.new))) }
    ensures failed { OnErr result (Reads (D.disk device.old) (D.disk device.new) 1) }
{
    let found = match FoundDirectory::open(device, index, wide, directory)? {
        Ok(found) => found,
        Err(refusal) => return Ok(Err(refusal)),
    };
    let mut directory = found.directory;
    match find_record(device, found.index_by(index, wide), &mut directory, name)? {
        Some(id) => Ok(Ok(id)),
        None => Ok(Err(Refusal::NoSuchEntry)),
    }
}

/// The identification in the first record that has a name, of those still to come of a directory that is read by an index file.
///
/// # Errors
///
/// `DeviceFault` where a transfer failed.
fn find_record<D: Device>(
    device: &mut D,
    by: &IndexFile,
    directory: &mut DirectoryReader,
    name: &Name,
) -> Result<Option<FileId>, DeviceFault>
    requires by { IndexLiesWithin (index_kept by.now) (length (D.disk device.old).image) }
    requires reading { IsReadingRecords (index_kept by.now) directory.old (D.disk device.old) }
    ensures finds { IfOk result (λ found. FindsUnder (index_kept by.now) directory.old name.now found
        (D.disk device.old) (D.disk device.new)) }
    ensures failed { OnErr result (Reads (D.disk device.old) (D.disk device.new) 1) }
{
    while let Some(record) = directory.next(device, by)? {
        if record.has_name(name) {
            return Ok(Some(record.id));
        }
    }
    Ok(None)
}
