//! Whether a directory has records.
ghost use Rattle.std.specs.Prelude.{IfErr, IfOk, OnErr, length};
ghost use Rattle.f11_index.specs.Kept.{index_kept, IndexLiesWithin};
ghost use Rattle.f11_catalog.specs.Holding.{FindsSome, TellsSome};
ghost use Rattle.f11_catalog.specs.Listing.{IsRefused};
ghost use Rattle.f11_catalog.specs.Records.{IsReadingRecords, Reads};

use crate::directory::DirectoryReader;
use crate::found::FoundDirectory;
use f11_dev::{Device, DeviceFault};
use f11_index::IndexFile;
use f11_store::{FileId, Refusal};

/// Whether a directory has a record that isn't empty. Its blocks are read up to the first one, each once. `wide` is the index file that takes
/// each slot as in use ([`IndexFile::with_all_in_use`]): by it a directory is found and read whose slot's bit is lost.
///
/// # Errors
///
/// `DeviceFault` where a transfer failed. Within: `NoSuchFile` where there is no file with the directory's identification, and `NotDirectory`
/// where that is no directory.
pub fn has_records<D: Device>(
    device: &mut D,
    index: &IndexFile,
    wide: &IndexFile,
    directory: FileId,
) -> Result<Result<bool, Refusal>, DeviceFault>
    requires within { IndexLiesWithin (index_kept index.now) (length (D.disk device.old).image) }
    requires wide { IndexLiesWithin (index_kept wide.now) (length (D.disk device.old).image) }
    ensures told { IfOk result (λ answer. IfOk answer (λ some.
        TellsSome (index_kept index.now) (index_kept wide.now) directory some
        (D.disk device.old) (D.disk device.new))) }
    ensures refused { IfOk result (λ answer. IfErr answer (λ refusal.
        IsRefused (index_kept index.now) (index_kept wide.now) directory refusal
        (D.disk device.old) (D.disk device.new))) }
    ensures failed { OnErr result (Reads (D.disk device.old) (D.disk device.new) 1) }
{
    let found = match FoundDirectory::open(device, index, wide, directory)? {
        Ok(found) => found,
        Err(refusal) => return Ok(Err(refusal)),
    };
    let mut directory = found.directory;
    let some = has_some(device, found.index_by(index, wide), &mut directory)?;
    Ok(Ok(some))
}

/// Whether one of the records isn't empty that are still to come of a directory that is read by an index file.
///
/// # Errors
///
/// `DeviceFault` where a transfer failed.
fn has_some<D: Device>(
    device: &mut D,
    by: &IndexFile,
    directory: &mut DirectoryReader,
) -> Result<bool, DeviceFault>
    requires by { IndexLiesWithin (index_kept by.now) (length (D.disk device.old).image) }
    requires reading { IsReadingRecords (index_kept by.now) directory.old (D.disk device.old) }
    ensures finds { IfOk result (λ some. FindsSome (index_kept by.now) directory.old some
        (D.disk device.old) (D.disk device.new)) }
    ensures failed { OnErr result (Reads (D.disk device.old) (D.disk device.new) 1) }
{
    while let Some(record) = directory.next(device, by)? {
        if !record.is_empty() {
            return Ok(true);
        }
    }
    Ok(false)
}
