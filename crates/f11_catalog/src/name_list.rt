//! The names that a directory has.
ghost use Rattle.std.specs.Prelude.{◌≡◌, ◌++◌, IfErr, IfOk, List, OnOk, length, ℕ};
ghost use Rattle.f11_dir.specs.Records.{record_of_bytes};
ghost use Rattle.f11_index.specs.Kept.{index_kept, IndexLiesWithin};
ghost use Rattle.f11_catalog.specs.Listing.{IsRefused};
ghost use Rattle.f11_catalog.specs.Names.{AddsNames, FailsToName, ListsNames, record_names};
ghost use Rattle.f11_catalog.specs.Records.{IsReadingRecords};

use crate::directory::DirectoryReader;
use crate::fault::WalkFault;
use crate::found::FoundDirectory;
use f11_bytes::NoMemory;
use f11_dev::{Device, DeviceFault};
use f11_dir::Record;
use f11_index::IndexFile;
use f11_rad50::Name;
use f11_store::{FileId, Refusal};
use std::alloc::Global;

/// The names of a directory's records, in their order: those of each record that isn't empty and whose five words are a name. `wide` is
/// the index file that takes each slot as in use ([`IndexFile::with_all_in_use`]): by it a directory is found and read whose slot's bit is
/// lost. It takes memory for the names, ten bytes each, and up to three times that while their list grows.
///
/// # Errors
///
/// [`WalkFault::DeviceFault`] where a transfer failed, and [`WalkFault::NoMemory`] where there was no memory. Within: `NoSuchFile` where
/// there is no file with the directory's identification, and `NotDirectory` where that is no directory.
pub fn names<D: Device>(
    alloc: Global,
    device: &mut D,
    index: &IndexFile,
    wide: &IndexFile,
    directory: FileId,
) -> Result<Result<Vec<Name>, Refusal>, WalkFault>
    requires within { IndexLiesWithin (index_kept index.now) (length (D.disk device.old).image) }
    requires wide { IndexLiesWithin (index_kept wide.now) (length (D.disk device.old).image) }
    ensures named { IfOk result (λ answer. IfOk answer (λ names.
        ListsNames (index_kept index.now) (index_kept wide.now) directory names.items
        (D.disk device.old) (D.disk device.new))) }
    ensures refused { IfOk result (λ answer. IfErr answer (λ refusal.
        IsRefused (index_kept index.now) (index_kept wide.now) directory refusal
        (D.disk device.old) (D.disk device.new))) }
    ensures failed { IfErr result (λ fault. FailsToName fault
        (D.disk device.old) (D.disk device.new)) }
{
    let found = match FoundDirectory::open(device, index, wide, directory)? {
        Ok(found) => found,
        Err(refusal) => return Ok(Err(refusal)),
    };
    let by = found.index_by(index, wide);
    let mut directory = found.directory;
    let mut names = Vec::new(alloc);
    add_names(device, by, &mut directory, &mut names)?;
    Ok(Ok(names))
}

/// Adds the names of the records that are still to come, of a directory that is read by an index file.
fn add_names<D: Device>(
    device: &mut D,
    by: &IndexFile,
    directory: &mut DirectoryReader,
    names: &mut Vec<Name>,
) -> Result<(), WalkFault>
    requires by { IndexLiesWithin (index_kept by.now) (length (D.disk device.old).image) }
    requires reading { IsReadingRecords (index_kept by.now) directory.old (D.disk device.old) }
    ensures adds { OnOk result (AddsNames (index_kept by.now) directory.old
        names.old.items names.new.items (D.disk device.old) (D.disk device.new)) }
    ensures failed { IfErr result (λ fault. FailsToName fault
        (D.disk device.old) (D.disk device.new)) }
{
    while let Some(record) = directory.next(device, by)? {
        add_name(names, &record)?;
    }
    Ok(())
}

/// Adds the name of a record, if it has one.
fn add_name(names: &mut Vec<Name>, record: &Record) -> Result<(), NoMemory>
    ensures { OnOk result ((bytes : List ℕ) → «record».now ≡ record_of_bytes bytes
        → names.new.items ≡ names.old.items ++ record_names bytes) }
{
    if let Some(name) = record.name() {
        names.push(name)?;
    }
    Ok(())
}
