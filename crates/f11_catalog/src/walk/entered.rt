//! What directories name, one record after another.
ghost use Rattle.std.specs.Prelude.{◌≡◌, IfOk, IfSome, IfNone, OnErr, length, List, Option, ℕ};
ghost use Rattle.f11_dev.specs.Looked.{Looked};
ghost use Rattle.f11_dir.specs.Records.{record_of_bytes};
ghost use Rattle.f11_index.specs.Kept.{index_kept, IndexLiesWithin};
ghost use Rattle.f11_index.specs.Table.{table_in};
ghost use Rattle.f11_catalog.specs.AllDirectories.{directory_in, directory_under};
ghost use Rattle.f11_catalog.specs.AllFiles.{place_entered};
ghost use Rattle.f11_catalog.specs.GoingOver.{ComesToDirectory, OpensNamed};
ghost use Rattle.f11_catalog.specs.Records.{IsReadingRecords, Reads, file_found};
ghost use Rattle.f11_catalog.specs.Steps.{EntersNone, HasNoneLeft};
ghost use Rattle.f11_catalog.specs.Walking.{ComesToFile, EntersOne};

use crate::directory::DirectoryReader;
use crate::directory_name::DirectoryName;
use crate::found::FoundDirectory;
use crate::walk::content::open_content;
use crate::walk::place::{FileAt, Place};
use crate::walk::state::OpenDirectory;
use f11_dev::{Device, DeviceFault};
use f11_dir::Record;
use f11_index::IndexFile;
use f11_store::FileId;

/// What a record of a directory names; `None` where it is empty.
///
/// # Errors
///
/// `DeviceFault` where a transfer failed.
fn open_record<D: Device>(
    device: &mut D,
    index: &IndexFile,
    wide: &IndexFile,
    name: &DirectoryName,
    record: &Record,
) -> Result<Option<FileAt>, DeviceFault>
    requires within { IndexLiesWithin (index_kept index.now) (length (D.disk device.old).image) }
    requires wide { IndexLiesWithin (index_kept wide.now) (length (D.disk device.old).image) }
    ensures enters { IfOk result (λ answer. IfSome answer (λ found.
        (bytes : List ℕ) → «record».now ≡ record_of_bytes bytes
        → EntersOne (λ image t. place_entered name.now bytes) (index_kept index.now)
        (index_kept wide.now) found (D.disk device.old) (D.disk device.new))) }
    ensures none { IfOk result (λ answer. IfNone answer (
        (bytes : List ℕ) → «record».now ≡ record_of_bytes bytes
        → EntersNone (λ image t. place_entered name.now bytes) (index_kept index.now)
        (D.disk device.old) (D.disk device.new))) }
    ensures failed { OnErr result (Reads (D.disk device.old) (D.disk device.new) 1) }
{
    if record.is_empty() {
        return Ok(None);
    }
    let id = record.id;
    let content = open_content(device, index, wide, id)?;
    Ok(Some(FileAt {
        place: Place::Entered(name.copy(), record.name(), id),
        content,
    }))
}

/// What the next record names that isn't empty, of a directory that is read by an index file; `None` where none is left.
///
/// # Errors
///
/// `DeviceFault` where a transfer failed.
pub(crate) fn next_record<D: Device>(
    device: &mut D,
    by: &IndexFile,
    index: &IndexFile,
    wide: &IndexFile,
    name: &DirectoryName,
    directory: &mut DirectoryReader,
) -> Result<Option<FileAt>, DeviceFault>
    requires by { IndexLiesWithin (index_kept by.now) (length (D.disk device.old).image) }
    requires within { IndexLiesWithin (index_kept index.now) (length (D.disk device.old).image) }
    requires wide { IndexLiesWithin (index_kept wide.now) (length (D.disk device.old).image) }
    requires reading { IsReadingRecords (index_kept by.now) directory.old (D.disk device.old) }
    ensures reading { IsReadingRecords (index_kept by.now) directory.new (D.disk device.new) }
    ensures comes { IfOk result (λ answer. IfSome answer (λ found.
        ComesToFile (index_kept by.now) (index_kept index.now) (index_kept wide.now) name.now
        directory.old directory.new found (D.disk device.old) (D.disk device.new))) }
    ensures none { IfOk result (λ answer. IfNone answer (
        HasNoneLeft (λ image t. place_entered name.now) (index_kept by.now) directory.old
        (D.disk device.old) (D.disk device.new))) }
    ensures failed { OnErr result (Reads (D.disk device.old) (D.disk device.new) 1) }
{
    while let Some(record) = directory.next(device, by)? {
        if let Some(found) = open_record(device, index, wide, name, &record)? {
            return Ok(Some(found));
        }
    }
    Ok(None)
}

/// The directory that a record of the master file directory names; `None` where it names none. Two transfers at most.
///
/// # Errors
///
/// `DeviceFault` where a transfer failed.
fn open_named<D: Device>(
    device: &mut D,
    index: &IndexFile,
    wide: &IndexFile,
    record: &Record,
) -> Result<Option<OpenDirectory>, DeviceFault>
    requires within { IndexLiesWithin (index_kept index.now) (length (D.disk device.old).image) }
    requires wide { IndexLiesWithin (index_kept wide.now) (length (D.disk device.old).image) }
    ensures opens { IfOk result (λ answer. IfSome answer (λ hand.
        (bytes : List ℕ) → «record».now ≡ record_of_bytes bytes
        → OpensNamed (λ image t. directory_under (index_kept wide.now) image t bytes) (index_kept index.now)
        (index_kept wide.now) hand
        (D.disk device.old) (D.disk device.new))) }
    ensures none { IfOk result (λ answer. IfNone answer (
        (bytes : List ℕ) → «record».now ≡ record_of_bytes bytes
        → EntersNone (λ image t. directory_under (index_kept wide.now) image t bytes) (index_kept index.now)
        (D.disk device.old) (D.disk device.new))) }
    ensures failed { OnErr result (Looked (D.disk device.old) (D.disk device.new) 2 1) }
{
    let Some(name) = record.name() else {
        return Ok(None);
    };
    open_directory(device, index, wide, DirectoryName::of(&name), record.id)
}

/// The directory that has this identification, if it is one. Two transfers at most.
///
/// # Errors
///
/// `DeviceFault` where a transfer failed.
fn open_directory<D: Device>(
    device: &mut D,
    index: &IndexFile,
    wide: &IndexFile,
    name: DirectoryName,
    id: FileId,
) -> Result<Option<OpenDirectory>, DeviceFault>
    requires within { IndexLiesWithin (index_kept index.now) (length (D.disk device.old).image) }
    requires wide { IndexLiesWithin (index_kept wide.now) (length (D.disk device.old).image) }
    ensures opens { IfOk result (λ answer. IfSome answer (λ hand.
        OpensNamed (λ image t. directory_in (file_found (index_kept wide.now) image t id) id name)
        (index_kept index.now) (index_kept wide.now) hand
        (D.disk device.old) (D.disk device.new))) }
    ensures none { IfOk result (λ answer. IfNone answer (
        EntersNone (λ image t. directory_in (file_found (index_kept wide.now) image t id) id name)
        (index_kept index.now)
        (D.disk device.old) (D.disk device.new))) }
    ensures failed { OnErr result (Looked (D.disk device.old) (D.disk device.new) 2 1) }
{
    match FoundDirectory::open(device, index, wide, id)? {
        Ok(found) => Ok(Some(OpenDirectory { name, id, found })),
        Err(_) => Ok(None),
    }
}

/// The next directory that the records name which are still to come of the master file directory, read by an index file; `None` where they name no more.
///
/// # Errors
///
/// `DeviceFault` where a transfer failed.
pub(crate) fn next_directory<D: Device>(
    device: &mut D,
    by: &IndexFile,
    index: &IndexFile,
    wide: &IndexFile,
    master: &mut DirectoryReader,
) -> Result<Option<OpenDirectory>, DeviceFault>
    requires by { IndexLiesWithin (index_kept by.now) (length (D.disk device.old).image) }
    requires within { IndexLiesWithin (index_kept index.now) (length (D.disk device.old).image) }
    requires wide { IndexLiesWithin (index_kept wide.now) (length (D.disk device.old).image) }
    requires reading { IsReadingRecords (index_kept by.now) master.old (D.disk device.old) }
    ensures reading { IsReadingRecords (index_kept by.now) master.new (D.disk device.new) }
    ensures comes { IfOk result (λ answer. IfSome answer (λ hand.
        ComesToDirectory (index_kept by.now) (index_kept index.now) (index_kept wide.now)
        master.old master.new hand
        (D.disk device.old) (D.disk device.new))) }
    ensures none { IfOk result (λ answer. IfNone answer (
        HasNoneLeft (λ image _. directory_under (index_kept wide.now) image
        (table_in image (index_kept index.now))) (index_kept by.now) master.old
        (D.disk device.old) (D.disk device.new))) }
    ensures failed { OnErr result (Reads (D.disk device.old) (D.disk device.new) 1) }
{
    while let Some(record) = master.next(device, by)? {
        if let Some(hand) = open_named(device, index, wide, &record)? {
            return Ok(Some(hand));
        }
    }
    Ok(None)
}
