//! Directories listed.
ghost use Rattle.std.specs.Prelude.{◌≡◌, IfOk, IfErr, OnOk, List, ℕ, length};
ghost use Rattle.f11_dir.specs.Records.{record_of_bytes};
ghost use Rattle.f11_index.specs.Kept.{index_kept, IndexLiesWithin};
ghost use Rattle.f11_catalog.specs.Lines.{all_directory_lines, directory_lines, lines_in, record_lines};
ghost use Rattle.f11_catalog.specs.Listing.{BreaksOff, IsRefused, Lists, Writes, WritesRest};
ghost use Rattle.f11_catalog.specs.Records.{IsReadingRecords};

use crate::directory::DirectoryReader;
use crate::directory_name::DirectoryName;
use crate::fault::ListFault;
use crate::found::FoundDirectory;
use crate::line_form::LineForm;
use crate::record_line::write_record;
use f11_dev::{Device, DeviceFault};
use f11_dir::Record;
use f11_index::IndexFile;
use f11_store::{FileId, Refusal};
use std::io::Write;

/// Writes a line for each record of a directory that isn't empty, in their order: a file's, of this form, or that it names none. `wide` is
/// the index file that takes each slot as in use ([`IndexFile::with_all_in_use`]): by it a file or the directory itself is found whose slot's bit is lost.
///
/// # Errors
///
/// [`ListFault::DeviceFault`] where a transfer failed, and [`ListFault::CannotWrite`] where the writer takes no more: then it may hold a
/// part of the lines. Within, where nothing is written: `NoSuchFile` where there is no file with the directory's identification, and
/// `NotDirectory` where that is no directory.
pub fn list_directory<D: Device, W: Write>(
    device: &mut D,
    index: &IndexFile,
    wide: &IndexFile,
    writer: &mut W,
    form: LineForm,
    directory: FileId,
) -> Result<Result<(), Refusal>, ListFault>
    requires within { IndexLiesWithin (index_kept index.now) (length (D.disk device.old).image) }
    requires wide { IndexLiesWithin (index_kept wide.now) (length (D.disk device.old).image) }
    ensures lists { IfOk result (λ answer. OnOk answer
        (Lists (record_lines form (index_kept wide.now))
        (index_kept index.now) (index_kept wide.now) directory
        (D.disk device.old) (D.disk device.new) W.contents writer.old writer.new)) }
    ensures refused { IfOk result (λ answer. IfErr answer (λ refusal. (writer.new ≡ writer.old)
        × IsRefused (index_kept index.now) (index_kept wide.now) directory refusal
        (D.disk device.old) (D.disk device.new))) }
    ensures failed { IfErr result (λ fault. BreaksOff fault (D.disk device.old) (D.disk device.new)) }
{
    let found = match FoundDirectory::open(device, index, wide, directory) {
        Ok(Ok(found)) => found,
        Ok(Err(refusal)) => return Ok(Err(refusal)),
        Err(DeviceFault) => return Err(ListFault::DeviceFault),
    };
    let by = found.index_by(index, wide);
    let mut directory = found.directory;
    write_records(device, by, index, wide, writer, form, &mut directory)?;
    Ok(Ok(()))
}

/// Writes the lines of the records that are still to come, of a directory that is read by an index file.
fn write_records<D: Device, W: Write>(
    device: &mut D,
    by: &IndexFile,
    index: &IndexFile,
    wide: &IndexFile,
    writer: &mut W,
    form: LineForm,
    directory: &mut DirectoryReader,
) -> Result<(), ListFault>
    requires by { IndexLiesWithin (index_kept by.now) (length (D.disk device.old).image) }
    requires within { IndexLiesWithin (index_kept index.now) (length (D.disk device.old).image) }
    requires wide { IndexLiesWithin (index_kept wide.now) (length (D.disk device.old).image) }
    requires reading { IsReadingRecords (index_kept by.now) directory.old (D.disk device.old) }
    ensures writes { OnOk result
        (WritesRest (record_lines form (index_kept wide.now))
        (index_kept index.now) (index_kept by.now)
        directory.old
        (D.disk device.old) (D.disk device.new) W.contents writer.old writer.new) }
    ensures failed { IfErr result (λ fault. BreaksOff fault (D.disk device.old) (D.disk device.new)) }
{
    loop {
        match directory.next(device, by) {
            Ok(Some(record)) => write_record(device, index, wide, writer, form, &record)?,
            Ok(None) => return Ok(()),
            Err(DeviceFault) => return Err(ListFault::DeviceFault),
        }
    }
}

/// Writes the lines of each directory that the master file directory, which has this identification, names, in the order of its records:
/// what it is called, `[g,m]` or `[NAME]`, and a line for each record, as [`list_directory`] does.
///
/// # Errors
///
/// As those of [`list_directory`].
pub fn list_directories<D: Device, W: Write>(
    device: &mut D,
    index: &IndexFile,
    wide: &IndexFile,
    writer: &mut W,
    form: LineForm,
    directory: FileId,
) -> Result<Result<(), Refusal>, ListFault>
    requires within { IndexLiesWithin (index_kept index.now) (length (D.disk device.old).image) }
    requires wide { IndexLiesWithin (index_kept wide.now) (length (D.disk device.old).image) }
    ensures lists { IfOk result (λ answer. OnOk answer
        (Lists (all_directory_lines form (index_kept wide.now))
        (index_kept index.now) (index_kept wide.now) directory
        (D.disk device.old) (D.disk device.new) W.contents writer.old writer.new)) }
    ensures refused { IfOk result (λ answer. IfErr answer (λ refusal. (writer.new ≡ writer.old)
        × IsRefused (index_kept index.now) (index_kept wide.now) directory refusal
        (D.disk device.old) (D.disk device.new))) }
    ensures failed { IfErr result (λ fault. BreaksOff fault (D.disk device.old) (D.disk device.new)) }
{
    let found = match FoundDirectory::open(device, index, wide, directory) {
        Ok(Ok(found)) => found,
        Ok(Err(refusal)) => return Ok(Err(refusal)),
        Err(DeviceFault) => return Err(ListFault::DeviceFault),
    };
    let by = found.index_by(index, wide);
    let mut directory = found.directory;
    write_directories(device, by, index, wide, writer, form, &mut directory)?;
    Ok(Ok(()))
}

/// Writes the lines of the directories that the records still to come name, of the master file directory, read by an index file.
fn write_directories<D: Device, W: Write>(
    device: &mut D,
    by: &IndexFile,
    index: &IndexFile,
    wide: &IndexFile,
    writer: &mut W,
    form: LineForm,
    directory: &mut DirectoryReader,
) -> Result<(), ListFault>
    requires by { IndexLiesWithin (index_kept by.now) (length (D.disk device.old).image) }
    requires within { IndexLiesWithin (index_kept index.now) (length (D.disk device.old).image) }
    requires wide { IndexLiesWithin (index_kept wide.now) (length (D.disk device.old).image) }
    requires reading { IsReadingRecords (index_kept by.now) directory.old (D.disk device.old) }
    ensures writes { OnOk result
        (WritesRest (all_directory_lines form (index_kept wide.now))
        (index_kept index.now) (index_kept by.now)
        directory.old
        (D.disk device.old) (D.disk device.new) W.contents writer.old writer.new) }
    ensures failed { IfErr result (λ fault. BreaksOff fault (D.disk device.old) (D.disk device.new)) }
{
    loop {
        match directory.next(device, by) {
            Ok(Some(record)) => write_named(device, index, wide, writer, form, &record)?,
            Ok(None) => return Ok(()),
            Err(DeviceFault) => return Err(ListFault::DeviceFault),
        }
    }
}

/// Writes the lines of a directory, where a record of the master file directory names one.
fn write_named<D: Device, W: Write>(
    device: &mut D,
    index: &IndexFile,
    wide: &IndexFile,
    writer: &mut W,
    form: LineForm,
    record: &Record,
) -> Result<(), ListFault>
    requires within { IndexLiesWithin (index_kept index.now) (length (D.disk device.old).image) }
    requires wide { IndexLiesWithin (index_kept wide.now) (length (D.disk device.old).image) }
    ensures writes { OnOk result ((bytes : List ℕ) → «record».now ≡ record_of_bytes bytes
        → Writes (λ image t. directory_lines form (index_kept wide.now) image t bytes)
        (index_kept index.now)
        (D.disk device.old) (D.disk device.new) W.contents writer.old writer.new) }
    ensures failed { IfErr result (λ fault. BreaksOff fault (D.disk device.old) (D.disk device.new)) }
{
    let Some(name) = record.name() else {
        return Ok(());
    };
    let name = DirectoryName::of(&name);
    write_directory(device, index, wide, writer, form, name, record.id)
}

/// Writes what a directory is called and its lines, where it is one.
fn write_directory<D: Device, W: Write>(
    device: &mut D,
    index: &IndexFile,
    wide: &IndexFile,
    writer: &mut W,
    form: LineForm,
    name: DirectoryName,
    id: FileId,
) -> Result<(), ListFault>
    requires within { IndexLiesWithin (index_kept index.now) (length (D.disk device.old).image) }
    requires wide { IndexLiesWithin (index_kept wide.now) (length (D.disk device.old).image) }
    ensures writes { OnOk result
        (Writes (λ image t. lines_in form (index_kept wide.now) image t id name)
        (index_kept index.now)
        (D.disk device.old) (D.disk device.new) W.contents writer.old writer.new) }
    ensures failed { IfErr result (λ fault. BreaksOff fault (D.disk device.old) (D.disk device.new)) }
{
    let found = match FoundDirectory::open(device, index, wide, id) {
        Ok(Ok(found)) => found,
        Ok(Err(_)) => return Ok(()),
        Err(DeviceFault) => return Err(ListFault::DeviceFault),
    };
    match writeln!(writer, "{name}") {
        Ok(()) => {}
        Err(_) => return Err(ListFault::CannotWrite),
    }
    let by = found.index_by(index, wide);
    let mut directory = found.directory;
    write_records(device, by, index, wide, writer, form, &mut directory)
}
