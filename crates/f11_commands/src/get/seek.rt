//! The first step of `get`: the file is found.
ghost use Rattle.std.specs.Prelude.{◌≡◌, IfErr, IfOk, None, OnErr, length, if◌then◌else◌};
ghost use Rattle.f11_catalog.specs.Records.{Reads};
ghost use Rattle.f11_header.specs.Fields.{attributes};
ghost use Rattle.f11_index.specs.Kept.{index_kept, IndexLiesWithin};
ghost use Rattle.f11_reader.specs.Reading.{header_in_hand};
ghost use Rattle.f11_store.specs.File.{stated_end};
ghost use Rattle.f11_commands.specs.AnyVolume.{IsVerified};
ghost use Rattle.f11_commands.specs.FoundFile.{device_with, end_found, has_faults, index_with, is_used, reader_of, size_with};
ghost use Rattle.f11_commands.specs.GetCommand.{FailsToSeek, FindsSought, IsToRead, LacksSought, OpensSought, OpensWithEnd};
ghost use Rattle.f11_commands.specs.GetCommand.{TellsWhyNot};
ghost use Rattle.f11_commands.specs.GetCommand.{file_entered, file_identified, file_sought};
ghost use Rattle.f11_commands.specs.TakingOut.{bytes_to_come, lbns_to_come};
ghost use Rattle.f11_commands.specs.TakingText.{file_to_come};

use crate::finding::MASTER_DIRECTORY;
use crate::get::found::FoundFile;
use crate::get::open::open_file;
use crate::get::sought::Sought;
use crate::get::told::Called;
use crate::ls::Served;
use crate::outcome::{Answer, Failure};
use crate::size::volume_end;
use crate::volume::read_index;
use f11_catalog::find;
use f11_dev::{Device, DeviceFault};
use f11_index::IndexFile;
use f11_rad50::Name;
use f11_serving::f11_vfy::{VfyError, is_faulty};
use f11_store::{FileId, Refusal};
use std::alloc::Global;
use std::io::Write;

/// Finds the file that a directory has under a name, by the first record with that name; the directory is the one that the master file
/// directory has under its name. A file or a directory whose slot's bit is 0 is found all the same, where its header is valid and has the number
/// and the sequence number of the record.
/// It serves any volume whose home block and index file can be read, faulty or not, and writes nothing to it.
///
/// Where there is none it writes the line `no NoSuchFile`, `no NotDirectory` or `no NoSuchEntry`, and where the volume can't be read that of
/// its fault, F1 or F2: then it gives the device back, and what the command answers. Where the file is found it writes nothing.
///
/// # Errors
///
/// [`Failure::DeviceFault`] where a transfer failed and [`Failure::NoMemory`] where there was no memory, with nothing written; and
/// [`Failure::CannotWrite`] where there is such a line and the writer takes no more. Each comes with the device.
pub fn seek_file<D: Device, W: Write>(
    alloc: Global,
    device: D,
    writer: &mut W,
    directory: &Name,
    name: &Name,
) -> Result<Result<FoundFile<D>, (D, Served)>, (D, Failure)>
    ensures found { IfOk result (λ answer. IfOk answer (λ found. (writer.new ≡ writer.old)
        × IsVerified (has_faults found) (D.disk device)
        × FindsSought directory.now name.now (is_used found) (index_with found) (size_with found)
        (bytes_to_come (index_with found) (D.disk (device_with found))
        (reader_of found) (end_found found)) (end_found found)
        (lbns_to_come (index_with found) (D.disk (device_with found)) (reader_of found))
        (file_to_come (index_with found) (D.disk (device_with found)) (reader_of found))
        (D.disk device) (D.disk (device_with found)))) }
    ensures none { IfOk result (λ answer. IfErr answer (λ told.
        IsVerified told.1.faulty (D.disk device)
        × TellsWhyNot None directory.now name.now told.1.answer
        (D.disk device) (D.disk told.0) W.contents writer.old writer.new)) }
    ensures failed { IfErr result (λ failed. FailsToSeek failed.1 directory.now name.now
        (D.disk device) (D.disk failed.0) writer.old writer.new) }
{
    match is_faulty(alloc, device) {
        Ok((device, faulty)) => seek_verified(alloc, device, faulty, None, writer, directory, name),
        Err(VfyError::DeviceFault(device)) => Err((device, Failure::DeviceFault)),
        Err(VfyError::NoMemory(device)) => Err((device, Failure::NoMemory)),
    }
}

/// Finds a file as [`seek_file`] does, on a volume that has faults or hasn't: it isn't verified again. The line that says why there is none
/// begins with the name by which the file is called, where it is: `NAME no NoSuchFile`.
///
/// # Errors
///
/// As of [`seek_file`].
pub fn seek_verified<D: Device, W: Write>(
    alloc: Global,
    device: D,
    faulty: bool,
    called: Option<Name>,
    writer: &mut W,
    directory: &Name,
    name: &Name,
) -> Result<Result<FoundFile<D>, (D, Served)>, (D, Failure)>
    ensures found { IfOk result (λ answer. IfOk answer (λ found. (writer.new ≡ writer.old)
        × (has_faults found ≡ faulty)
        × FindsSought directory.now name.now (is_used found) (index_with found) (size_with found)
        (bytes_to_come (index_with found) (D.disk (device_with found))
        (reader_of found) (end_found found)) (end_found found)
        (lbns_to_come (index_with found) (D.disk (device_with found)) (reader_of found))
        (file_to_come (index_with found) (D.disk (device_with found)) (reader_of found))
        (D.disk device) (D.disk (device_with found)))) }
    ensures none { IfOk result (λ answer. IfErr answer (λ told. (told.1.faulty ≡ faulty)
        × TellsWhyNot called directory.now name.now told.1.answer
        (D.disk device) (D.disk told.0) W.contents writer.old writer.new)) }
    ensures failed { IfErr result (λ failed. FailsToSeek failed.1 directory.now name.now
        (D.disk device) (D.disk failed.0) writer.old writer.new) }
{
    let mut device = device;
    match seek_on_volume(alloc, &mut device, called, writer, directory, name) {
        Ok(Ok((index, found, size))) => Ok(Ok(FoundFile {
            device,
            index,
            file: found.file,
            end: found.end,
            size,
            in_use: found.in_use,
            faulty,
        })),
        Ok(Err(answer)) => Ok(Err((device, Served { answer, faulty }))),
        Err(failure) => Err((device, failure)),
    }
}

/// Reads the index file, and finds the file, or tells why it can't.
fn seek_on_volume<D: Device, W: Write>(
    alloc: Global,
    device: &mut D,
    called: Option<Name>,
    writer: &mut W,
    directory: &Name,
    name: &Name,
) -> Result<Result<(IndexFile, Sought, u32), Answer>, Failure>
    ensures found { IfOk result (λ answer. IfOk answer (λ found. (writer.new ≡ writer.old)
        × IsToRead (index_kept found.0) found.1.file (D.disk device.new)
        × FindsSought directory.now name.now found.1.in_use (index_kept found.0) found.2
        (bytes_to_come (index_kept found.0) (D.disk device.new) found.1.file found.1.end)
        found.1.end (lbns_to_come (index_kept found.0) (D.disk device.new) found.1.file)
        (file_to_come (index_kept found.0) (D.disk device.new) found.1.file)
        (D.disk device.old) (D.disk device.new))) }
    ensures none { IfOk result (λ answer. IfErr answer (λ told. TellsWhyNot called directory.now
        name.now told
        (D.disk device.old) (D.disk device.new) W.contents writer.old writer.new)) }
    ensures failed { IfErr result (λ failure. FailsToSeek failure directory.now name.now
        (D.disk device.old) (D.disk device.new) writer.old writer.new) }
{
    match read_index(alloc, device)? {
        Ok((_, index)) => {
            let wide = index.with_all_in_use(alloc)?;
            match seek_to_end(device, &index, &wide, directory, name)? {
                Ok((found, size)) => {
                    Ok(Ok((if found.in_use { index } else { wide }, found, size)))
                }
                Err(refusal) => {
                    let called = Called(called);
                    writeln!(writer, "{called}no {refusal}")?;
                    Ok(Err(Answer::Fault))
                }
            }
        }
        Err(fault) => {
            writeln!(writer, "fault {fault}")?;
            Ok(Err(Answer::Fault))
        }
    }
}

/// Finds the file as [`seek_in_index`] does, and where the volume ends.
fn seek_to_end<D: Device>(
    device: &mut D,
    index: &IndexFile,
    wide: &IndexFile,
    directory: &Name,
    name: &Name,
) -> Result<Result<(Sought, u32), Refusal>, DeviceFault>
    requires within { IndexLiesWithin (index_kept index.now) (length (D.disk device.old).image) }
    requires wide { IndexLiesWithin (index_kept wide.now) (length (D.disk device.old).image) }
    ensures found { IfOk result (λ answer. IfOk answer (λ found. OpensWithEnd
        (λ image t. file_sought (index_kept wide.now) image t directory.now name.now)
        (index_kept index.now) (index_kept wide.now) found.0 found.1
        (D.disk device.old) (D.disk device.new))) }
    ensures none { IfOk result (λ answer. IfErr answer (λ refusal. LacksSought
        (λ image t. file_sought (index_kept wide.now) image t directory.now name.now)
        (index_kept index.now) refusal (D.disk device.old) (D.disk device.new))) }
    ensures failed { OnErr result (Reads (D.disk device.old) (D.disk device.new) 1) }
{
    let size = volume_end(device, index, wide)?;
    match seek_in_index(device, index, wide, directory, name)? {
        Ok(found) => Ok(Ok((found, size))),
        Err(refusal) => Ok(Err(refusal)),
    }
}

/// Finds the file that the directory with a name has under a name, among those that an index file has, and where there is none among
/// those that `wide` has, which takes each slot as in use.
fn seek_in_index<D: Device>(
    device: &mut D,
    index: &IndexFile,
    wide: &IndexFile,
    directory: &Name,
    name: &Name,
) -> Result<Result<Sought, Refusal>, DeviceFault>
    requires within { IndexLiesWithin (index_kept index.now) (length (D.disk device.old).image) }
    requires wide { IndexLiesWithin (index_kept wide.now) (length (D.disk device.old).image) }
    ensures found { IfOk result (λ answer. IfOk answer (λ found. OpensSought
        (λ image t. file_sought (index_kept wide.now) image t directory.now name.now)
        (index_kept index.now) (index_kept wide.now) found (D.disk device.old) (D.disk device.new))) }
    ensures none { IfOk result (λ answer. IfErr answer (λ refusal. LacksSought
        (λ image t. file_sought (index_kept wide.now) image t directory.now name.now)
        (index_kept index.now) refusal (D.disk device.old) (D.disk device.new))) }
    ensures failed { OnErr result (Reads (D.disk device.old) (D.disk device.new) 1) }
{
    match find(device, index, wide, MASTER_DIRECTORY, directory)? {
        Ok(id) => open_entered(device, index, wide, id, name),
        Err(refusal) => Ok(Err(refusal)),
    }
}

/// Opens the file that a directory has under a name.
fn open_entered<D: Device>(
    device: &mut D,
    index: &IndexFile,
    wide: &IndexFile,
    directory: FileId,
    name: &Name,
) -> Result<Result<Sought, Refusal>, DeviceFault>
    requires within { IndexLiesWithin (index_kept index.now) (length (D.disk device.old).image) }
    requires wide { IndexLiesWithin (index_kept wide.now) (length (D.disk device.old).image) }
    ensures found { IfOk result (λ answer. IfOk answer (λ found. OpensSought
        (λ image t. file_entered (index_kept wide.now) image t name.now directory)
        (index_kept index.now) (index_kept wide.now) found (D.disk device.old) (D.disk device.new))) }
    ensures none { IfOk result (λ answer. IfErr answer (λ refusal. LacksSought
        (λ image t. file_entered (index_kept wide.now) image t name.now directory)
        (index_kept index.now) refusal (D.disk device.old) (D.disk device.new))) }
    ensures failed { OnErr result (Reads (D.disk device.old) (D.disk device.new) 1) }
{
    match find(device, index, wide, directory, name)? {
        Ok(id) => open_file(device, index, wide, id),
        Err(refusal) => Ok(Err(refusal)),
    }
}
