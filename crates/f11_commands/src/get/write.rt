//! The second step of `get`: the file is written to the host.
ghost use Rattle.std.specs.Prelude.{◌≡◌, IfErr, IfOk, OnOk, length};
ghost use Rattle.f11_commands.specs.FoundFile.{device_with, end_found, has_faults, index_with, reader_of, size_with};
ghost use Rattle.f11_commands.specs.GetCommand.{FailsToTakeOut, FailsToTakeOutAs, FailsToTakeOutImage, FailsToTakeOutText, FailsToZero};
ghost use Rattle.f11_commands.specs.GetCommand.{TakesOut, TakesOutAs, TakesOutImage, TakesOutTextAs, TellsZeros, limit_in, text_line};
ghost use Rattle.f11_commands.specs.Output.{WriterTakes};
ghost use Rattle.f11_index.specs.Kept.{index_kept, IndexLiesWithin};
ghost use Rattle.f11_reader.specs.Reading.{IsReading};

use crate::contents::write_contents;
use crate::get::found::FoundFile;
use crate::get::missing::{ShownMissing, end_before};
use crate::get::told::{Called, Told};
use crate::ls::Served;
use crate::outcome::{Answer, Failure};
use crate::text::write_text;
use f11_bytes::BLOCK_SIZE;
use f11_dev::{Device, DeviceFault};
use f11_flx::CopyMode;
use f11_index::IndexFile;
use f11_rad50::Name;
use f11_reader::FileReader;
use std::io::{self, Write};

/// Writes a file that was found to the host, and then the line `copied N bytes`, which tells how many bytes the host was given, and begins with
/// the name by which the file is called, where it is. Where a block before the end lies past the volume's end, or no header names it, the file ends before it, and ` broke off at VBN V` stands at the line's
/// end.
///
/// As it is: its bytes up to its end. Where a block of these lies past the device's end, V being the first, zeros come for it, and
/// ` zeros from VBN V` stands behind the bytes. It makes at most so many transfers: one for each block before the end and three for each
/// header that a file may still have, and one that fails.
///
/// As text: each of its records and LF, up to its end; it ends before the first block past the device's end, too. Where a record goes past
/// the end, or the attributes don't say how records lie, the host is given the text of the records before that, none of it in the latter
/// case, and the line has `no BadRecord` for the bytes. It makes at most so many transfers: three for each header, one for each block before the
/// end, and one that fails.
///
/// # Errors
///
/// [`Failure::DeviceFault`] where a transfer failed: then the host was given a beginning of that, or all, and no line is written.
/// [`Failure::CannotWrite`] where the host takes no more, with no line begun, or the writer, when the host has all.
pub fn write_file<D: Device, H: Write, W: Write>(
    found: FoundFile<D>,
    called: Option<Name>,
    mode: CopyMode,
    host: &mut H,
    writer: &mut W,
) -> (D, Result<Served, Failure>)
    ensures writes { IfOk result.1 (λ served. TakesOut called mode served.answer (index_with found)
        (reader_of found) (size_with found) (end_found found) (D.disk (device_with found))
        (D.disk result.0) H.contents host.old host.new W.contents writer.old writer.new) }
    ensures verified { IfOk result.1 (λ served. served.faulty ≡ has_faults found) }
    ensures failed { IfErr result.1 (λ failure. FailsToTakeOut mode failure (index_with found)
        (reader_of found) (size_with found) (end_found found) (D.disk (device_with found))
        (D.disk result.0) H.contents host.old host.new writer.old writer.new) }
{
    let FoundFile {
        device,
        index,
        file,
        end,
        size,
        faulty,
        ..
    } = found;
    let mut device = device;
    let limit = limit(mode, size, device.blocks());
    match file.first_missing(&mut device, &index, end.div_ceil(BLOCK_SIZE as u64), limit) {
        Ok(broke) => match write_as(
            called,
            mode,
            &mut device,
            &index,
            file,
            end,
            broke,
            host,
            writer,
        ) {
            Ok(answer) => (device, Ok(Served { answer, faulty })),
            Err(failure) => (device, Err(failure)),
        },
        Err(DeviceFault) => (device, Err(Failure::DeviceFault)),
    }
}

/// Behind how many blocks a file breaks off: as it is at the volume's end, as text at the device's.
fn limit(mode: CopyMode, size: u32, blocks: u32) -> u32
    ensures { result ≡ limit_in mode size blocks }
{
    match mode {
        CopyMode::Image => size,
        CopyMode::Text => blocks,
    }
}

/// Writes a file in a mode to the host, up to an end or before the block by which it breaks off, and the line that tells of it.
fn write_as<D: Device, H: Write, W: Write>(
    called: Option<Name>,
    mode: CopyMode,
    device: &mut D,
    index: &IndexFile,
    file: FileReader,
    end: u64,
    broke: Option<u64>,
    host: &mut H,
    writer: &mut W,
) -> Result<Answer, Failure>
    requires within { IndexLiesWithin (index_kept index.now) (length (D.disk device.old).image) }
    requires reading { IsReading (index_kept index.now) file (D.disk device.old) }
    ensures writes { IfOk result (λ answer. TakesOutAs called mode answer (index_kept index.now) file end
        broke (D.disk device.old) (D.disk device.new) H.contents host.old host.new
        W.contents writer.old writer.new) }
    ensures failed { IfErr result (λ failure. FailsToTakeOutAs mode failure (index_kept index.now)
        file end broke (D.disk device.old) (D.disk device.new) H.contents host.old host.new
        writer.old writer.new) }
{
    match mode {
        CopyMode::Image => {
            write_image(called, device, index, file, end, broke, host, writer)?;
            Ok(Answer::Done)
        }
        CopyMode::Text => write_records(called, device, index, file, broke, host, writer),
    }
}

/// Writes a file's bytes before an end, or the block by which it breaks off, to the host, and the line that tells of them.
fn write_image<D: Device, H: Write, W: Write>(
    called: Option<Name>,
    device: &mut D,
    index: &IndexFile,
    file: FileReader,
    end: u64,
    broke: Option<u64>,
    host: &mut H,
    writer: &mut W,
) -> Result<(), Failure>
    requires within { IndexLiesWithin (index_kept index.now) (length (D.disk device.old).image) }
    requires reading { IsReading (index_kept index.now) file (D.disk device.old) }
    ensures writes { OnOk result (TakesOutImage called (index_kept index.now) file end broke
        (D.disk device.old) (D.disk device.new) H.contents host.old host.new
        W.contents writer.old writer.new) }
    ensures failed { IfErr result (λ failure. FailsToTakeOutImage failure (index_kept index.now)
        file end broke (D.disk device.old) (D.disk device.new) H.contents host.old host.new
        writer.old writer.new) }
{
    let cut = end_before(end, broke);
    let count = write_contents(device, index, file, cut, host)?;
    tell_zeros(called, device, index, file, cut, count, broke, writer)
}

/// Writes the line of a file of which so many bytes were given: it tells for which block before an end zeros were the first, if for any, and
/// by which the file broke off.
fn tell_zeros<D: Device, W: Write>(
    called: Option<Name>,
    device: &mut D,
    index: &IndexFile,
    file: FileReader,
    cut: u64,
    count: u64,
    broke: Option<u64>,
    writer: &mut W,
) -> Result<(), Failure>
    requires within { IndexLiesWithin (index_kept index.now) (length (D.disk device.old).image) }
    requires reading { IsReading (index_kept index.now) file (D.disk device.old) }
    ensures tells { OnOk result (TellsZeros called (index_kept index.now) file cut count broke
        (D.disk device.old) (D.disk device.new) W.contents writer.old writer.new) }
    ensures failed { IfErr result (λ failure. FailsToZero failure (index_kept index.now) file cut
        (D.disk device.old) (D.disk device.new) writer.old writer.new) }
{
    let blocks = device.blocks();
    let zeros = file.first_missing(device, index, cut.div_ceil(BLOCK_SIZE as u64), blocks)?;
    let told = Told::Copied(count);
    let missing = ShownMissing { zeros, broke };
    let called = Called(called);
    writeln!(writer, "{called}{told}{missing}")?;
    Ok(())
}

/// Writes the text of a file's records to the host, before the block by which it breaks off, and the line that tells of it, or that they
/// can't be read.
fn write_records<D: Device, H: Write, W: Write>(
    called: Option<Name>,
    device: &mut D,
    index: &IndexFile,
    file: FileReader,
    broke: Option<u64>,
    host: &mut H,
    writer: &mut W,
) -> Result<Answer, Failure>
    requires within { IndexLiesWithin (index_kept index.now) (length (D.disk device.old).image) }
    requires reading { IsReading (index_kept index.now) file (D.disk device.old) }
    ensures writes { IfOk result (λ answer. TakesOutTextAs called answer (index_kept index.now) file broke
        (D.disk device.old) (D.disk device.new) H.contents host.old host.new
        W.contents writer.old writer.new) }
    ensures failed { IfErr result (λ failure. FailsToTakeOutText failure (index_kept index.now) file
        broke (D.disk device.old) (D.disk device.new) H.contents host.old host.new
        writer.old writer.new) }
{
    match write_text(device, index, file, broke, host)? {
        Ok(count) => {
            tell(called, writer, Told::Copied(count), broke)?;
            Ok(Answer::Done)
        }
        Err(_) => {
            tell(called, writer, Told::BadRecords, broke)?;
            Ok(Answer::Fault)
        }
    }
}

/// Writes the line of a file that was taken out as text: it tells this, and by which block the file broke off.
fn tell<W: Write>(
    called: Option<Name>,
    writer: &mut W,
    told: Told,
    broke: Option<u64>,
) -> io::Result<()>
    ensures { OnOk result (WriterTakes W.contents writer.old writer.new
        (text_line called told broke)) }
{
    let missing = ShownMissing { zeros: None, broke };
    let called = Called(called);
    writeln!(writer, "{called}{told}{missing}")
}
