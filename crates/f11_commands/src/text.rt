//! The text of a file's records, taken out.
ghost use Rattle.std.specs.Prelude.{◌≡◌, ◌≤◌, false, length, IfErr, IfOk, OnErr};
ghost use Rattle.f11_commands.specs.Output.{TakesText};
ghost use Rattle.f11_commands.specs.TakingText.{CountsBefore, FailsToPour, FailsToWriteText, GivesBytes, GivesGoodText, IsTextBeforeBad, IsWholeText};
ghost use Rattle.f11_commands.specs.TakingText.{PoursText, WritesGoodText, WritesText};
ghost use Rattle.f11_commands.specs.declared.outcome.Failure.TheVariants as failures;
ghost use Rattle.f11_flx.specs.ToText.{ends_record, rest_of};
ghost use Rattle.f11_index.specs.Kept.{index_kept, IndexLiesWithin};
ghost use Rattle.f11_dev.specs.Looked.{Looked};
ghost use Rattle.f11_reader.specs.Reading.{IsReading, headers_left};

use crate::outcome::Failure;
use f11_bytes::BLOCK_SIZE;
use f11_dev::{Device, DeviceFault};
use f11_flx::{BadRecord, LineEnd, ToText};
use f11_header::Header;
use f11_index::IndexFile;
use f11_reader::FileReader;
use std::io::Write;

/// Writes the text of the records of a file, all of whose blocks are still to come: each record and LF, up to the file's end, or before the
/// block by which it breaks off, if it does. It says how
/// many bytes were written; or that a record goes past the end, or the attributes don't say how records lie, and then the text of the
/// records before that was written. Behind the last byte the writer is flushed. It makes at most so many transfers: two for each header
/// that the file may still have, one for each block before the end, and one that fails. No memory is taken.
///
/// # Errors
///
/// [`Failure::DeviceFault`] where a transfer failed: then the writer was given a beginning of the text. [`Failure::CannotWrite`] where
/// the writer takes no more: then it may hold a part of it.
pub(crate) fn write_text<D: Device, W: Write>(
    device: &mut D,
    index: &IndexFile,
    file: FileReader,
    broke: Option<u64>,
    writer: &mut W,
) -> Result<Result<u64, BadRecord>, Failure>
    requires within { IndexLiesWithin (index_kept index.now) (length (D.disk device.old).image) }
    requires reading { IsReading (index_kept index.now) file (D.disk device.old) }
    ensures writes { IfOk result (λ answer. IfOk answer (λ count.
        WritesText (index_kept index.now) file broke count
        (D.disk device.old) (D.disk device.new) W.contents writer.old writer.new)) }
    ensures bad { IfOk result (λ answer. OnErr answer (WritesGoodText (index_kept index.now) file broke
        (D.disk device.old) (D.disk device.new) W.contents writer.old writer.new)) }
    ensures failed { IfErr result (λ failure. FailsToWriteText failure (index_kept index.now) file broke
        (D.disk device.old) (D.disk device.new) W.contents writer.old writer.new) }
{
    let answer = put_records(device, index, file, broke, writer)?;
    writer.flush()?;
    Ok(answer)
}

/// How many blocks a file still has, before the one by which it breaks off, if it does.
pub(crate) fn blocks_before<D: Device>(
    device: &mut D,
    index: &IndexFile,
    file: FileReader,
    broke: Option<u64>,
) -> Result<u32, DeviceFault>
    requires within { IndexLiesWithin (index_kept index.now) (length (D.disk device.old).image) }
    requires reading { IsReading (index_kept index.now) file (D.disk device.old) }
    ensures counts { IfOk result (λ blocks. CountsBefore (index_kept index.now) file broke blocks
        (D.disk device.old) (D.disk device.new)) }
    ensures failed { OnErr result
        (Looked (D.disk device.old) (D.disk device.new) (headers_left file) 1) }
{
    let blocks = file.count(device, index)?;
    match broke {
        Some(vbn) => Ok(vbn.saturating_sub(1).min(u64::from(blocks)) as u32),
        None => Ok(blocks),
    }
}

/// Writes the text of the records of a file, up to its end, or before the block by which it breaks off, or before a record that goes past
/// that.
fn put_records<D: Device, W: Write>(
    device: &mut D,
    index: &IndexFile,
    file: FileReader,
    broke: Option<u64>,
    writer: &mut W,
) -> Result<Result<u64, BadRecord>, Failure>
    requires within { IndexLiesWithin (index_kept index.now) (length (D.disk device.old).image) }
    requires reading { IsReading (index_kept index.now) file (D.disk device.old) }
    ensures writes { IfOk result (λ answer. IfOk answer (λ count.
        WritesText (index_kept index.now) file broke count
        (D.disk device.old) (D.disk device.new) W.contents writer.old writer.new)) }
    ensures bad { IfOk result (λ answer. OnErr answer (WritesGoodText (index_kept index.now) file broke
        (D.disk device.old) (D.disk device.new) W.contents writer.old writer.new)) }
    ensures failed { IfErr result (λ failure. FailsToWriteText failure (index_kept index.now) file broke
        (D.disk device.old) (D.disk device.new) W.contents writer.old writer.new) }
{
    let attr = Header::new(file.header()).attributes();
    let blocks = blocks_before(device, index, file, broke)?;
    match ToText::ending(&attr, blocks, LineEnd::Lf) {
        Ok(text) => write_lines(device, index, file, text, writer),
        Err(bad) => Ok(Err(bad)),
    }
}

/// Writes the text that a conversion makes of a file: how many bytes, unless a record goes past the end.
fn write_lines<D: Device, W: Write>(
    device: &mut D,
    index: &IndexFile,
    file: FileReader,
    text: ToText,
    writer: &mut W,
) -> Result<Result<u64, BadRecord>, Failure>
    requires within { IndexLiesWithin (index_kept index.now) (length (D.disk device.old).image) }
    requires reading { IsReading (index_kept index.now) file (D.disk device.old) }
    requires begins { ends_record text ≡ false }
    ensures writes { IfOk result (λ answer. IfOk answer (λ count.
        PoursText (IsWholeText (index_kept index.now) file text count (D.disk device.old))
        (index_kept index.now) file text (D.disk device.old) (D.disk device.new) 0
        W.contents writer.old writer.new)) }
    ensures bad { IfOk result (λ answer. OnErr answer (
        PoursText (IsTextBeforeBad (index_kept index.now) file text (D.disk device.old))
        (index_kept index.now) file text (D.disk device.old) (D.disk device.new) 0
        W.contents writer.old writer.new)) }
    ensures failed { IfErr result (λ failure. FailsToPour failure (index_kept index.now) file text
        (D.disk device.old) (D.disk device.new) W.contents writer.old writer.new) }
{
    let (mut reader, mut text, mut count) = (file, text, 0);
    let mut block = [0; BLOCK_SIZE];
    while text.rest() > 0 {
        if !reader.read(device, index, &mut block)? {
            return Ok(Ok(count));
        }
        let size = text.rest().min(512) as usize;
        match pour(&mut text, &block[..size], writer)? {
            Ok(given) => count += given,
            Err(bad) => return Ok(Err(bad)),
        }
    }
    Ok(Ok(count))
}

/// Converts bytes of a file, and writes what they give: how many bytes, unless a record goes past the end.
///
/// # Errors
///
/// [`Failure::CannotWrite`] where the writer takes no more.
fn pour<W: Write>(
    text: &mut ToText,
    source: &[u8],
    writer: &mut W,
) -> Result<Result<u64, BadRecord>, Failure>
    requires size { length source.now ≤ 512 }
    requires few { length source.now ≤ rest_of text.old }
    ensures gives { IfOk result (λ answer. IfOk answer (λ count. TakesText W.contents
        (GivesBytes text.old text.new source.now count) writer.old writer.new)) }
    ensures bad { IfOk result (λ answer. OnErr answer (TakesText W.contents
        (GivesGoodText text.old source.now) writer.old writer.new)) }
    ensures failed { IfErr result (λ failure. failure ≡ failures.CannotWrite) }
{
    let mut piece = [0; BLOCK_SIZE];
    let (mut used, mut count) = (0, 0);
    loop {
        let (read, to, bad) = text.convert_good(&source[used..], &mut piece, 0);
        writer.write_all(&piece[..to])?;
        if bad {
            return Ok(Err(BadRecord));
        }
        used += read;
        count += to as u64;
        if to < BLOCK_SIZE {
            return Ok(Ok(count));
        }
    }
}
