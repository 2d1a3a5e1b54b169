//! A file's content, taken out.
ghost use Rattle.std.specs.Prelude.{◌≡◌, length, IfErr, IfOk};
ghost use Rattle.f11_commands.specs.TakingOut.{FailsToWriteContent, StopsWriting, WritesContent};
ghost use Rattle.f11_index.specs.Kept.{index_kept, IndexLiesWithin};
ghost use Rattle.f11_reader.specs.Reading.{IsReading};

use crate::outcome::{Failure, Stop};
use f11_bytes::BLOCK_SIZE;
use f11_dev::{Device, DeviceFault};
use f11_index::IndexFile;
use f11_reader::FileReader;
use std::io::Write;

/// Writes the bytes of a file that are still to come, before `end` bytes: each block whole, and the last one cut there. Where the file
/// ends earlier, so does the text. Behind the last one the writer is flushed. It says how many bytes were written. It makes at most so many
/// transfers: one for each block before the end and one for each header that a file may still have, and one that fails. No memory is taken.
///
/// # Errors
///
/// [`Failure::DeviceFault`] where a transfer failed: then the writer was given a beginning of the bytes. [`Failure::CannotWrite`] where
/// the writer takes no more: then it may hold a part of them.
pub(crate) fn write_contents<D: Device, W: Write>(
    device: &mut D,
    index: &IndexFile,
    file: FileReader,
    end: u64,
    writer: &mut W,
) -> Result<u64, Failure>
    requires within { IndexLiesWithin (index_kept index.now) (length (D.disk device.old).image) }
    requires reading { IsReading (index_kept index.now) file (D.disk device.old) }
    ensures writes { IfOk result (λ count. WritesContent (index_kept index.now) file end count
        (D.disk device.old) (D.disk device.new) W.contents writer.old writer.new) }
    ensures failed { IfErr result (λ failure. FailsToWriteContent failure (index_kept index.now)
        file end (D.disk device.old) (D.disk device.new) W.contents writer.old writer.new) }
{
    match put_contents(device, index, file, end, writer) {
        Ok(count) => Ok(count),
        Err(Stop::DeviceFault(_)) => Err(Failure::DeviceFault),
        Err(Stop::CannotWrite) => Err(Failure::CannotWrite),
    }
}

/// As [`write_contents`], and where a transfer failed it says how many bytes were written before.
///
/// # Errors
///
/// [`Stop::DeviceFault`] where a transfer failed, and [`Stop::CannotWrite`] where the writer takes no more.
pub(crate) fn put_contents<D: Device, W: Write>(
    device: &mut D,
    index: &IndexFile,
    file: FileReader,
    end: u64,
    writer: &mut W,
) -> Result<u64, Stop>
    requires within { IndexLiesWithin (index_kept index.now) (length (D.disk device.old).image) }
    requires reading { IsReading (index_kept index.now) file (D.disk device.old) }
    ensures writes { IfOk result (λ count. WritesContent (index_kept index.now) file end count
        (D.disk device.old) (D.disk device.new) W.contents writer.old writer.new) }
    ensures stops { IfErr result (λ stop. StopsWriting stop (index_kept index.now)
        file end (D.disk device.old) (D.disk device.new) W.contents writer.old writer.new) }
{
    let count = put_blocks(device, index, file, end, writer)?;
    writer.flush()?;
    Ok(count)
}

/// Writes the bytes of a file before `end`, a block at a time.
fn put_blocks<D: Device, W: Write>(
    device: &mut D,
    index: &IndexFile,
    file: FileReader,
    end: u64,
    writer: &mut W,
) -> Result<u64, Stop>
    requires within { IndexLiesWithin (index_kept index.now) (length (D.disk device.old).image) }
    requires reading { IsReading (index_kept index.now) file (D.disk device.old) }
    ensures writes { IfOk result (λ count. WritesContent (index_kept index.now) file end count
        (D.disk device.old) (D.disk device.new) W.contents writer.old writer.new) }
    ensures stops { IfErr result (λ stop. StopsWriting stop (index_kept index.now)
        file end (D.disk device.old) (D.disk device.new) W.contents writer.old writer.new) }
{
    let (mut reader, mut left) = (file, end);
    let mut block = [0; BLOCK_SIZE];
    while left > 0 {
        match reader.read(device, index, &mut block) {
            Ok(true) => {}
            Ok(false) => return Ok(end - left),
            Err(DeviceFault) => return Err(Stop::DeviceFault(end - left)),
        }
        let count = left.min(BLOCK_SIZE as u64);
        writer.write_all(&block[..count as usize])?;
        left -= count;
    }
    Ok(end)
}
