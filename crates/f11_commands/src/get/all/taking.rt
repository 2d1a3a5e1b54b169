//! A file's content is taken out as far as it can be.
ghost use Rattle.std.specs.Prelude.{◌≡◌, ◌*◌, if◌then◌else◌, length, IfErr, IfOk, OnErr};
ghost use Rattle.f11_catalog.specs.Records.{Reads};
ghost use Rattle.f11_commands.specs.AllCommand.{FindsEndTaken, TakesAtEnd, TakesFile, TakesNone};
ghost use Rattle.f11_dev.specs.Looked.{Looked};
ghost use Rattle.f11_commands.specs.TakingOut.{ReadsBefore, end_before};
ghost use Rattle.f11_index.specs.Kept.{index_kept, IndexLiesWithin};
ghost use Rattle.f11_reader.specs.Reading.{IsReading, headers_left};

use crate::contents::put_contents;
use crate::get::blocks::last_end;
use crate::get::missing::end_before as end_cut;
use crate::get::open::has_open_end;
use crate::outcome::Stop;
use f11_bytes::BLOCK_SIZE;
use f11_catalog::stated_end;
use f11_dev::{Device, DeviceFault};
use f11_header::Header;
use f11_index::IndexFile;
use f11_reader::FileReader;
use std::io::Write;

/// What was taken out of a file.
#[derive(Clone, Copy)]
pub(crate) struct Taken {
    /// How many bytes were written.
    pub(crate) bytes: u64,
    /// The first block before the end for which zeros were written, since it lies past the device's end.
    pub(crate) zeros: Option<u64>,
    /// The first block before the end by which the file broke off: it lies past the volume's end, or no header names it, or it couldn't be
    /// read.
    pub(crate) broke: Option<u64>,
    /// Whether a transfer failed.
    pub(crate) failed: bool,
    /// Whether all its blocks were to be taken out, since it wasn't closed and states no end.
    pub(crate) all_blocks: bool,
}

impl Taken {
    ghost use Rattle.f11_commands.specs.AllCommand.{is_cut};

    /// Whether a block isn't there.
    pub(crate) fn is_cut(&self) -> bool
        ensures { result ≡ is_cut self.now }
    {
        self.zeros.is_some() || self.broke.is_some()
    }
}

/// The host's file takes no more.
#[derive(Clone, Copy)]
pub(crate) struct HostFull;

/// Where a file ends in bytes as it is taken out: where it states, and behind its last block where it wasn't closed and states the end 0,
/// as a file does that was open when the system stopped, or past it where its headers break off there; and whether that is so.
fn end_taken<D: Device>(
    device: &mut D,
    index: &IndexFile,
    file: &FileReader,
) -> Result<(u64, bool), DeviceFault>
    requires within { IndexLiesWithin (index_kept index.now) (length (D.disk device.old).image) }
    requires reading { IsReading (index_kept index.now) file.now (D.disk device.old) }
    ensures finds { IfOk result (λ end. FindsEndTaken (index_kept index.now) file.now end.0 end.1
        (D.disk device.old) (D.disk device.new)) }
    ensures failed { OnErr result
        (Looked (D.disk device.old) (D.disk device.new) (2 * headers_left file.now) 1) }
{
    if !has_open_end(file) {
        let end = stated_end(&Header::new(file.header()).attributes());
        return Ok((end, false));
    }
    let (end, blocks) = last_end(device, index, file)?;
    Ok((end, blocks != 0))
}

/// Takes out a file as [`take_out`] does, by the index file where its slot is in use, else by that with each slot in use.
///
/// # Errors
///
/// [`HostFull`] where the host takes no more: then it may hold a part.
pub(crate) fn take_by<D: Device, H: Write>(
    device: &mut D,
    index: &IndexFile,
    wide: &IndexFile,
    in_use: bool,
    size: u32,
    file: &FileReader,
    host: &mut H,
) -> Result<Taken, HostFull>
    requires within { IndexLiesWithin (index_kept index.now) (length (D.disk device.old).image) }
    requires wide { IndexLiesWithin (index_kept wide.now) (length (D.disk device.old).image) }
    requires reading { IsReading (if in_use then index_kept index.now else index_kept wide.now)
        file.now (D.disk device.old) }
    ensures takes { IfOk result (λ taken. TakesAtEnd
        (if in_use then index_kept index.now else index_kept wide.now) size file.now taken
        (D.disk device.old) (D.disk device.new) H.contents host.old host.new) }
    ensures full { OnErr result (Reads (D.disk device.old) (D.disk device.new) 0) }
{
    if in_use {
        take_out(device, index, size, file, host)
    } else {
        take_out(device, wide, size, file, host)
    }
}

/// Writes the bytes of a file up to its end to the host, or before the first block that lies past the volume's end, or that no header names,
/// and finds for which block zeros were the first. Where a transfer fails it stops there.
///
/// # Errors
///
/// [`HostFull`] where the host takes no more: then it may hold a part.
fn take_out<D: Device, H: Write>(
    device: &mut D,
    index: &IndexFile,
    size: u32,
    file: &FileReader,
    host: &mut H,
) -> Result<Taken, HostFull>
    requires within { IndexLiesWithin (index_kept index.now) (length (D.disk device.old).image) }
    requires reading { IsReading (index_kept index.now) file.now (D.disk device.old) }
    ensures takes { IfOk result (λ taken. TakesAtEnd (index_kept index.now) size file.now taken
        (D.disk device.old) (D.disk device.new) H.contents host.old host.new) }
    ensures full { OnErr result (Reads (D.disk device.old) (D.disk device.new) 0) }
{
    match end_taken(device, index, file) {
        Ok((end, all_blocks)) => {
            match file.first_missing(device, index, end.div_ceil(BLOCK_SIZE as u64), size) {
                Ok(broke) => take_to(device, index, *file, end, broke, all_blocks, host),
                Err(DeviceFault) => Ok(none_taken(file)),
            }
        }
        Err(DeviceFault) => Ok(none_taken(file)),
    }
}

/// That nothing was taken out of a file, since a transfer failed before its first byte.
fn none_taken(file: &FileReader) -> Taken
    ensures { TakesNone file.now result }
{
    Taken {
        bytes: 0,
        zeros: None,
        broke: Some(1),
        failed: true,
        all_blocks: has_open_end(file),
    }
}

/// Writes the bytes of a file up to an end to the host, or before the block by which it breaks off, and finds for which block zeros were the
/// first.
fn take_to<D: Device, H: Write>(
    device: &mut D,
    index: &IndexFile,
    file: FileReader,
    end: u64,
    broke: Option<u64>,
    all_blocks: bool,
    host: &mut H,
) -> Result<Taken, HostFull>
    requires within { IndexLiesWithin (index_kept index.now) (length (D.disk device.old).image) }
    requires reading { IsReading (index_kept index.now) file (D.disk device.old) }
    ensures takes { IfOk result (λ taken. (taken.all_blocks ≡ all_blocks)
        × TakesFile (index_kept index.now) file end broke taken
        (D.disk device.old) (D.disk device.new) H.contents host.old host.new) }
    ensures full { OnErr result (ReadsBefore (index_kept index.now) file (end_before end broke)
        (D.disk device.old) (D.disk device.new) 0) }
{
    let cut = end_cut(end, broke);
    let blocks = device.blocks();
    match put_contents(device, index, file, cut, host) {
        Ok(bytes) => match file.first_missing(
            device,
            index,
            cut.div_ceil(BLOCK_SIZE as u64),
            blocks,
        ) {
            Ok(zeros) => Ok(Taken {
                bytes,
                zeros,
                broke,
                failed: false,
                all_blocks,
            }),
            Err(DeviceFault) => Ok(Taken {
                bytes,
                zeros: None,
                broke,
                failed: true,
                all_blocks,
            }),
        },
        Err(Stop::DeviceFault(bytes)) => Ok(Taken {
            bytes,
            zeros: None,
            broke: Some(bytes / BLOCK_SIZE as u64 + 1),
            failed: true,
            all_blocks,
        }),
        Err(Stop::CannotWrite) => Err(HostFull),
    }
}
