//! A text of an RT-11 volume, written as one of the host.
ghost use Rattle.std.specs.Prelude.{◌≡◌, IfErr, IfOk, OnOk};
ghost use Rattle.f11_commands.specs.Output.{WriterTakes};
ghost use Rattle.f11_commands.specs.RtAny.{done_so};
ghost use Rattle.f11_commands.specs.RtFound.{found_bad, found_device, found_entry, found_state};
ghost use Rattle.f11_commands.specs.RtText.{EndsGetText, FailsToTakeText, TakesText, text_line};

use crate::outcome::Failure;
use crate::rt_any::{RtServed, write_replaced};
use crate::rt_area::{AreaStop, ShownBreak, first_past, read_at};
use crate::rt_get::done;
use crate::rt_get::found::FoundRtFile;
use f11_bytes::BLOCK_SIZE;
use f11_dev::{Device, DeviceFault};
use rt11_text::{Piece, ToHost};
use rt11_volume::RtEntry;
use std::io::{self, Write};

/// Writes the text of the host that a file holds which was found (RT-11 System User's Guide, COPY with /ASCII) to `host`: its bytes before the
/// first CTRL/Z but for NULs, with LF for each CR LF; blocks past the device's end are zeros. Then it writes the line `copied N bytes`, N being
/// how many were written, to `writer`, and behind it ` broke off at block V` where V, from 1, is the first that lies past the end, and ` block N
/// replaced` for each of the file's that the table of bad blocks has. The device comes back; nothing is written to it. No memory is taken.
///
/// # Errors
///
/// [`Failure::DeviceFault`] where a transfer failed: then `host` got a beginning of the text. [`Failure::CannotWrite`] where `host` takes no
/// more, and then it isn't said what it got, and nothing is written to `writer`; or where `writer` takes no more, and `host` has all.
pub fn write_rt_text<D: Device, H: Write, W: Write>(
    file: FoundRtFile<D>,
    host: &mut H,
    writer: &mut W,
) -> (D, Result<RtServed, Failure>)
    ensures ends { EndsGetText (found_entry file) (found_bad file) (found_state file) result.1
        (D.disk (found_device file)) (D.disk result.0)
        H.contents host.old host.new W.contents writer.old writer.new }
{
    let FoundRtFile {
        mut device,
        entry,
        state,
        bad,
    } = file;
    match write_text(&mut device, entry.first, entry.blocks, host) {
        Ok(bytes) => {
            let size = device.blocks();
            match tell_text(&entry, bad.as_slice(), size, bytes, writer) {
                Ok(()) => (device, Ok(done(state))),
                Err(_) => (device, Err(Failure::CannotWrite)),
            }
        }
        Err(AreaStop::DeviceFault(_)) => (device, Err(Failure::DeviceFault)),
        Err(AreaStop::HostFull) => (device, Err(Failure::CannotWrite)),
    }
}

/// Writes the text that so many blocks of a device hold from one on to the host, and flushes the host's file: how many bytes.
fn write_text<D: Device, H: Write>(
    device: &mut D,
    first: u32,
    blocks: u16,
    host: &mut H,
) -> Result<u64, AreaStop>
    ensures takes { IfOk result (λ bytes. TakesText first blocks bytes
        (D.disk device.old) (D.disk device.new) H.contents host.old host.new) }
    ensures failed { IfErr result (λ stop. FailsToTakeText first blocks stop
        (D.disk device.old) (D.disk device.new) H.contents host.old host.new) }
{
    let mut text = ToHost::begin();
    let mut piece = Piece::new();
    let mut block = [0; BLOCK_SIZE];
    let mut bytes = 0;
    for place in 0..blocks {
        match read_at(device, u64::from(first) + u64::from(place), &mut block) {
            Ok(()) => {}
            Err(DeviceFault) => return Err(AreaStop::DeviceFault(place)),
        }
        text.convert(&block, &mut piece);
        host.write_all(&piece)?;
        bytes += piece.len() as u64;
    }
    let last = text.end();
    host.write_all(last)?;
    host.flush()?;
    Ok(bytes + last.len() as u64)
}

/// Writes the line of a file of which so many bytes were written, from a device of so many blocks, on which these are bad.
fn tell_text<W: Write>(
    entry: &RtEntry,
    bad: &[u16],
    size: u32,
    bytes: u64,
    writer: &mut W,
) -> io::Result<()>
    ensures { OnOk result (WriterTakes W.contents writer.old writer.new
        (text_line entry.now bad.now size bytes)) }
{
    let broken = ShownBreak(first_past(entry.first, entry.blocks, size));
    write!(writer, "copied {bytes} bytes{broken}")?;
    write_replaced(writer, bad, entry.first, entry.blocks)?;
    writeln!(writer)
}
