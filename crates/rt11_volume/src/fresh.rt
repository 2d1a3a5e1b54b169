//! A fresh volume.
ghost use Rattle.std.specs.Prelude.{◌↔◌, IsTrue, ◌≡◌, IfOk, IfErr, OnOk, OnErr, length};
ghost use Rattle.rt11_volume.specs.Fresh.{HasRoom, fresh_block, WritesFresh, FailsToWriteFresh, Inits, FailsToInit};

use crate::directory::MOST_SEGMENTS;
use crate::volume::RtAccepted;
use f11_bytes::{Block, write_word, zeros};
use f11_dev::{Device, DeviceFault};

/// The first block of the directory.
const FIRST: u32 = 6;

/// The status of an empty area: octal 1000.
const EMPTY_STATUS: u16 = 512;

/// The status of an end mark: octal 4000.
const END_STATUS: u16 = 2048;

/// Why there is no fresh volume. The device is handed back.
#[derive(Drop)]
pub enum RtInitError<D> {
    /// The number of segments isn't 1 to 31, or there is no block behind the directory. Nothing was written.
    BadParameter(D),
    /// A transfer failed. The directory's first block is as it was, or the volume is whole.
    DeviceFault(D),
}

/// Whether a device of so many blocks has room for so many segments, 1 to 31, and for a block behind them.
fn has_room(segments: u16, blocks: u32) -> bool
    ensures { IsTrue result ↔ HasRoom segments blocks }
{
    0 < segments && segments <= MOST_SEGMENTS && FIRST + 2 * u32::from(segments) < blocks
}

/// The first block of a fresh directory on a device of so many blocks, for which there is room.
#[tactic(auto, unfolding(crate::specs::Fresh::fresh_block))]
fn fresh_block(segments: u16, blocks: u32) -> Block
    requires { HasRoom segments blocks }
    ensures { result ≡ fresh_block segments blocks }
{
    let start = 6 + 2 * segments;
    let space = blocks.min(65535) as u16 - start;
    let mut block = zeros();
    write_word(&mut block, 0, segments);
    write_word(&mut block, 4, 1);
    write_word(&mut block, 8, start);
    write_word(&mut block, 10, EMPTY_STATUS);
    write_word(&mut block, 18, space);
    write_word(&mut block, 24, END_STATUS);
    block
}

/// Writes a fresh directory, each of its blocks once, the first one last.
fn write_fresh<D: Device>(device: &mut D, segments: u16) -> Result<(), DeviceFault>
    requires { HasRoom segments (length (D.disk device.old).image) }
    ensures written { OnOk result
        (WritesFresh segments (D.disk device.old) (D.disk device.new)) }
    ensures failed { OnErr result
        (FailsToWriteFresh segments (D.disk device.old) (D.disk device.new)) }
{
    let nothing = zeros();
    for lbn in FIRST + 1..FIRST + 2 * u32::from(segments) {
        device.write(lbn, &nothing)?;
    }
    let first = fresh_block(segments, device.blocks());
    device.write(FIRST, &first)?;
    Ok(())
}

/// Makes a fresh volume with so many segments: their blocks alone are written, and all behind them, to the device's end or to
/// block 65534, is one empty area (profile). The directory's first block, which tells how many segments there are, is written last:
/// so an image whose directory has a wrong size, as one of zeros, has one at any stop before that write.
///
/// # Errors
///
/// `BadParameter` where the number of segments isn't 1 to 31, or where no block is left behind the directory, and then nothing is
/// written; `DeviceFault` where a transfer failed. Both hand the device back.
pub fn init<D: Device>(mut device: D, segments: u16) -> Result<RtAccepted<D>, RtInitError<D>>
    ensures inits { IfOk result (λ volume. Inits segments D.disk volume (D.disk device)) }
    ensures failed { IfErr result (λ error. FailsToInit segments D.disk error (D.disk device)) }
{
    if !has_room(segments, device.blocks()) {
        return Err(RtInitError::BadParameter(device));
    }
    match write_fresh(&mut device, segments) {
        Ok(()) => Ok(RtAccepted {
            device,
            failed: false,
            last: None,
        }),
        Err(DeviceFault) => Err(RtInitError::DeviceFault(device)),
    }
}
