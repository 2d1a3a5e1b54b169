//! How many blocks a Files-11 volume has.
ghost use Rattle.std.specs.Prelude.{◌≡◌, IfErr, IfOk, OnErr, length};
ghost use Rattle.f11_catalog.specs.Records.{Reads};
ghost use Rattle.f11_commands.specs.GetCommand.{IsToRead};
ghost use Rattle.f11_commands.specs.Size.{FailsToFindWanted, FindsVolumeEnd, FindsWanted, ReadsControl, ReadsSize, if_above, size_in as size_of_control};
ghost use Rattle.f11_index.specs.Kept.{index_kept, IndexLiesWithin};

use crate::get::open::open_file;
use crate::outcome::Failure;
use crate::volume::read_index;
use f11_bytes::{BLOCK_BITS, BLOCK_SIZE, Block, read_long};
use f11_dev::{Device, DeviceFault};
use f11_index::IndexFile;
use f11_reader::FileReader;
use f11_store::FileId;
use std::alloc::Global;

/// The storage bitmap file (Files-11 On-Disk Structure Level 1, "Storage Bitmap File").
const BITMAP_FILE: FileId = FileId {
    number: 2,
    sequence: 2,
    volume: 0,
};

/// The most blocks that a volume has: 126 bitmap blocks have bits for them.
const MOST_BLOCKS: u32 = 516_096;

/// How many blocks a volume should have whose image ends early, by the control block of its storage bitmap file. `None` where it doesn't end
/// so, or where that can't be read.
///
/// # Errors
///
/// [`Failure::DeviceFault`] where a transfer failed, and [`Failure::NoMemory`] where there was no memory.
pub fn blocks_wanted<D: Device>(alloc: Global, device: &mut D) -> Result<Option<u32>, Failure>
    ensures finds { IfOk result (λ wanted. FindsWanted wanted (D.disk device.old) (D.disk device.new)) }
    ensures failed { IfErr result (λ failure. FailsToFindWanted failure
        (D.disk device.old) (D.disk device.new)) }
{
    match read_index(alloc, device)? {
        Ok((_, index)) => {
            let wide = index.with_all_in_use(alloc)?;
            let size = read_size(device, &index, &wide)?;
            Ok(above(device.blocks(), size))
        }
        Err(_) => Ok(None),
    }
}

/// Where a volume ends: behind as many blocks as its control block states, or the most that a volume may have, where that can't be read; and
/// not before its device does.
///
/// # Errors
///
/// `DeviceFault` where a transfer failed.
pub(crate) fn volume_end<D: Device>(
    device: &mut D,
    index: &IndexFile,
    wide: &IndexFile,
) -> Result<u32, DeviceFault>
    requires within { IndexLiesWithin (index_kept index.now) (length (D.disk device.old).image) }
    requires wide { IndexLiesWithin (index_kept wide.now) (length (D.disk device.old).image) }
    ensures finds { IfOk result (λ end. FindsVolumeEnd (index_kept index.now) (index_kept wide.now) end
        (D.disk device.old) (D.disk device.new)) }
    ensures failed { OnErr result (Reads (D.disk device.old) (D.disk device.new) 1) }
{
    let size = read_size(device, index, wide)?;
    Ok(size.unwrap_or(MOST_BLOCKS).max(device.blocks()))
}

/// A size, if it is above this.
fn above(blocks: u32, size: Option<u32>) -> Option<u32>
    ensures { result ≡ if_above blocks size }
{
    match size {
        Some(size) if size > blocks => Some(size),
        _ => None,
    }
}

/// The size that the control block of a volume states, if it does; whether or not the slot of its file is in use.
fn read_size<D: Device>(
    device: &mut D,
    index: &IndexFile,
    wide: &IndexFile,
) -> Result<Option<u32>, DeviceFault>
    requires within { IndexLiesWithin (index_kept index.now) (length (D.disk device.old).image) }
    requires wide { IndexLiesWithin (index_kept wide.now) (length (D.disk device.old).image) }
    ensures reads { IfOk result (λ size. ReadsSize (index_kept index.now) (index_kept wide.now) size
        (D.disk device.old) (D.disk device.new)) }
    ensures failed { OnErr result (Reads (D.disk device.old) (D.disk device.new) 1) }
{
    match open_file(device, index, wide, BITMAP_FILE)? {
        Ok(found) => {
            let by = if found.in_use { index } else { wide };
            read_control(device, by, found.file)
        }
        Err(_) => Ok(None),
    }
}

/// The size that the next block of a file states, which is a control block, if it does.
fn read_control<D: Device>(
    device: &mut D,
    by: &IndexFile,
    file: FileReader,
) -> Result<Option<u32>, DeviceFault>
    requires to_read { IsToRead (index_kept by.now) file (D.disk device.old) }
    ensures reads { IfOk result (λ size. ReadsControl (index_kept by.now) file size
        (D.disk device.old) (D.disk device.new)) }
    ensures failed { OnErr result (Reads (D.disk device.old) (D.disk device.new) 1) }
{
    let mut file = file;
    let mut block = [0; BLOCK_SIZE];
    if !file.read(device, by, &mut block)? {
        return Ok(None);
    }
    Ok(size_in(&block))
}

/// The size that a control block states, where it counts 1 to 126 bitmap blocks, and the size is 1 to 4,096 for each of these.
fn size_in(block: &Block) -> Option<u32>
    ensures { result ≡ size_of_control block.now }
{
    let count = usize::from(block[3]);
    if count == 0 || count > 126 {
        return None;
    }
    let size = read_long(block, 4 + 4 * count);
    if size == 0 || size > BLOCK_BITS * count as u32 {
        return None;
    }
    Some(size)
}
