//! The blocks of the storage bitmap file.
ghost use Rattle.std.specs.Prelude.{◌≡◌, ◌+◌, ◌<◌, ◌≤◌, ◌^◌, ◌++◌, [], length, vec_capacity, IsTrue, IfOk, IsErrOf, MatchOption};
ghost use Rattle.std.specs.List.{range_with_len};
ghost use Rattle.f11_dev.specs.Looked.{Looked};
ghost use Rattle.f11_header.specs.Header.{holds_header};
ghost use Rattle.f11_map.specs.HeaderBlock.{blocks_named};
ghost use Rattle.f11_index.specs.Kept.{index_kept, IndexLiesWithin};
ghost use Rattle.f11_vfy.specs.Frames.Parts.{needed, KeepsIf, ReadsBitmapFile, FindsNoBitmapFile};

use crate::fault::ReadFault;
use f11_bytes::{BLOCK_SIZE, Block, NoMemory};
use f11_chain::{ChainFault, MOST_HEADERS, first, next};
use f11_dev::Device;
use f11_index::IndexFile;
use f11_map::in_hand::map;
use std::alloc::Global;

/// How many of the first blocks of the storage bitmap file can be needed: the control block, and 126 bitmap blocks.
const NEEDED: u32 = 127;

/// The storage bitmap file's number.
const FILE: u16 = 2;

/// The LBNs of the first blocks of the storage bitmap file, 127 at most; `None` where its headers don't link rightly, or one of all its
/// blocks isn't on the device. It reads each of its headers once at most, and takes four bytes a block that it gives.
///
/// # Errors
///
/// `DeviceFault` where a transfer failed; `NoMemory` where there was no memory for the LBNs.
pub(crate) fn read_bitmap_file<D: Device>(
    alloc: Global,
    device: &mut D,
    index: &IndexFile,
) -> Result<Option<Vec<u32>>, ReadFault>
    requires within { IndexLiesWithin (index_kept index.now) (length (D.disk device.old).image) }
    ensures reads { IfOk result (λ found. MatchOption found
        (FindsNoBitmapFile (index_kept index.now) (D.disk device.old) (D.disk device.new))
        (λ blocks. ReadsBitmapFile (index_kept index.now) blocks.items
        (D.disk device.old) (D.disk device.new))) }
    ensures failed { IsErrOf result ReadFault.DeviceFault
        → Looked (D.disk device.old) (D.disk device.new) 256 1 }
    ensures no_memory { IsErrOf result ReadFault.NoMemory
        → Looked (D.disk device.old) (D.disk device.new) 0 0 }
{
    let mut kept = with_room(alloc)?;
    let mut block = [0; BLOCK_SIZE];
    let end = device.blocks();
    match first(device, index, FILE, &mut block) {
        Ok(()) => {}
        Err(ChainFault::Damaged) => return Ok(None),
        Err(_) => return Err(ReadFault::DeviceFault),
    }
    for _ in 0..MOST_HEADERS {
        if !keep_named(&mut kept, &block, end) {
            return Ok(None);
        }
        match next(device, index, &mut block) {
            Ok(Some(_)) => {}
            Ok(None) => return Ok(Some(kept)),
            Err(ChainFault::Damaged) => return Ok(None),
            Err(_) => return Err(ReadFault::DeviceFault),
        }
    }
    Ok(None)
}

/// Room for the LBNs that can be needed.
fn with_room(alloc: Global) -> Result<Vec<u32>, NoMemory>
    ensures { IfOk result (λ kept. (kept.items ≡ []) × (127 ≤ vec_capacity kept)) }
{
    Ok(Vec::with_capacity(alloc, NEEDED as usize)?)
}

/// Keeps the blocks that a header names behind the others, as far as they are needed; `false` where one of them isn't on a device of so
/// many blocks, and then some of them may have been kept.
fn keep_named(kept: &mut Vec<u32>, block: &Block, end: u32) -> bool
    requires header { IsTrue (holds_header block.now) }
    requires few { length kept.old.items ≤ 127 }
    requires room { 127 ≤ vec_capacity kept.old }
    ensures keeps { KeepsIf result (blocks_named block.now) end kept.old.items kept.new.items }
    ensures room { 127 ≤ vec_capacity kept.new }
{
    let map = map(block);
    for i in 0..map.runs() {
        let (lbn, count) = map.run(i);
        if end < lbn + count {
            return false;
        }
        keep_run(kept, lbn, count);
    }
    true
}

/// Keeps these blocks behind the others, as far as they are needed.
fn keep_run(kept: &mut Vec<u32>, lbn: u32, count: u32)
    requires lbns { lbn + count < 2 ^ 32 }
    requires few { length kept.old.items ≤ 127 }
    requires room { 127 ≤ vec_capacity kept.old }
    ensures keeps { kept.new.items ≡ needed (kept.old.items ++ range_with_len lbn count) }
    ensures room { vec_capacity kept.new ≡ vec_capacity kept.old }
{
    let more = count.min(NEEDED - kept.len() as u32);
    for i in 0..more {
        kept.push_reserved(lbn + i);
    }
}
