//! The frame of a volume: its home block, its index file, its own files, and where its storage bitmap is.
ghost use Rattle.std.specs.Prelude.{IsTrue, IfOk, IsErrOf, length};
ghost use Rattle.f11_dev.specs.Looked.{Looked};
ghost use Rattle.f11_home.specs.Home.{IsSound};
ghost use Rattle.f11_index.specs.Kept.{index_kept, IndexLiesWithin};
ghost use Rattle.f11_vfy.specs.Frames.Read.{IsIndexOf, FramesBehind, Frames};
ghost use Rattle.f11_vfy.specs.Frames.Frame.{FailsToReadFrame, LacksFrameMemory};

use crate::fault::ReadFault;
use crate::frame::bitmap_file::read_bitmap_file;
use crate::frame::control::judge_control;
use crate::frame::earlier::are_earlier_named;
use crate::frame::framing::{Frame, Framing};
use crate::frame::own_files::first_no_file;
use f11_bytes::BLOCK_SIZE;
use f11_dev::Device;
use f11_home::{Home, HomeFault, find};
use f11_index::{IndexFault, IndexFile};
use std::alloc::Global;

/// The code of a device without a home block.
const NO_HOME: u8 = 1;

/// The code of an index file that isn't as it should be.
const INDEX_MISPLACED: u8 = 2;

/// The code of a first header that isn't that of the volume's own file.
const NO_OWN_FILE: u8 = 3;

/// The code of a storage bitmap file that isn't as it should be.
const BITMAP_FILE_BAD: u8 = 4;

/// The code of a control block that isn't as it should be.
const CONTROL_WRONG: u8 = 5;

/// The code of a bit of the index bitmap past the slots.
const BIT_PAST_SLOTS: u8 = 6;

/// Reads the frame of a volume, and finds its first fault: the candidates for the home block up to the one found, each once; the index
/// file, 16 bitmap blocks and 256 headers at most; where the home block isn't the first candidate, as many headers of file 3; headers 2, 3
/// and 4; 256 headers of file 2 at most; and the control block.
///
/// # Errors
///
/// `DeviceFault` where a transfer failed; `NoMemory` where there was no memory for what is kept.
pub fn read_frame<D: Device>(alloc: Global, device: &mut D) -> Result<Framing, ReadFault>
    ensures frames { IfOk result (λ framing.
        Frames framing (D.disk device.old) (D.disk device.new)) }
    ensures failed { IsErrOf result ReadFault.DeviceFault
        → FailsToReadFrame (D.disk device.old) (D.disk device.new) }
    ensures no_memory { IsErrOf result ReadFault.NoMemory
        → LacksFrameMemory (D.disk device.old) (D.disk device.new) }
{
    let home = match find(device) {
        Ok(home) => home,
        Err(HomeFault::NoHome) => return Ok(Framing::Faulty {
            code: NO_HOME,
            a: 0,
        }),
        Err(HomeFault::DeviceFault) => return Err(ReadFault::DeviceFault),
    };
    let index = match IndexFile::read(alloc, device, &home) {
        Ok(index) => index,
        Err(IndexFault::Misplaced) => {
            return Ok(Framing::Faulty {
                code: INDEX_MISPLACED,
                a: 0,
            });
        }
        Err(IndexFault::NoMemory) => return Err(ReadFault::NoMemory),
        Err(_) => return Err(ReadFault::DeviceFault),
    };
    read_files(alloc, device, &home, index)
}

/// Reads the volume's own files, where its index file is as it should be, and finds the first fault.
///
/// # Errors
///
/// `DeviceFault` where a transfer failed; `NoMemory` where there was no memory for what is kept.
fn read_files<D: Device>(
    alloc: Global,
    device: &mut D,
    home: &Home,
    index: IndexFile,
) -> Result<Framing, ReadFault>
    requires within { IndexLiesWithin (index_kept index) (length (D.disk device.old).image) }
    requires sound { IsTrue (D.disk device.old).honest
        → IsIndexOf (D.disk device.old).image home.now (index_kept index) }
    ensures frames { IfOk result (λ framing.
        FramesBehind home.now framing (D.disk device.old) (D.disk device.new)) }
    ensures failed { IsErrOf result ReadFault.DeviceFault
        → Looked (D.disk device.old) (D.disk device.new) 516 1 }
    ensures no_memory { IsErrOf result ReadFault.NoMemory
        → Looked (D.disk device.old) (D.disk device.new) 516 0 }
{
    if !are_earlier_named(alloc, device, &index, home.lbn())? {
        return Ok(Framing::faulty(INDEX_MISPLACED, 0));
    }
    if let Some(n) = first_no_file(device, &index)? {
        return Ok(Framing::faulty(NO_OWN_FILE, u32::from(n)));
    }
    let Some(blocks) = read_bitmap_file(alloc, device, &index)? else {
        return Ok(Framing::faulty(BITMAP_FILE_BAD, 0));
    };
    if blocks.len() == 0 {
        return Ok(Framing::faulty(BITMAP_FILE_BAD, 0));
    }
    let mut block = [0; BLOCK_SIZE];
    device.read(blocks[0], &mut block)?;
    let Some(control) = judge_control(&block, blocks.len(), device.blocks()) else {
        return Ok(Framing::faulty(CONTROL_WRONG, 0));
    };
    if let Some(n) = index.first_past() {
        return Ok(Framing::faulty(BIT_PAST_SLOTS, n));
    }
    let (count, size) = (control.count, control.size);
    Ok(Framing::Framed(Frame {
        index,
        blocks,
        count,
        size,
    }))
}
