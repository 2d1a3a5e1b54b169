//! A file of an RT-11 volume, faulty or not, is read.
ghost use Rattle.std.specs.Prelude.{◌≡◌, ◌+◌, ◌≤◌, ◌++◌, ◌∷◌, [], IfOk, OnOk};
ghost use Rattle.f11_dev.specs.Looked.{Looked};
ghost use Rattle.rt11_copy.specs.Reading.{HasArea, ReadsArea, ReadsFile, look_faults, read_transfers};

use f11_bytes::{BLOCK_SIZE, Block, NoMemory};
use f11_dev::Device;
use rt11_squeeze::read_date;
use rt11_volume::{LookFault, RtEntry};
use std::alloc::Global;

/// Adds a block.
fn push_block(all: &mut Vec<Block>, block: Block) -> Result<(), NoMemory>
    ensures { OnOk result (all.new.items ≡ all.old.items ++ block ∷ []) }
{
    Ok(all.push(block)?)
}

/// Reads so many blocks of a device from one on. It takes memory for them.
pub(crate) fn read_area<D: Device>(
    alloc: Global,
    device: &mut D,
    first: u32,
    count: u16,
) -> Result<Vec<Block>, LookFault>
    requires fits { first + count ≤ 65535 }
    requires there { HasArea first count (D.disk device.old) }
    ensures looked { Looked (D.disk device.old) (D.disk device.new) count (look_faults result) }
    ensures reads { IfOk result (λ blocks. ReadsArea first count blocks.items
        (D.disk device.old)) }
{
    let mut all = Vec::new(alloc);
    for place in 0..count {
        let mut block = [0; BLOCK_SIZE];
        match device.read(first + u32::from(place), &mut block) {
            Ok(()) => {}
            Err(_) => return Err(LookFault::DeviceFault),
        }
        match push_block(&mut all, block) {
            Ok(()) => {}
            Err(_) => return Err(LookFault::NoMemory),
        }
    }
    Ok(all)
}

/// Reads the date of an entry and the blocks of its area, all of which are on the device. It takes memory for them.
pub(crate) fn read_file<D: Device>(
    alloc: Global,
    device: &mut D,
    entry: &RtEntry,
) -> Result<(u16, Vec<Block>), LookFault>
    requires fits { entry.now.first + entry.now.blocks ≤ 65535 }
    requires there { HasArea entry.now.first entry.now.blocks (D.disk device.old) }
    ensures looked { Looked (D.disk device.old) (D.disk device.new)
        (read_transfers entry.now.blocks) (look_faults result) }
    ensures reads { IfOk result (λ file. ReadsFile entry.now file.0 file.1.items
        (D.disk device.old)) }
{
    let date = match read_date(device, entry) {
        Ok(date) => date,
        Err(_) => return Err(LookFault::DeviceFault),
    };
    match read_area(alloc, device, entry.first, entry.blocks) {
        Ok(blocks) => Ok((date, blocks)),
        Err(fault) => Err(fault),
    }
}
