//! Files-11 volumes.
use crate::{SYSTEM, ZEROS, file, keep, linked, memory};
use f11_bytes::{Block, write_word};
use f11_dev::{Device, DeviceFault, Memory};
use f11_fcp::Volume;
use f11_home::seal;
use f11_vfy::{InitError, InitParams, Report, init, verify};
use std::alloc::Global;
use std::test::Fail;

/// The blocks of the smallest devices here.
pub const BLOCKS: u32 = 24;

/// The blocks that a fresh volume of 16 slots has of them.
pub const USED: u32 = 22;

/// The parameters of a volume of 16 slots.
pub fn params() -> InitParams<'static> {
    InitParams {
        label: b"SMALL",
        slots: 16,
        max_files: 4000,
        owner: SYSTEM,
        date: [0; 14],
    }
}

/// Makes a volume, once more where a write failed: it may have found no memory for its record.
///
/// # Errors
///
/// `DeviceFault` where no volume is made.
pub fn made(device: Memory) -> Result<Memory, DeviceFault> {
    let done = match init(device, &params()) {
        Err(InitError::DeviceFault(device)) => init(device, &params()),
        done => done,
    };
    match done {
        Ok(made) => Ok(made.device()),
        Err(_) => Err(DeviceFault),
    }
}

/// A fresh volume of so many blocks and 16 slots: its blocks are free from 22 on, and its slots from 6 on.
///
/// # Errors
///
/// `DeviceFault` where no volume is made.
pub fn fresh(alloc: Global, blocks: u32) -> Result<Memory, DeviceFault> {
    match memory(alloc, blocks) {
        Ok(device) => made(device),
        Err(_) => Err(DeviceFault),
    }
}

/// A home block whose index bitmap is block 2.
fn home_block() -> Block {
    let mut block = ZEROS;
    write_word(&mut block, 0, 1);
    write_word(&mut block, 4, 2);
    write_word(&mut block, 8, 1);
    write_word(&mut block, 12, 0o401);
    block[496..508].copy_from_slice(b"DECFILE11A  ");
    seal(&mut block);
    block
}

/// A device of 600 blocks with a home block, this index bitmap, and these pointers of header 1, which is block 3.
///
/// # Errors
///
/// `DeviceFault` where there is no memory for it.
pub fn index_file(
    alloc: Global,
    bits: &Block,
    pointers: &[(u16, u8)],
) -> Result<Memory, DeviceFault> {
    let Ok(mut device) = memory(alloc, 600) else {
        return Err(DeviceFault);
    };
    keep(&mut device, 1, &home_block())?;
    keep(&mut device, 2, bits)?;
    let header = linked(file(1, 1), 0, file(0, 0), pointers);
    keep(&mut device, 3, &header)?;
    Ok(device)
}

/// An index file of 16 slots, of which those are in use whose bits are set here; header `n` is block `n + 2`.
///
/// # Errors
///
/// `DeviceFault` where there is no memory for it.
pub fn small_index_file(alloc: Global, slots: u16) -> Result<Memory, DeviceFault> {
    let mut bits = ZEROS;
    write_word(&mut bits, 0, slots);
    index_file(alloc, &bits, &[(0, 18)])
}

/// Mounts the volume of a device.
///
/// # Errors
///
/// Where it isn't accepted, or can't be mounted.
pub fn mounted<D: Device + Drop>(alloc: Global, device: D) -> Result<Volume<D>, Fail> {
    let Ok(Report::Accepted(accepted, _)) = verify(alloc, device) else {
        return Err(DeviceFault)?;
    };
    match Volume::mount(alloc, accepted) {
        Ok(volume) => Ok(volume),
        Err(_) => Err(DeviceFault)?,
    }
}
