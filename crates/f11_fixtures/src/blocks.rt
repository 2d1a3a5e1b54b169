//! Blocks and words of devices in memory.
use f11_bytes::{BLOCK_SIZE, Block, NoMemory, read_word, write_word};
use f11_dev::{Device, DeviceFault, Memory};
use std::alloc::Global;

/// A block of zeros.
pub const ZEROS: Block = [0; BLOCK_SIZE];

/// A block whose bytes are all the same.
pub const SEVENS: Block = [7; BLOCK_SIZE];

/// Memory for a device, asked for again where it is refused once.
///
/// # Errors
///
/// `NoMemory` where it is refused twice.
pub fn memory(alloc: Global, blocks: u32) -> Result<Memory, NoMemory> {
    Memory::new(alloc, blocks).or_else(|_| Memory::new(alloc, blocks))
}

/// Reads a block.
///
/// # Errors
///
/// `DeviceFault` where the device has no such block, or the read failed.
pub fn get(device: &mut impl Device, lbn: u32) -> Result<Block, DeviceFault> {
    let mut block = SEVENS;
    if lbn >= device.blocks() {
        return Err(DeviceFault);
    }
    device.read(lbn, &mut block)?;
    Ok(block)
}

/// Writes a block.
///
/// # Errors
///
/// `DeviceFault` where the device has no such block, or the write failed.
pub fn put(device: &mut impl Device, lbn: u32, block: &Block) -> Result<(), DeviceFault> {
    if lbn >= device.blocks() {
        return Err(DeviceFault);
    }
    device.write(lbn, block)
}

/// Writes a block, once more where the first write failed.
///
/// # Errors
///
/// `DeviceFault` where the device has no such block, or both writes failed.
pub fn keep(device: &mut impl Device, lbn: u32, block: &Block) -> Result<(), DeviceFault> {
    if put(device, lbn, block).is_ok() {
        return Ok(());
    }
    put(device, lbn, block)
}

/// Whether two devices have the same blocks.
///
/// # Errors
///
/// `DeviceFault` where a read failed.
pub fn are_alike(mut one: Memory, mut other: Memory) -> Result<bool, DeviceFault> {
    if one.blocks() != other.blocks() {
        return Ok(false);
    }
    for lbn in 0..one.blocks() {
        if get(&mut one, lbn)? != get(&mut other, lbn)? {
            return Ok(false);
        }
    }
    Ok(true)
}

/// Writes words into a block of a device, each at its byte, where there is one.
///
/// # Errors
///
/// Those of [`get`] and [`keep`].
pub fn put_words(
    device: &mut impl Device,
    lbn: u32,
    words: &[(usize, u16)],
) -> Result<(), DeviceFault> {
    let mut block = get(device, lbn)?;
    for (at, word) in words {
        if *at < 511 {
            write_word(&mut block, *at, *word);
        }
    }
    keep(device, lbn, &block)
}

/// Whether a block of a device has these words, each at its byte.
///
/// # Errors
///
/// Those of [`get`].
pub fn has_words(
    device: &mut impl Device,
    lbn: u32,
    words: &[(usize, u16)],
) -> Result<bool, DeviceFault> {
    let block = get(device, lbn)?;
    for (at, word) in words {
        if *at >= 511 || read_word(&block, *at) != *word {
            return Ok(false);
        }
    }
    Ok(true)
}

/// A device whose bytes are all sevens.
///
/// # Errors
///
/// `DeviceFault` where there is no memory for it.
pub fn sevens(alloc: Global, blocks: u32) -> Result<Memory, DeviceFault> {
    let Ok(mut device) = memory(alloc, blocks) else {
        return Err(DeviceFault);
    };
    for lbn in 0..blocks {
        keep(&mut device, lbn, &SEVENS)?;
    }
    Ok(device)
}

/// Whether the first so many blocks of a device are those of another, and sevens stand behind them.
///
/// # Errors
///
/// Those of [`get`].
pub fn has_front(
    device: &mut impl Device,
    whole: &mut impl Device,
    count: u32,
) -> Result<bool, DeviceFault> {
    for lbn in 0..device.blocks() {
        let want = if lbn < count {
            get(whole, lbn)?
        } else {
            SEVENS
        };
        if get(device, lbn)? != want {
            return Ok(false);
        }
    }
    Ok(true)
}

/// Whether the first `count` of so many writes were made on a device of sevens: those of another's blocks from `first` to before `end`,
/// in ascending order but for block `last`, which is written behind all others.
///
/// # Errors
///
/// Those of [`get`].
pub fn has_written(
    device: &mut impl Device,
    whole: &mut impl Device,
    (first, last, end): (u32, u32, u32),
    count: u32,
) -> Result<bool, DeviceFault> {
    for lbn in 0..device.blocks() {
        let place = if lbn == last {
            end.saturating_sub(first)
        } else if lbn < last {
            lbn.saturating_sub(first).saturating_add(1)
        } else {
            lbn.saturating_sub(first)
        };
        let is_written = first <= lbn && lbn < end && place <= count;
        let want = if is_written { get(whole, lbn)? } else { SEVENS };
        if get(device, lbn)? != want {
            return Ok(false);
        }
    }
    Ok(true)
}
