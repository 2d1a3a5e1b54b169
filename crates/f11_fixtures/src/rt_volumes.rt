//! RT-11 volumes.
use crate::put_words;
use f11_dev::{DeviceFault, Memory};
use rt11_volume::{RtInitError, init};

/// The segments of the directories here.
pub const SEGMENTS: u16 = 5;

/// The directory's blocks on the devices here, from block 6 on.
pub const DIRECTORY: u32 = 10;

/// The blocks of the devices, two of them behind the directory.
pub const BLOCKS: u32 = 18;

/// Makes a volume, once more where a write failed: it may have found no memory for its record.
///
/// # Errors
///
/// `DeviceFault` where no volume is made.
pub fn made(device: Memory) -> Result<Memory, DeviceFault> {
    let done = match init(device, SEGMENTS) {
        Err(RtInitError::DeviceFault(device)) => init(device, SEGMENTS),
        done => done,
    };
    match done {
        Ok(made) => Ok(made.device()),
        Err(_) => Err(DeviceFault),
    }
}

/// Takes all segments of a fresh volume into use, the later ones without an entry.
///
/// # Errors
///
/// `DeviceFault` where a transfer failed.
pub fn fill(device: &mut Memory) -> Result<(), DeviceFault> {
    put_words(device, 6, &[(2, 2), (4, SEGMENTS)])?;
    for k in 2..=SEGMENTS {
        let next = if k < SEGMENTS { k + 1 } else { 0 };
        let lbn = 4 + 2 * u32::from(k);
        put_words(device, lbn, &[(2, next), (8, 18), (10, 0o4000)])?;
    }
    Ok(())
}
