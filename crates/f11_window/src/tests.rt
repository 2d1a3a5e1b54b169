//! That a window is the blocks it is said to be.
ghost use Rattle.f11_window.specs.Part.{KeepsOutside};

use crate::{PARTITION_STEP, Window};
use f11_dev::{Block, Device, DeviceFault, Fuse, Memory, ReadsRuns};
use std::alloc::Global;
use std::test::Fail;

const ZEROS: Block = [0; 512];

const SEVENS: Block = [7; 512];

/// How many blocks the small devices here have.
const BLOCKS: u32 = 10;

/// The block whose bytes are its own number.
fn numbered(lbn: u32) -> Block {
    [(lbn % 256) as u8; 512]
}

/// A device of such blocks.
fn device(alloc: Global) -> Result<Memory, Fail> {
    let mut device = Memory::new(alloc, BLOCKS)?;
    for lbn in 0..BLOCKS {
        writes(&mut device, lbn, &numbered(lbn));
    }
    Ok(device)
}

/// Whether a block is written.
fn writes(device: &mut impl Device, lbn: u32, block: &Block) -> bool {
    lbn < device.blocks() && device.write(lbn, block).is_ok()
}

/// Whether so many blocks become zeros.
fn zeroes(device: &mut impl Device, lbn: u32, count: u32) -> bool {
    let blocks = device.blocks();
    count <= blocks && lbn <= blocks - count && device.write_zeros(lbn, count).is_ok()
}

/// Whether a block is read, and is this one.
fn has(device: &mut impl Device, lbn: u32, block: &Block) -> bool {
    let mut found = ZEROS;
    lbn < device.blocks() && device.read(lbn, &mut found).is_ok() && found == *block
}

/// How many blocks a window over the device would have.
fn blocks_of(window: Result<Window<Memory>, Memory>) -> Option<u32> {
    match window {
        Ok(window) => Some(window.blocks()),
        Err(_) => None,
    }
}

/// Writes a block of a window, if it is there, and gives the device back: what a command does to an image of which it sees a part.
fn put<D: Device>(device: D, first: u32, blocks: u32, lbn: u32, from: &Block) -> D
    ensures { KeepsOutside first blocks (D.disk device) (D.disk result) }
{
    match Window::new(device, first, blocks) {
        Ok(mut window) => {
            if lbn < window.blocks() {
                let _ = window.write(lbn, from);
            }
            window.device()
        }
        Err(device) => device,
    }
}

#[test]
fn a_window_is_its_blocks(rt: HostRuntime) -> Result<(), Fail> {
    let mut window = Window::new(device(rt.alloc())?, 3, 4).map_err(|_| DeviceFault)?;
    assert!(rt; window.blocks() == 4 && !has(&mut window, 4, &numbered(7)));
    for lbn in 0..4 {
        assert!(rt; has(&mut window, lbn, &numbered(lbn + 3)), "{lbn}");
    }
    let mut three = [ZEROS; 3];
    assert!(rt; window.blocks() == 4 && window.read_run(1, &mut three).is_ok());
    assert!(rt; three == [numbered(4), numbered(5), numbered(6)]);
    assert!(rt; writes(&mut window, 0, &SEVENS) && zeroes(&mut window, 2, 2));
    assert!(rt; !writes(&mut window, 4, &SEVENS) && !zeroes(&mut window, 2, 3));
    let mut inner = window.device();
    for lbn in [0, 1, 2, 4, 7, 8, 9] {
        assert!(rt; has(&mut inner, lbn, &numbered(lbn)), "{lbn}");
    }
    assert!(rt;
        has(&mut inner, 3, &SEVENS) && has(&mut inner, 5, &ZEROS) && has(&mut inner, 6, &ZEROS)
    );
    Ok(())
}

#[test]
fn a_window_is_within_its_device(rt: HostRuntime) -> Result<(), Fail> {
    // no block at all, all of them, and the last
    for (first, blocks) in [(0, 0), (10, 0), (0, 10), (9, 1)] {
        let window = Window::new(device(rt.alloc())?, first, blocks);
        assert!(rt; blocks_of(window) == Some(blocks), "{first} {blocks}");
    }
    for (first, blocks) in [
        (0, 11),
        (9, 2),
        (10, 1),
        (11, 0),
        (1, u32::MAX),
        (u32::MAX, u32::MAX),
    ] {
        let window = Window::new(device(rt.alloc())?, first, blocks);
        assert!(rt; blocks_of(window) == None, "{first} {blocks}");
    }
    Ok(())
}

#[test]
fn a_partition_is_where_rt11_looks_for_it(rt: HostRuntime) -> Result<(), Fail> {
    // block 65,535 is in no partition
    for (blocks, number, expected) in [
        (65_540, 0, Some(65_535)),
        (65_540, 1, Some(4)),
        (65_540, 2, None),
        (65_536, 0, Some(65_535)),
        (65_536, 1, None),
        (10, 0, Some(10)),
        (10, u16::MAX, None),
        (0, 0, None),
    ] {
        let window = Window::partition(Memory::new(rt.alloc(), blocks)?, number);
        assert!(rt; blocks_of(window) == expected, "{blocks} {number}");
    }
    let mut device = Memory::new(rt.alloc(), PARTITION_STEP + 2)?;
    assert!(rt; writes(&mut device, PARTITION_STEP + 1, &SEVENS));
    let mut window = Window::partition(device, 1).map_err(|_| DeviceFault)?;
    assert!(rt; has(&mut window, 0, &ZEROS) && has(&mut window, 1, &SEVENS));
    Ok(())
}

#[test]
fn a_device_that_stops_stops_its_window(rt: HostRuntime) -> Result<(), Fail> {
    let mut window = Window::new(Fuse::new(device(rt.alloc())?, 2), 3, 4).map_err(|_| DeviceFault)?;
    assert!(rt;
        has(&mut window, 1, &numbered(4)) && !zeroes(&mut window, 1, 2) && window.sync().is_err()
    );
    let mut inner = window.device().into_inner();
    assert!(rt; has(&mut inner, 4, &ZEROS) && has(&mut inner, 5, &numbered(5)));
    Ok(())
}
