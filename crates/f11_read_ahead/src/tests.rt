//! That blocks are the right ones, however they are read, written and missed.
use crate::ReadAhead;
use f11_dev::{Block, Device, FailOnce, Fault, FileImage, Fuse, Memory, ReadsRuns};
use std::alloc::Global;
use std::fs::{self, File};
use std::test::Fail;

/// How many blocks the devices here have: more than are kept.
const BLOCKS: u32 = 200;

/// Blocks whose bytes are all 0, and all 7.
const ZEROS: Block = [0; 512];

const SEVENS: Block = [7; 512];

/// The block whose bytes are its own number.
fn numbered(lbn: u32) -> Block {
    [(lbn % 256) as u8; 512]
}

/// A device of such blocks.
fn device(alloc: Global) -> Result<Memory, Fail> {
    let mut device = Memory::new(alloc, BLOCKS)?;
    for lbn in 0..BLOCKS {
        if lbn < device.blocks() {
            device.write(lbn, &numbered(lbn))?;
        }
    }
    Ok(device)
}

/// Whether a block is written.
fn writes(device: &mut impl Device, lbn: u32, block: &Block) -> bool {
    lbn < device.blocks() && device.write(lbn, block).is_ok()
}

/// Whether so many blocks become zeros.
fn zeroes(device: &mut impl Device, lbn: u32, count: u32) -> bool {
    let blocks = device.blocks();
    count <= blocks && lbn <= blocks - count && device.write_zeros(lbn, count).is_ok()
}

/// Whether a block is read, and is this one.
fn has(device: &mut impl Device, lbn: u32, block: &Block) -> bool {
    let mut found = ZEROS;
    lbn < device.blocks() && device.read(lbn, &mut found).is_ok() && found == *block
}

/// Whether the blocks from `first` to before `end` hold their numbers, as they are read in order.
fn are_numbered(device: &mut impl Device, first: u32, end: u32) -> bool {
    for lbn in first..end {
        if !has(device, lbn, &numbered(lbn)) {
            return false;
        }
    }
    true
}

#[test]
fn blocks_are_read_in_any_order(rt: HostRuntime) -> Result<(), Fail> {
    let mut device = ReadAhead::new(rt.alloc(), device(rt.alloc())?);
    assert!(rt; are_numbered(&mut device, 0, BLOCKS));
    // two places in turn
    for lbn in 0..100 {
        assert!(rt; are_numbered(&mut device, lbn, lbn + 1), "{lbn}");
        assert!(rt; are_numbered(&mut device, lbn + 100, lbn + 101), "{lbn}");
    }
    // and backwards
    for at in 0..BLOCKS {
        let lbn = BLOCKS - 1 - at;
        assert!(rt; are_numbered(&mut device, lbn, lbn + 1), "{lbn}");
    }
    Ok(())
}

#[test]
fn what_is_kept_follows_writes(rt: HostRuntime) -> Result<(), Fail> {
    let mut device = ReadAhead::new(rt.alloc(), device(rt.alloc())?);
    assert!(rt; are_numbered(&mut device, 0, 20) && are_numbered(&mut device, 100, 120));
    // two blocks in each buffer, which keep 15 to 30 and 115 to 130, the one behind each, and one elsewhere
    let written = [18, 20, 118, 120, 31, 131, 180];
    for lbn in written {
        assert!(rt; writes(&mut device, lbn, &SEVENS), "{lbn}");
    }
    for lbn in written {
        assert!(rt; has(&mut device, lbn, &SEVENS), "{lbn}");
    }
    assert!(rt; are_numbered(&mut device, 21, 31) && are_numbered(&mut device, 121, 131));
    let mut inner = device.into_inner();
    for lbn in written {
        assert!(rt; has(&mut inner, lbn, &SEVENS), "{lbn}");
    }
    Ok(())
}

#[test]
fn a_failure_among_blocks_read_at_once_is_none(rt: HostRuntime) -> Result<(), Fail> {
    for transfer in 2..20 {
        let inner = FailOnce::new(device(rt.alloc())?, transfer, false);
        let mut device = ReadAhead::new(rt.alloc(), inner);
        assert!(rt; are_numbered(&mut device, 0, 30), "{transfer}");
    }
    // the first block is read alone
    let mut device = ReadAhead::new(rt.alloc(), FailOnce::new(device(rt.alloc())?, 1, false));
    assert!(rt; !are_numbered(&mut device, 0, 1) && are_numbered(&mut device, 0, 30));
    Ok(())
}

#[test]
fn a_device_that_stops_gives_what_is_kept(rt: HostRuntime) -> Result<(), Fail> {
    let mut device = ReadAhead::new(rt.alloc(), Fuse::new(device(rt.alloc())?, 3));
    // blocks 1 and 2 are the second and third transfer; each is given again without one
    for lbn in [0, 1, 1, 2, 1] {
        assert!(rt; are_numbered(&mut device, lbn, lbn + 1), "{lbn}");
    }
    assert!(rt; !are_numbered(&mut device, 3, 4));
    Ok(())
}

/// The files of the tests here.
const NUMBERED: &str = "read_ahead_numbered.dsk";

const CUT: &str = "read_ahead_cut.dsk";

const ZEROED: &str = "read_ahead_zeroed.dsk";

/// A file of eight blocks each of whose bytes is the block's own number.
fn eight() -> [u8; 4096] {
    let mut bytes = [0; 4096];
    for at in 0..4096 {
        bytes[at] = (at / 512) as u8;
    }
    bytes
}

#[test]
fn blocks_of_a_file_are_read_at_once(rt: HostRuntime) -> Result<(), Fail> {
    fs::write(&rt, NUMBERED, eight().as_slice())?;
    let mut image = FileImage::open_to_read(&rt, NUMBERED)?;
    let mut three = [ZEROS; 3];
    assert!(rt; image.blocks() == 8 && image.read_run(4, &mut three).is_ok());
    assert!(rt; three == [numbered(4), numbered(5), numbered(6)]);
    let mut device = ReadAhead::new(rt.alloc(), image);
    assert!(rt; are_numbered(&mut device, 0, 8) && are_numbered(&mut device, 2, 8));
    fs::remove_file(&rt, NUMBERED)?;
    Ok(())
}

/// Whether two blocks are read at once from this one on.
fn reads_two(image: &mut FileImage<File>, lbn: u32) -> bool {
    let mut two = [ZEROS; 2];
    image.blocks() >= 8 && lbn < 7 && image.read_run(lbn, &mut two).is_ok()
}

#[test]
fn a_file_that_is_cut_tells_the_block_that_was_asked(rt: HostRuntime) -> Result<(), Fail> {
    fs::write(&rt, CUT, eight().as_slice())?;
    let mut image = FileImage::open_to_read(&rt, CUT)?;
    let mut device = ReadAhead::new(rt.alloc(), FileImage::open_to_read(&rt, CUT)?);
    fs::write(&rt, CUT, [0; 1024].as_slice())?;
    // blocks 1 and 2 can't be read at once, but that was no transfer that was asked for
    assert!(rt; has(&mut device, 0, &ZEROS) && has(&mut device, 1, &ZEROS));
    let fault = device.into_inner().fault();
    assert!(rt; matches!(fault, Some(Fault::ReadRun(1, _))));
    // one that was asked for is told, whatever couldn't be read at once before and behind
    assert!(rt; reads_two(&mut image, 0) && !reads_two(&mut image, 1));
    assert!(rt; matches!(image.fault(), Some(Fault::ReadRun(1, _))));
    assert!(rt; !has(&mut image, 3, &ZEROS) && !reads_two(&mut image, 4));
    assert!(rt; matches!(image.fault(), Some(Fault::Read(3, _))));
    fs::remove_file(&rt, CUT)?;
    Ok(())
}

#[test]
fn blocks_of_a_file_become_zeros_at_once(rt: HostRuntime) -> Result<(), Fail> {
    let mut image = FileImage::create(&rt, ZEROED, 200)?;
    for lbn in 0..200 {
        assert!(rt; writes(&mut image, lbn, &numbered(lbn)));
    }
    assert!(rt; zeroes(&mut image, 10, 150) && zeroes(&mut image, 199, 0));
    for lbn in 0..200 {
        let expected = if (10..160).contains(&lbn) {
            ZEROS
        } else {
            numbered(lbn)
        };
        assert!(rt; has(&mut image, lbn, &expected), "{lbn}");
    }
    assert!(rt; image.fault().is_none());
    drop(image);
    let mut image = FileImage::open_to_read(&rt, ZEROED)?;
    assert!(rt; !zeroes(&mut image, 1, 3));
    assert!(rt; matches!(image.fault(), Some(Fault::WriteZeros(1, _))));
    assert!(rt; are_numbered(&mut image, 0, 10));
    fs::remove_file(&rt, ZEROED)?;
    Ok(())
}

#[test]
fn zeros_stop_where_a_device_stops(rt: HostRuntime) -> Result<(), Fail> {
    let mut device = Fuse::new(device(rt.alloc())?, 3);
    assert!(rt; !zeroes(&mut device, 2, 5));
    let mut inner = device.into_inner();
    assert!(rt; are_numbered(&mut inner, 0, 2) && are_numbered(&mut inner, 5, 8));
    for lbn in 2..5 {
        assert!(rt; has(&mut inner, lbn, &ZEROS), "{lbn}");
    }
    Ok(())
}
