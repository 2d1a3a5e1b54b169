//! That each header of an image is found, live or killed, and no other block.
ghost use Rattle.std.specs.Prelude.{◌≡◌, length, IfOk, IsTrue};
ghost use Rattle.f11_scan.specs.Scan.{headers_from, place_of, scanned_disk};

use crate::{HeaderUse, Scan, use_of};
use f11_bytes::{Block, write_word, zeros};
use f11_dev::{Device, DeviceFault, FailOnce, Memory};
use f11_header::f11_store::{FileId, Uic};
use f11_header::{HeaderMut, blank, kill};
use std::alloc::Global;
use std::test::Fail;

/// How many blocks the device has.
const BLOCKS: u32 = 12;

/// A valid header of this number and segment, with the sequence number 3.
fn live(number: u16, segment: u8) -> Block {
    let id = FileId {
        number,
        sequence: 3,
        volume: 0,
    };
    let mut block = zeros();
    blank(
        &mut block,
        id,
        Uic {
            group: 7,
            member: 1,
        },
        0,
        segment,
    );
    HeaderMut::new(&mut block).seal();
    block
}

/// What killing it leaves.
fn killed(number: u16, segment: u8) -> Block {
    let mut block = live(number, segment);
    kill(&mut block);
    block
}

/// A block with another word at a byte.
fn with(block: &Block, at: usize, word: u16) -> Block {
    let mut block = *block;
    if at < 511 {
        write_word(&mut block, at, word);
    }
    block
}

/// Writes a block, if it is there.
fn put(device: &mut Memory, lbn: u32, block: &Block) {
    if lbn < device.blocks() {
        let _ = device.write(lbn, block);
    }
}

/// A device with headers in blocks 1, 4, 6 and the last, and with what is none in others.
fn device(alloc: Global) -> Result<Memory, Fail> {
    let mut device = Memory::new(alloc, BLOCKS)?;
    put(&mut device, 1, &live(5, 0));
    put(&mut device, 2, &[0xFF; 512]);
    put(&mut device, 3, &with(&live(6, 0), 510, 1));
    put(&mut device, 4, &killed(7, 0));
    put(&mut device, 6, &live(5, 1));
    put(&mut device, 7, &with(&live(8, 0), 2, 0));
    put(&mut device, 11, &killed(9, 1));
    Ok(device)
}

/// How many headers there are from where the scan is: what a command does first, going from one to the next.
fn count<D: Device>(scan: &mut Scan<D>) -> Result<u32, DeviceFault>
    ensures { IfOk result (λ n. IsTrue (scanned_disk D.disk scan.old).honest
        → n ≡ length (headers_from (scanned_disk D.disk scan.old).image (place_of scan.old))) }
{
    let mut n = 0;
    while let Some(_) = scan.next()? {
        n += 1;
    }
    Ok(n)
}

/// Whether the next header is in this block, of this use and this segment.
fn finds<D: Device>(scan: &mut Scan<D>, lbn: u32, header_use: HeaderUse, segment: u8) -> bool {
    match scan.next() {
        Ok(Some(found)) => {
            found.lbn == lbn && found.header_use == header_use && found.segment() == segment
        }
        Ok(None) => false,
        Err(_) => false,
    }
}

/// Whether there is none, and the scan is at the end.
fn ends<D: Device>(scan: &mut Scan<D>) -> bool {
    match scan.next() {
        Ok(None) => scan.place() == BLOCKS,
        Ok(Some(_)) => false,
        Err(_) => false,
    }
}

/// Whether a transfer fails, and the scan is at this block.
fn fails<D: Device>(scan: &mut Scan<D>, lbn: u32) -> bool {
    scan.next().is_err() && scan.place() == lbn
}

#[test]
fn headers_are_told(rt: HostRuntime) -> Result<(), Fail> {
    let one = live(5, 0);
    let dead = killed(5, 0);
    assert!(rt; use_of(&one) == Some(HeaderUse::Live) && use_of(&dead) == Some(HeaderUse::Killed));
    // the check word, the number, the sequence number, the level, the map area over the check word, and 206 words of pointers in use
    for (live_too, at, word) in [
        (false, 510, 1),
        (false, 2, 0),
        (true, 4, 0),
        (true, 6, 0o402),
        (true, 0, 23 + 256 * 251),
        (true, 100, 206 + 256 * 204),
    ] {
        assert!(rt; use_of(&with(&one, at, word)) == None, "{at}");
        assert!(rt; !live_too || use_of(&with(&dead, at, word)) == None, "{at}");
    }
    assert!(rt; use_of(&with(&dead, 510, 1)) == None && use_of(&with(&dead, 2, 5)) == None);
    assert!(rt; use_of(&zeros()) == None && use_of(&[0xFF; 512]) == None);
    Ok(())
}

#[test]
fn headers_are_found_in_order(rt: HostRuntime) -> Result<(), Fail> {
    let mut scan = Scan::new(device(rt.alloc())?);
    assert!(rt; count(&mut scan)? == 4 && ends(&mut scan));
    let mut scan = Scan::new(device(rt.alloc())?);
    assert!(rt; finds(&mut scan, 1, HeaderUse::Live, 0));
    assert!(rt; finds(&mut scan, 4, HeaderUse::Killed, 0) && scan.place() == 5);
    assert!(rt; finds(&mut scan, 6, HeaderUse::Live, 1));
    assert!(rt; finds(&mut scan, 11, HeaderUse::Killed, 1));
    assert!(rt; ends(&mut scan) && ends(&mut scan));
    scan.skip();
    assert!(rt; ends(&mut scan));
    // seven blocks were written before, and each was read once
    assert!(rt; scan.device().transfers() == 19);
    Ok(())
}

#[test]
fn a_failure_is_passed_by(rt: HostRuntime) -> Result<(), Fail> {
    // the block between, once and passed by
    let mut scan = Scan::new(FailOnce::new(device(rt.alloc())?, 3, false));
    assert!(rt; finds(&mut scan, 1, HeaderUse::Live, 0) && fails(&mut scan, 2));
    scan.skip();
    assert!(rt; scan.place() == 3 && finds(&mut scan, 4, HeaderUse::Killed, 0));
    // a header, read again, and passed by
    let mut scan = Scan::new(FailOnce::new(device(rt.alloc())?, 2, false));
    assert!(rt; fails(&mut scan, 1) && finds(&mut scan, 1, HeaderUse::Live, 0));
    let mut scan = Scan::new(FailOnce::new(device(rt.alloc())?, 2, false));
    assert!(rt; fails(&mut scan, 1));
    scan.skip();
    assert!(rt; finds(&mut scan, 4, HeaderUse::Killed, 0));
    Ok(())
}
