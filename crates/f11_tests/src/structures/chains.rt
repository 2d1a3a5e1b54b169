//! The headers of a file along their links.
ghost use Rattle.std.specs.Prelude.{◌≡◌, ◌<◌, ◌≤◌, length, option_map, IsTrue, OnOk, Some};
ghost use Rattle.f11_chain.specs.Calls.{table};
ghost use Rattle.f11_chain.specs.FileHeaders.{block_by_vbn};
ghost use Rattle.f11_dev.specs.Image.{image_block};
ghost use Rattle.f11_index.specs.IndexFile.{slots};
ghost use Rattle.f11_index.specs.Kept.{index_kept, IndexLiesWithin};

use f11_bytes::Block;
use f11_chain::{ChainFault, FileEnd, Place, Window, first, last, locate, next, seek, window};
use f11_dev::{Device, FailOnce, Liar, Memory};
use f11_fixtures::index::load;
use f11_fixtures::volumes::{index_file, small_index_file};
use f11_fixtures::{SEVENS, ZEROS, file, get, linked, put};
use f11_header::HeaderMut;
use f11_index::IndexFile;
use f11_store::FileId;
use std::alloc::Global;
use std::test::Fail;

/// A small volume with file 6, whose first header names blocks 22 to 25, 30 and 31, and whose second, header 7, names blocks
/// 40 and 50 to 52.
pub fn two_headers(alloc: Global) -> Result<Memory, Fail> {
    let mut device = small_index_file(alloc, 0x007f)?;
    let header = linked(file(6, 1), 0, file(7, 3), &[(22, 3), (30, 1)]);
    put(&mut device, 8, &header)?;
    let header = linked(file(7, 3), 1, file(0, 0), &[(40, 0), (50, 2)]);
    put(&mut device, 9, &header)?;
    Ok(device)
}

/// Loads the index file, and gives the LBN of block `vbn` of file `n`, where there is such a slot.
fn located<D: Device>(alloc: Global, device: &mut D, n: u16, vbn: u32) -> Result<u32, ChainFault> {
    let Ok(index) = load(alloc, device) else {
        return Err(ChainFault::DeviceFault);
    };
    if n == 0 || u32::from(n) > index.slots() || vbn == 0 {
        return Err(ChainFault::DeviceFault);
    }
    locate(device, &index, n, vbn)
}

/// A block's number, its LBN, and the transfers until it is found.
const BLOCKS: [(u32, Result<u32, ChainFault>, u64); 9] = [
    (1, Ok(22), 4),
    (4, Ok(25), 4),
    (5, Ok(30), 4),
    (6, Ok(31), 4),
    (7, Ok(40), 5),
    (8, Ok(50), 5),
    (10, Ok(52), 5),
    (11, Err(ChainFault::EndOfFile), 5),
    (u32::MAX, Err(ChainFault::EndOfFile), 5),
];

#[test]
fn blocks_are_found_by_number(rt: HostRuntime) -> Result<(), Fail> {
    let mut device = two_headers(rt.alloc())?;
    for (vbn, lbn, transfers) in BLOCKS {
        let before = device.transfers();
        let found = located(rt.alloc(), &mut device, 6, vbn);
        let made = device.transfers().saturating_sub(before);
        assert!(rt; found == lbn && made == transfers, "{vbn}");
    }
    Ok(())
}

/// Loads the index file, and gives the window of block `vbn` of file `n`, where there is such a slot.
fn window_of<D: Device>(
    alloc: Global,
    device: &mut D,
    n: u16,
    vbn: u32,
) -> Result<Window, ChainFault> {
    let Ok(index) = load(alloc, device) else {
        return Err(ChainFault::DeviceFault);
    };
    if n == 0 || u32::from(n) > index.slots() || vbn == 0 {
        return Err(ChainFault::DeviceFault);
    }
    window(device, &index, n, vbn)
}

/// A window that begins with this block, and holds so many runs, two at most.
fn two_runs(first: u32, used: u8, one: (u32, u32), two: (u32, u32)) -> Window {
    let mut runs = [(0, 0); 7];
    runs[0] = one;
    runs[1] = two;
    Window { first, used, runs }
}

#[test]
fn windows_stay_within_a_header(rt: HostRuntime) -> Result<(), Fail> {
    let mut device = two_headers(rt.alloc())?;
    for (vbn, first, used, one, two, transfers) in [
        (1, 1, 2, (22, 4), (30, 2), 4),
        (4, 1, 2, (22, 4), (30, 2), 4),
        (6, 5, 1, (30, 2), (0, 0), 4),
        (7, 7, 2, (40, 1), (50, 3), 5),
        (10, 8, 1, (50, 3), (0, 0), 5),
    ] {
        let before = device.transfers();
        let found = window_of(rt.alloc(), &mut device, 6, vbn);
        let made = device.transfers().saturating_sub(before);
        assert!(rt;
            found == Ok(two_runs(first, used, one, two)) && made == transfers,
            "{vbn}"
        );
    }
    let end = window_of(rt.alloc(), &mut device, 6, 11);
    assert!(rt; end == Err(ChainFault::EndOfFile));
    Ok(())
}

/// Loads the index file, and gives where block number `at` of file `n`, from 0, is named, and the header that names it, where there is
/// such a slot.
fn sought<D: Device>(
    alloc: Global,
    device: &mut D,
    n: u16,
    at: u32,
) -> Result<(Place, Block), ChainFault> {
    let Ok(index) = load(alloc, device) else {
        return Err(ChainFault::DeviceFault);
    };
    if n == 0 || u32::from(n) > index.slots() {
        return Err(ChainFault::DeviceFault);
    }
    let mut block = ZEROS;
    first(device, &index, n, &mut block)?;
    let place = seek(device, &index, n, at, &mut block)?;
    Ok((place, block))
}

#[test]
fn headers_are_sought(rt: HostRuntime) -> Result<(), Fail> {
    let mut device = two_headers(rt.alloc())?;
    for (at, number, segment, left, transfers) in [
        (0, 6, 0, 0, 4),
        (5, 6, 0, 5, 4),
        (6, 7, 1, 0, 5),
        (9, 7, 1, 3, 5),
    ] {
        let header = get(&mut device, u32::from(number) + 2)?;
        let before = device.transfers();
        let found = sought(rt.alloc(), &mut device, 6, at);
        let made = device.transfers().saturating_sub(before);
        let place = Place {
            number,
            segment,
            left,
        };
        assert!(rt; found == Ok((place, header)), "{at}");
        assert_eq!(rt; made, transfers, "{at}");
    }
    let end = sought(rt.alloc(), &mut device, 6, 10);
    assert!(rt; end == Err(ChainFault::EndOfFile));
    Ok(())
}

/// Reads block `vbn` of file `n`, as where a file is read.
fn read<D: Device>(
    device: &mut D,
    index: &IndexFile,
    n: u16,
    vbn: u32,
    into: &mut Block,
) -> Result<(), ChainFault>
    requires slot { (0 < n) × (n ≤ slots (index_kept index.now)) }
    requires some { 0 < vbn }
    requires within { IndexLiesWithin (index_kept index.now) (length (D.disk device.old).image) }
    ensures block { OnOk result (IsTrue (D.disk device.old).honest
        → option_map (image_block (D.disk device.old).image)
        (block_by_vbn (table (index_kept index.now) (D.disk device.old)) n vbn) ≡ Some into.new) }
{
    let lbn = locate(device, index, n, vbn)?;
    device.read(lbn, into)?;
    Ok(())
}

#[test]
fn a_file_is_read(rt: HostRuntime) -> Result<(), Fail> {
    let mut device = two_headers(rt.alloc())?;
    put(&mut device, 51, &SEVENS)?;
    let index = load(rt.alloc(), &mut device)?;
    let mut block = ZEROS;
    assert!(rt; index.slots() >= 6);
    read(&mut device, &index, 6, 9, &mut block)?;
    assert!(rt; block == SEVENS);
    Ok(())
}

/// Loads the index file, and gives where file `n` ends and its last header, where there is such a slot.
fn last_of<D: Device>(
    alloc: Global,
    device: &mut D,
    n: u16,
) -> Result<(FileEnd, Block), ChainFault> {
    let Ok(index) = load(alloc, device) else {
        return Err(ChainFault::DeviceFault);
    };
    if n == 0 || u32::from(n) > index.slots() {
        return Err(ChainFault::DeviceFault);
    }
    let mut block = ZEROS;
    let end = last(device, &index, n, &mut block)?;
    Ok((end, block))
}

/// Loads the index file, and gives what stands behind the first header of file `n`, where there is such a slot: the second
/// header and its number, or the first one itself.
fn second_of<D: Device>(
    alloc: Global,
    device: &mut D,
    n: u16,
) -> Result<(Option<u16>, Block), ChainFault> {
    let Ok(index) = load(alloc, device) else {
        return Err(ChainFault::DeviceFault);
    };
    if n == 0 || u32::from(n) > index.slots() {
        return Err(ChainFault::DeviceFault);
    }
    let mut block = ZEROS;
    first(device, &index, n, &mut block)?;
    let number = next(device, &index, &mut block)?;
    Ok((number, block))
}

/// A file ends with header `number`, and has so many headers and blocks.
fn file_end(number: u16, headers: u16, blocks: u32) -> FileEnd {
    FileEnd {
        number,
        headers,
        blocks,
    }
}

#[test]
fn headers_are_read(rt: HostRuntime) -> Result<(), Fail> {
    let mut device = two_headers(rt.alloc())?;
    let (one, seven) = (get(&mut device, 3)?, get(&mut device, 9)?);
    let damaged = Err(ChainFault::Damaged);
    for (n, second, end) in [
        (6, Ok((Some(7), seven)), Ok((file_end(7, 2, 10), seven))),
        (1, Ok((None, one)), Ok((file_end(1, 1, 19), one))),
        (7, damaged, Err(ChainFault::Damaged)),
        (8, damaged, Err(ChainFault::Damaged)),
    ] {
        assert!(rt; second_of(rt.alloc(), &mut device, n) == second, "file {n}");
        assert!(rt; last_of(rt.alloc(), &mut device, n) == end, "file {n}");
    }
    Ok(())
}

/// Makes a byte of a header this, and seals it.
pub fn change(device: &mut Memory, lbn: u32, at: usize, value: u8) -> Result<(), Fail> {
    let mut block = get(device, lbn)?;
    if at < 512 {
        block[at] = value;
    }
    HeaderMut::new(&mut block).seal();
    put(device, lbn, &block)?;
    Ok(())
}

const FIRST: Result<u32, ChainFault> = Ok(22);

const DAMAGED: Result<u32, ChainFault> = Err(ChainFault::Damaged);

/// The byte of a header that changes, and what is found of the first block of file 6, the seventh and the eighth.
const DAMAGE: [(u32, usize, u8, [Result<u32, ChainFault>; 3]); 11] = [
    (8, 94, 6, [FIRST, DAMAGED, DAMAGED]),
    (8, 94, 16, [FIRST, DAMAGED, DAMAGED]),
    (8, 94, 17, [FIRST, DAMAGED, DAMAGED]),
    (8, 96, 4, [FIRST, DAMAGED, DAMAGED]),
    (8, 92, 1, [DAMAGED, DAMAGED, DAMAGED]),
    (8, 2, 0, [DAMAGED, DAMAGED, DAMAGED]),
    (8, 102, 1, [DAMAGED, Ok(40), Ok(50)]),
    (9, 2, 0, [FIRST, DAMAGED, DAMAGED]),
    (9, 92, 0, [FIRST, DAMAGED, DAMAGED]),
    (9, 92, 2, [FIRST, DAMAGED, DAMAGED]),
    (9, 102, 1, [FIRST, DAMAGED, Ok(50)]),
];

/// What is found of three blocks of file 6 where a byte of a header is this.
fn found_with(
    alloc: Global,
    lbn: u32,
    at: usize,
    value: u8,
) -> Result<[Result<u32, ChainFault>; 3], Fail> {
    let mut device = two_headers(alloc)?;
    change(&mut device, lbn, at, value)?;
    Ok([
        located(alloc, &mut device, 6, 1),
        located(alloc, &mut device, 6, 7),
        located(alloc, &mut device, 6, 8),
    ])
}

#[test]
fn damaged_headers(rt: HostRuntime) -> Result<(), Fail> {
    for (lbn, at, value, found) in DAMAGE {
        let all = found_with(rt.alloc(), lbn, at, value)?;
        assert_eq!(rt; all, found, "{lbn} {at} {value}");
    }
    Ok(())
}

#[test]
fn a_liar_over_the_second_header(rt: HostRuntime) -> Result<(), Fail> {
    let mut device = Liar::new(two_headers(rt.alloc())?, 9);
    assert_eq!(rt; located(rt.alloc(), &mut device, 6, 7), Ok(40));
    device.begin();
    for (vbn, lbn) in [
        (6, Ok(31)),
        (7, Err(ChainFault::Damaged)),
        (11, Err(ChainFault::Damaged)),
    ] {
        assert_eq!(rt; located(rt.alloc(), &mut device, 6, vbn), lbn, "{vbn}");
    }
    Ok(())
}

#[test]
fn a_transfer_along_headers_fails(rt: HostRuntime) -> Result<(), Fail> {
    // the first is the home block's, the next two the index file's
    for transfer in 1..=6 {
        let mut device = FailOnce::new(two_headers(rt.alloc())?, transfer, true);
        let wanted = if transfer < 6 {
            Err(ChainFault::DeviceFault)
        } else {
            Ok(40)
        };
        assert_eq!(rt;
            located(rt.alloc(), &mut device, 6, 7),
            wanted,
            "{transfer}"
        );
    }
    Ok(())
}

/// A volume of 282 slots with file 17, which has 256 headers and as many blocks, 300 to 555. The last header has this link.
pub fn long_file(alloc: Global, link: FileId) -> Result<Memory, Fail> {
    let mut bits = ZEROS;
    bits[..35].copy_from_slice(&[255; 35]);
    let mut device = index_file(alloc, &bits, &[(0, 18), (20, 255), (276, 9)])?;
    for segment in 0..256u16 {
        let after = if segment == 255 {
            link
        } else {
            file(segment + 18, 1)
        };
        let header = linked(
            file(segment + 17, 1),
            segment as u8,
            after,
            &[(300 + segment, 0)],
        );
        put(&mut device, 20 + u32::from(segment), &header)?;
    }
    let header = linked(file(273, 1), 0, file(0, 0), &[]);
    put(&mut device, 276, &header)?;
    Ok(device)
}

#[test]
fn a_file_has_256_headers_at_most(rt: HostRuntime) -> Result<(), Fail> {
    for (link, end) in [
        (file(0, 0), ChainFault::EndOfFile),
        (file(273, 1), ChainFault::Damaged),
    ] {
        let mut device = long_file(rt.alloc(), link)?;
        assert_eq!(rt; located(rt.alloc(), &mut device, 17, 256), Ok(555));
        assert_eq!(rt; located(rt.alloc(), &mut device, 17, 257), Err(end));
        let whole = last_of(rt.alloc(), &mut device, 17).is_ok();
        assert_eq!(rt; whole, end == ChainFault::EndOfFile);
    }
    Ok(())
}
