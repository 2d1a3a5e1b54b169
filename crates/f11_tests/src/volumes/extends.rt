//! Files of a Files-11 volume that are extended.
ghost use Rattle.std.specs.Prelude.{◌≡◌, ◌<◌, ◌+◌, OnOk};
ghost use Rattle.f11_image_store.specs.Allocation.{AddsZeroSlots, GainsBlocks};
ghost use Rattle.f11_files.specs.Open.{disk_in, home_in, is_honest, store_in, IsIdFrom};
ghost use Rattle.f11_volume.specs.Volume.{volume_of};

use crate::volumes::calls::{Call, Given, Id, Row, go, is_accepted, opened, transfers};
use f11_bytes::read_word;
use f11_dev::{Device, FailOnce, Fuse, Memory};
use f11_files::Files;
use f11_fixtures::{ZEROS, file, get, has_words, keep, linked, put_words, volumes};
use f11_header::HeaderMut;
use f11_store::{FileId, Refusal};
use std::alloc::Global;
use std::test::Fail;

/// The first files of a fresh volume, and the next one in the slot of the first.
const A: Id = (6, 1);

const B: Id = (7, 1);

const AFTER: Id = (6, 2);

/// Extends a file, and then once more. Where the index file gets no slot first, it has the lowest free blocks then, as if it had been
/// extended at once; in any case each slot that isn't in use then holds what it held, or zeros where it came.
fn extended_twice<D: Device>(
    files: &mut Files<D>,
    f: FileId,
    n: u32,
    more: u32,
) -> Result<u32, Refusal>
    requires id { IsIdFrom 4 f }
    requires some { (0 < n) × (0 < more) }
    ensures gains { is_honest files.old → (store_in files.new).slots ≡ (store_in files.old).slots
        → OnOk result (GainsBlocks f.number (n + more)
        (volume_of (disk_in files.old).image (home_in files.old))
        (volume_of (disk_in files.new).image (home_in files.new))) }
    ensures unused { is_honest files.old → OnOk result (AddsZeroSlots
        (volume_of (disk_in files.old).image (home_in files.old)).table
        (volume_of (disk_in files.new).image (home_in files.new)).table) }
{
    files.extend(f, n)?;
    files.extend(f, more)
}

#[test]
fn a_run_joins_the_last_pointer(rt: HostRuntime) -> Result<(), Fail> {
    let mut files = opened(rt.alloc(), volumes::fresh(rt.alloc(), 400)?)?;
    assert_eq!(rt; extended_twice(&mut files, file(4, 4), 1, 1), Ok(3));
    let mut device = files.abandon();
    // the directory has block 21, and 22 and 23 now: two words are in use still
    assert!(rt; has_words(&mut device, 6, &[(100, 0xcc02), (102, 0x0200), (104, 21)])?);
    assert!(rt; is_accepted(rt.alloc(), device));
    Ok(())
}

/// A file takes each free block; no header is wanting for 26,112 blocks: 256 of 102 pointers.
const ALL_BLOCKS: [Row; 7] = [
    (Call::Create, Ok(Given::File(6, 1)), None),
    (Call::Extend(A, 26112), Err(Refusal::DeviceFull), None),
    (Call::Extend(A, 26113), Err(Refusal::TooManySegments), None),
    (Call::Extend(A, 378), Ok(Given::Count(378)), None),
    (Call::Space, Ok(Given::Space(0, 10, 16)), Some(0)),
    (Call::Extend(A, 1), Err(Refusal::DeviceFull), Some(1)),
    (Call::Extend(AFTER, 1), Err(Refusal::NoSuchFile), Some(1)),
];

/// Blocks of a file that was written and deleted are zeros in the next file.
const BLOCKS_AGAIN: [Row; 13] = [
    (Call::Create, Ok(Given::File(6, 1)), None),
    (Call::Extend(A, 4), Ok(Given::Count(4)), None),
    (Call::Write(A, 1, 7), Ok(Given::Done), None),
    (Call::Write(A, 2, 7), Ok(Given::Done), None),
    (Call::Write(A, 3, 7), Ok(Given::Done), None),
    (Call::Write(A, 4, 7), Ok(Given::Done), None),
    (Call::Delete(A), Ok(Given::Done), None),
    (Call::Create, Ok(Given::File(6, 2)), None),
    (Call::Extend(AFTER, 4), Ok(Given::Count(4)), None),
    (Call::Read(AFTER, 1), Ok(Given::Block(0)), None),
    (Call::Read(AFTER, 2), Ok(Given::Block(0)), None),
    (Call::Read(AFTER, 3), Ok(Given::Block(0)), None),
    (Call::Read(AFTER, 4), Ok(Given::Block(0)), None),
];

/// The header is read; then for each of two runs the bitmap block, which is kept, is written, its blocks are made zeros, and it is named.
const TWO_RUNS: [Row; 2] = [
    (Call::Create, Ok(Given::File(6, 1)), None),
    (Call::Extend(A, 300), Ok(Given::Count(300)), Some(305)),
];

/// Four words are in use of 204: 256 blocks from 22 on, and 44 from 278 on.
const TWO_POINTERS: [(usize, u16); 5] = [
    (100, 0xcc04),
    (102, 0xff00),
    (104, 22),
    (106, 0x2b00),
    (108, 278),
];

/// Two files of two headers each: a block of the second header is read by three transfers.
const IN_TURN: [Row; 5] = [
    (Call::CreateIn(6, 7), Ok(Given::Done), None),
    (Call::ExtendInTurn(103), Ok(Given::Done), None),
    (Call::Space, Ok(Given::Space(172, 7, 16)), Some(0)),
    (Call::Read(B, 103), Ok(Given::Block(0)), Some(3)),
    (Call::Length(A), Ok(Given::Count(103)), None),
];

/// No header is left, but for the slots that the index file gets: for a file's next header it gets one first, whether or not the file needs
/// it in the end. H.FMAX is 4,000. The last blocks aren't enough for a slot besides.
const ALL_HEADERS: [Row; 15] = [
    (Call::CreateIn(6, 16), Ok(Given::Done), None),
    (Call::ExtendInTurn(102), Ok(Given::Done), None),
    (Call::Extend(A, 1), Ok(Given::Count(103)), None),
    (Call::Space, Ok(Given::Space(172, 0, 17)), Some(0)),
    (Call::Extend((8, 1), 3), Ok(Given::Count(3)), None),
    (Call::Extend((9, 1), 103), Ok(Given::Count(103)), None),
    (Call::Space, Ok(Given::Space(65, 1, 18)), Some(0)),
    (Call::GrowIndex(3983), Err(Refusal::IndexLimit), None),
    (Call::GrowIndex(3982), Err(Refusal::DeviceFull), None),
    (Call::Extend(A, 1), Ok(Given::Count(104)), None),
    (Call::Create, Ok(Given::File(18, 1)), None),
    (Call::Space, Ok(Given::Space(64, 0, 18)), Some(0)),
    (Call::Extend(B, 64), Err(Refusal::DeviceFull), Some(2)),
    (Call::Extend(B, 63), Ok(Given::Count(165)), None),
    (Call::Space, Ok(Given::Space(0, 0, 19)), Some(0)),
];

/// Two headers are added at once, where no two of 300 free blocks adjoin. Where the file is deleted, each of its three headers is
/// read, killed, and leaves use; for each pointer the bitmap block, which is kept, is written.
const THREE_HEADERS: [Row; 9] = [
    (Call::CreateIn(6, 7), Ok(Given::Done), None),
    (Call::ExtendInTurn(300), Ok(Given::Done), None),
    (Call::Delete(A), Ok(Given::Done), None),
    (Call::Create, Ok(Given::File(6, 2)), None),
    (Call::Space, Ok(Given::Space(378, 7, 16)), Some(0)),
    (Call::Extend(AFTER, 300), Ok(Given::Count(300)), None),
    (Call::Space, Ok(Given::Space(78, 5, 16)), Some(0)),
    (Call::Delete(AFTER), Ok(Given::Done), Some(309)),
    (Call::Space, Ok(Given::Space(378, 8, 16)), Some(0)),
];

/// Whether rows are right on a fresh volume of so many blocks, and these words stand in blocks then.
fn goes(
    alloc: Global,
    blocks: u32,
    rows: &[Row],
    words: &[(u32, &[(usize, u16)])],
) -> Result<bool, Fail> {
    let (mut device, wrong) = go(alloc, volumes::fresh(alloc, blocks)?, rows)?;
    for (lbn, words) in words {
        if !has_words(&mut device, *lbn, words)? {
            return Ok(false);
        }
    }
    Ok(wrong.is_none())
}

#[test]
fn files_get_blocks_and_headers(rt: HostRuntime) -> Result<(), Fail> {
    // headers 8 and 9 are added: each of its file, in segment 1, with one pointer
    let added = [
        (
            10,
            [(2, 8), (92, 1), (100, 0xcc02), (102, 0), (104, 226)].as_slice(),
        ),
        (11, &[(2, 9), (92, 1), (100, 0xcc02), (102, 0), (104, 227)]),
        (8, &[(94, 8), (96, 1)]),
    ];
    for (blocks, rows, words) in [
        (400, ALL_BLOCKS.as_slice(), [].as_slice()),
        (400, &BLOCKS_AGAIN, &[]),
        (400, &TWO_RUNS, &[(8, TWO_POINTERS.as_slice())]),
        (400, &IN_TURN, &added),
        (400, &ALL_HEADERS, &[]),
        (700, &THREE_HEADERS, &[]),
    ] {
        assert!(rt; goes(rt.alloc(), blocks, rows, words)?, "{:?}", rows.last());
    }
    Ok(())
}

/// A volume of 5,000 blocks whose second bitmap block, 21, is named by a header of its own, 6.
fn bitmap_in_two_headers(alloc: Global) -> Result<Memory, Fail> {
    let mut device = volumes::fresh(alloc, 5000)?;
    let header = linked(file(2, 2), 0, file(6, 1), &[(19, 1)]);
    keep(&mut device, 4, &header)?;
    let header = linked(file(6, 1), 1, file(0, 0), &[(21, 0)]);
    keep(&mut device, 8, &header)?;
    put_words(&mut device, 2, &[(0, 0x3f)])?;
    Ok(device)
}

/// As many headers are free as 900 blocks may need, not more.
const OVER_TWO_BITMAP_BLOCKS: [Row; 9] = [
    (Call::Space, Ok(Given::Space(4977, 10, 16)), Some(0)),
    (Call::Create, Ok(Given::File(7, 1)), None),
    (Call::Extend(B, 900), Ok(Given::Count(900)), None),
    (Call::Extend(B, 900), Ok(Given::Count(1800)), None),
    (Call::Extend(B, 900), Ok(Given::Count(2700)), None),
    (Call::Extend(B, 900), Ok(Given::Count(3600)), None),
    (Call::Extend(B, 900), Ok(Given::Count(4500)), None),
    (Call::Truncate(B, 10), Ok(Given::Count(10)), None),
    (Call::Space, Ok(Given::Space(4967, 9, 16)), Some(0)),
];

#[test]
fn a_bitmap_is_in_two_headers(rt: HostRuntime) -> Result<(), Fail> {
    let device = bitmap_in_two_headers(rt.alloc())?;
    let (_, wrong) = go(rt.alloc(), device, &OVER_TWO_BITMAP_BLOCKS)?;
    assert_eq!(rt; wrong, None);
    Ok(())
}

/// A volume of 24 blocks where file 6 has block 23, place for one pointer, and the contiguous mark.
fn full(alloc: Global) -> Result<Memory, Fail> {
    let mut device = volumes::fresh(alloc, volumes::BLOCKS)?;
    let mut header = linked(file(6, 1), 0, file(0, 0), &[(23, 0)]);
    let mut fields = HeaderMut::new(&mut header);
    fields.set_characteristics(0o200);
    fields.seal();
    keep(&mut device, 8, &header)?;
    // M.MAX: two words of pointers; and the sum is as much less
    let sum = read_word(&header, 510).wrapping_sub(0xca00);
    put_words(&mut device, 8, &[(100, 0x0202), (510, sum)])?;
    put_words(&mut device, 2, &[(0, 0x3f)])?;
    put_words(&mut device, 20, &[(2, 0x40)])?;
    Ok(device)
}

const A_HEADER_MORE: [Row; 4] = [
    (Call::Space, Ok(Given::Space(1, 10, 16)), Some(0)),
    (Call::Extend(A, 1), Ok(Given::Count(2)), Some(8)),
    (Call::Space, Ok(Given::Space(0, 9, 16)), Some(0)),
    (Call::Read(A, 2), Ok(Given::Block(0)), None),
];

#[test]
fn a_header_is_added(rt: HostRuntime) -> Result<(), Fail> {
    let (mut device, wrong) = go(rt.alloc(), full(rt.alloc())?, &A_HEADER_MORE)?;
    assert_eq!(rt; wrong, None);
    assert!(rt; get(&mut device, 22)? == ZEROS);
    // the link, and no contiguous mark
    assert!(rt; has_words(&mut device, 8, &[(12, 0), (94, 7), (96, 1)])?);
    Ok(())
}

/// Extends file 6 of the volume of a device, and gives whether it answered right: `DeviceFault` where a transfer failed, or else not;
/// and the device.
fn extended<D: Device + Drop>(alloc: Global, device: D, fails: bool) -> Result<(D, bool), Fail> {
    let mut files = opened(alloc, device)?;
    let answer = Call::Extend(A, 1).make(&mut files);
    let wanted = if fails {
        Err(Refusal::DeviceFault)
    } else {
        Ok(Given::Count(2))
    };
    let is_right = answer == wanted && files.failed() == fails;
    Ok((files.abandon(), is_right))
}

/// Whether file 6 is extended right where the volume's transfers end after so many, and where the next one alone fails; and the volume
/// is accepted then.
fn stops(alloc: Global, transfers: u64, fails: bool) -> Result<bool, Fail> {
    let device = Fuse::new(full(alloc)?, transfers);
    let (device, mut is_right) = extended(alloc, device, fails)?;
    is_right = is_right && is_accepted(alloc, device.into_inner());
    for lands in [false, true] {
        let device = FailOnce::new(full(alloc)?, transfers.saturating_add(1), lands);
        let (device, is_answer) = extended(alloc, device, fails)?;
        is_right = is_right && is_answer && is_accepted(alloc, device.into_inner());
    }
    Ok(is_right)
}

#[test]
fn a_transfer_of_extending_fails(rt: HostRuntime) -> Result<(), Fail> {
    let device = full(rt.alloc())?;
    let made = device.transfers();
    let opening = transfers(&opened(rt.alloc(), device)?).saturating_sub(made);
    for k in 0..=8 {
        assert!(rt; stops(rt.alloc(), opening.saturating_add(k), k < 8)?, "{k}");
    }
    Ok(())
}
