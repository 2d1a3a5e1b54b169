//! Files of a Files-11 volume that are laid out in one run of blocks.
use crate::volumes::calls::{Call, Given, Id, Row, go, is_accepted, opened, transfers};
use f11_bytes::{Block, read_word};
use f11_dev::{Device, FailOnce, Fuse, Memory};
use f11_fixtures::{file, has_words, keep, linked, put_words, volumes};
use f11_header::HeaderMut;
use f11_store::Refusal;
use std::alloc::Global;
use std::test::Fail;

/// The first files of a fresh volume.
const A: Id = (6, 1);

const B: Id = (7, 1);

const C: Id = (8, 1);

/// The header is read; the bitmap block, which is in hand since the volume was opened, is written; the blocks are made zeros, and named by one
/// write; and the header, which is in hand, is written once more. 26,112 pointers are in 256 headers.
const ONE_RUN: [Row; 9] = [
    (Call::CreateIn(6, 7), Ok(Given::Done), None),
    (
        Call::Contiguous(A, 6684673),
        Err(Refusal::TooManySegments),
        Some(1),
    ),
    (
        Call::Contiguous(A, 6684672),
        Err(Refusal::DeviceFull),
        Some(1),
    ),
    (Call::Contiguous(A, 300), Ok(Given::Count(300)), Some(304)),
    (Call::Contiguous(A, 1), Err(Refusal::NotEmpty), Some(1)),
    (
        Call::Contiguous(A, 6684673),
        Err(Refusal::NotEmpty),
        Some(1),
    ),
    (Call::Contiguous(B, 79), Err(Refusal::DeviceFull), Some(1)),
    (Call::Contiguous(C, 1), Err(Refusal::NoSuchFile), Some(0)),
    (Call::Space, Ok(Given::Space(78, 9, 16)), Some(0)),
];

/// UC.CON; four words in use of 204: 256 blocks from 22 on, and 44 from 278 on.
const MARKED: [(usize, u16); 6] = [
    (12, 0o200),
    (100, 0xcc04),
    (102, 0xff00),
    (104, 22),
    (106, 0x2b00),
    (108, 278),
];

/// Blocks 22 to 121 are free, and 222 to 399.
const TWO_ROOMS: [Row; 8] = [
    (Call::CreateIn(6, 8), Ok(Given::Done), None),
    (Call::Extend(A, 100), Ok(Given::Count(100)), None),
    (Call::Extend(B, 100), Ok(Given::Count(100)), None),
    (Call::Truncate(A, 0), Ok(Given::Count(0)), None),
    (Call::Contiguous(C, 279), Err(Refusal::DeviceFull), Some(1)),
    (Call::Contiguous(C, 200), Err(Refusal::NoRun), Some(1)),
    (Call::Contiguous(C, 178), Ok(Given::Count(178)), None),
    (Call::Space, Ok(Given::Space(100, 8, 16)), Some(0)),
];

/// The run is the later one: the first that is free is too short.
const LATER: [(usize, u16); 4] = [(12, 0o200), (100, 0xcc02), (102, 0xb100), (104, 222)];

/// A file that loses its blocks keeps the mark, and gets other blocks; one that is extended loses it.
const AGAIN: [Row; 8] = [
    (Call::CreateIn(6, 7), Ok(Given::Done), None),
    (Call::Contiguous(A, 10), Ok(Given::Count(10)), None),
    (Call::Write(A, 10, 7), Ok(Given::Done), None),
    (Call::Truncate(A, 0), Ok(Given::Count(0)), None),
    (Call::Contiguous(A, 20), Ok(Given::Count(20)), None),
    (Call::Read(A, 10), Ok(Given::Block(0)), None),
    (Call::Contiguous(B, 10), Ok(Given::Count(10)), None),
    (Call::Extend(B, 1), Ok(Given::Count(11)), None),
];

const AGAIN_MARKED: [(usize, u16); 4] = [(12, 0o200), (100, 0xcc02), (102, 0x1300), (104, 22)];

const EXTENDED: [(usize, u16); 4] = [(12, 0), (100, 0xcc02), (102, 0x0a00), (104, 42)];

/// Whether a fresh volume of 400 blocks answers so, and the block of a header has these words then.
fn leaves(alloc: Global, rows: &[Row], lbn: u32, words: &[(usize, u16)]) -> Result<bool, Fail> {
    let (mut device, wrong) = go(alloc, volumes::fresh(alloc, 400)?, rows)?;
    Ok(wrong.is_none() && has_words(&mut device, lbn, words)?)
}

#[test]
fn files_are_laid_out(rt: HostRuntime) -> Result<(), Fail> {
    assert!(rt; leaves(rt.alloc(), &ONE_RUN, 8, &MARKED)?);
    assert!(rt; leaves(rt.alloc(), &TWO_ROOMS, 10, &LATER)?);
    assert!(rt; leaves(rt.alloc(), &AGAIN, 8, &AGAIN_MARKED)?);
    assert!(rt; leaves(rt.alloc(), &AGAIN, 9, &EXTENDED)?);
    Ok(())
}

/// A volume of 400 blocks where file 6 has no block, and place for one pointer.
fn narrow(alloc: Global) -> Result<Memory, Fail> {
    let mut device = volumes::fresh(alloc, 400)?;
    let header: Block = linked(file(6, 1), 0, file(0, 0), &[]);
    keep(&mut device, 8, &header)?;
    // M.MAX: two words of pointers; and the sum is as much less
    let sum = read_word(&header, 510).wrapping_sub(0xca00);
    put_words(&mut device, 8, &[(100, 0x0200), (510, sum)])?;
    put_words(&mut device, 2, &[(0, 0x3f)])?;
    Ok(device)
}

/// A pointer of 256 blocks fits in its header, and one block more takes another header: that is read, written, and entered, and then the
/// first one links to it.
const A_HEADER_MORE: [Row; 4] = [
    (Call::Space, Ok(Given::Space(378, 10, 16)), Some(0)),
    (Call::Contiguous(A, 257), Ok(Given::Count(257)), Some(266)),
    (Call::Space, Ok(Given::Space(121, 9, 16)), Some(0)),
    (Call::Read(A, 257), Ok(Given::Block(0)), None),
];

/// The index file gets no slot first.
const NO_HEADER: [Row; 5] = [
    (Call::CreateIn(7, 16), Ok(Given::Done), None),
    (Call::Contiguous(A, 379), Err(Refusal::DeviceFull), Some(1)),
    (Call::Contiguous(A, 257), Err(Refusal::NoHeader), Some(1)),
    (Call::Contiguous(A, 256), Ok(Given::Count(256)), Some(260)),
    (Call::Space, Ok(Given::Space(122, 0, 16)), Some(0)),
];

#[test]
fn a_run_takes_headers(rt: HostRuntime) -> Result<(), Fail> {
    let (mut device, wrong) = go(rt.alloc(), narrow(rt.alloc())?, &A_HEADER_MORE)?;
    assert_eq!(rt; wrong, None);
    assert!(rt;
        has_words(
            &mut device,
            8,
            &[(12, 0o200), (94, 7), (96, 1), (100, 0x0202), (102, 0xff00)]
        )?
    );
    assert!(rt;
        has_words(
            &mut device,
            9,
            &[(12, 0), (92, 1), (100, 0xcc02), (102, 0), (104, 278)]
        )?
    );
    let (_, wrong) = go(rt.alloc(), narrow(rt.alloc())?, &NO_HEADER)?;
    assert_eq!(rt; wrong, None);
    Ok(())
}

/// Lays file 6 of the volume of a device out, and gives whether it answered right: `DeviceFault` where a transfer failed, or else not; and
/// the device.
fn laid<D: Device + Drop>(
    alloc: Global,
    device: D,
    n: u32,
    fails: bool,
) -> Result<(D, bool), Fail> {
    let mut files = opened(alloc, device)?;
    let answer = Call::Contiguous(A, n).make(&mut files);
    let wanted = if fails {
        Err(Refusal::DeviceFault)
    } else {
        Ok(Given::Count(n))
    };
    let is_right = answer == wanted && files.failed() == fails;
    Ok((files.abandon(), is_right))
}

/// Whether file 6 is laid out right where the volume's transfers end after so many, and where the next one alone fails; and the volume is
/// accepted then. The mark is there where no transfer failed, and not before.
fn stops(alloc: Global, transfers: u64, n: u32, fails: bool) -> Result<bool, Fail> {
    let device = Fuse::new(narrow(alloc)?, transfers);
    let (device, mut is_right) = laid(alloc, device, n, fails)?;
    let mut device = device.into_inner();
    is_right = is_right && has_words(&mut device, 8, &[(12, if fails { 0 } else { 0o200 })])?;
    is_right = is_right && is_accepted(alloc, device);
    for lands in [false, true] {
        let device = FailOnce::new(narrow(alloc)?, transfers.saturating_add(1), lands);
        let (device, is_answer) = laid(alloc, device, n, fails)?;
        is_right = is_right && is_answer && is_accepted(alloc, device.into_inner());
    }
    Ok(is_right)
}

#[test]
fn a_transfer_of_laying_out_fails(rt: HostRuntime) -> Result<(), Fail> {
    let device = narrow(rt.alloc())?;
    let made = device.transfers();
    let opening = transfers(&opened(rt.alloc(), device)?).saturating_sub(made);
    for k in 0..=6 {
        assert!(rt;
            stops(rt.alloc(), opening.saturating_add(k), 2, k < 6)?,
            "{k}"
        );
    }
    // from the last zeros of the first header on
    for k in 257..=266 {
        assert!(rt;
            stops(rt.alloc(), opening.saturating_add(k), 257, k < 266)?,
            "{k}"
        );
    }
    Ok(())
}
