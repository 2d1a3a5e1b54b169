//! The files of an open Files-11 volume: made, changed, read, written, cut and deleted.
use crate::volumes::calls::{Call, Given, Id, Row, USER, go, is_accepted, opened, transfers};
use f11_dev::{Device, FailOnce, Liar, Memory};
use f11_files::Files;
use f11_fixtures::{SEVENS, ZEROS, file, get, keep, linked, put_words, volumes};
use f11_store::{Attr, Change, Refusal};
use std::alloc::Global;
use std::test::Fail;

/// The first file of a fresh volume, and one of the same slot after it.
const A: Id = (6, 1);

const AFTER: Id = (6, 2);

/// Slots in order, each with the next sequence number.
const SLOTS: [Row; 12] = [
    (Call::Space, Ok(Given::Space(2, 11, 16)), Some(0)),
    (Call::Create, Ok(Given::File(6, 1)), None),
    (Call::Create, Ok(Given::File(7, 6)), None),
    (Call::Create, Ok(Given::File(8, 65535)), None),
    (
        Call::CreateWith(0o160000, 7, 9),
        Ok(Given::File(9, 1)),
        None,
    ),
    (Call::Create, Ok(Given::File(10, 1)), None),
    (Call::CreateIn(11, 16), Ok(Given::Done), None),
    (Call::Space, Ok(Given::Space(2, 0, 16)), Some(0)),
    (Call::Create, Ok(Given::File(17, 1)), Some(7)),
    (Call::Space, Ok(Given::Space(1, 0, 17)), Some(0)),
    (Call::Create, Ok(Given::File(18, 1)), Some(7)),
    (Call::Create, Err(Refusal::DeviceFull), Some(1)),
];

#[test]
fn slots_are_given_in_order(rt: HostRuntime) -> Result<(), Fail> {
    let mut device = volumes::fresh(rt.alloc(), volumes::BLOCKS)?;
    // the sequence numbers of the slots 6 to 8, whose blocks are 8 to 10
    for (lbn, sequence) in [(8, 65535), (9, 5), (10, 65534)] {
        put_words(&mut device, lbn, &[(4, sequence)])?;
    }
    let (_, wrong) = go(rt.alloc(), device, &SLOTS)?;
    assert_eq!(rt; wrong, None);
    Ok(())
}

/// A file of [200,1] as it is made, and as it is changed then.
const MADE: Attr = Attr {
    owner: USER,
    protection: 0o360,
    characteristics: 0,
    ident: [1; 46],
    attr: [2; 32],
};

const CHANGED: Attr = Attr {
    owner: USER,
    protection: 0o17,
    characteristics: 0o100000,
    ident: [3; 46],
    attr: [4; 32],
};

const CHANGES: [Row; 10] = [
    (Call::CreateWith(0o360, 1, 2), Ok(Given::File(6, 1)), None),
    (Call::ReadAttr(A), Ok(Given::Attr(MADE)), None),
    (
        Call::WriteAttr(A, Change::Ident([3; 46])),
        Ok(Given::Done),
        None,
    ),
    (
        Call::WriteAttr(A, Change::Attr([4; 32])),
        Ok(Given::Done),
        None,
    ),
    (
        Call::WriteAttr(A, Change::Protect(0o17)),
        Ok(Given::Done),
        None,
    ),
    (Call::Mark(A), Ok(Given::Done), None),
    (Call::ReadAttr(A), Ok(Given::Attr(CHANGED)), None),
    (Call::Mark(AFTER), Err(Refusal::NoSuchFile), None),
    (Call::ReadAttr((17, 1)), Err(Refusal::NoSuchFile), None),
    (Call::ReadAttr((7, 0)), Err(Refusal::NoSuchFile), None),
];

#[test]
fn attributes_are_written(rt: HostRuntime) -> Result<(), Fail> {
    let device = volumes::fresh(rt.alloc(), volumes::BLOCKS)?;
    let (_, wrong) = go(rt.alloc(), device, &CHANGES)?;
    assert_eq!(rt; wrong, None);
    Ok(())
}

/// A volume where a file, 5 or 6, has block 22 in its own header and 23 in that of the next slot.
fn in_two_headers(alloc: Global, first: u16, sequence: u16) -> Result<Memory, Fail> {
    let mut device = volumes::fresh(alloc, volumes::BLOCKS)?;
    let next = first.saturating_add(1);
    let header = linked(file(first, sequence), 0, file(next, 1), &[(22, 0)]);
    keep(&mut device, u32::from(first) + 2, &header)?;
    let header = linked(file(next, 1), 1, file(0, 0), &[(23, 0)]);
    keep(&mut device, u32::from(next) + 2, &header)?;
    // the slots up to the next one are in use, and blocks 22 and 23 are
    let slots = if first == 5 { 0x3f } else { 0x7f };
    put_words(&mut device, 2, &[(0, slots)])?;
    put_words(&mut device, 20, &[(2, 0)])?;
    Ok(device)
}

/// The file of two headers where it is the fifth one.
const FIFTH: Id = (5, 5);

const BLOCKS: [Row; 8] = [
    (Call::Length(FIFTH), Ok(Given::Count(2)), None),
    (Call::Length((4, 4)), Ok(Given::Count(1)), None),
    (Call::Write(FIFTH, 2, 7), Ok(Given::Done), None),
    (Call::Read(FIFTH, 1), Ok(Given::Block(0)), Some(2)),
    (Call::Read(FIFTH, 2), Ok(Given::Block(7)), Some(3)),
    (Call::Read(FIFTH, 3), Err(Refusal::EndOfFile), None),
    (Call::Write(FIFTH, 3, 0), Err(Refusal::EndOfFile), None),
    (Call::Read(A, 1), Err(Refusal::NoSuchFile), None),
];

#[test]
fn blocks_are_found_by_number(rt: HostRuntime) -> Result<(), Fail> {
    let device = in_two_headers(rt.alloc(), 5, 5)?;
    let (mut device, wrong) = go(rt.alloc(), device, &BLOCKS)?;
    assert_eq!(rt; wrong, None);
    assert!(rt; get(&mut device, 23)? == SEVENS && get(&mut device, 22)? == ZEROS);
    Ok(())
}

#[test]
fn a_header_that_is_lost_is_damage(rt: HostRuntime) -> Result<(), Fail> {
    let device = Liar::new(in_two_headers(rt.alloc(), 5, 5)?, 8);
    let mut files = opened(rt.alloc(), device)?;
    files.lent().begin();
    for (call, answer) in [
        (Call::Read(FIFTH, 1), Ok(Given::Block(0))),
        (Call::Read(FIFTH, 2), Err(Refusal::Damaged)),
        (Call::Length((4, 4)), Err(Refusal::VolumeFailed)),
        (Call::Create, Err(Refusal::VolumeFailed)),
    ] {
        assert_eq!(rt; call.make(&mut files), answer, "{call:?}");
    }
    assert!(rt; files.failed());
    Ok(())
}

const CUTS: [Row; 8] = [
    (Call::Truncate(A, 3), Err(Refusal::EndOfFile), None),
    (Call::Truncate(AFTER, 0), Err(Refusal::NoSuchFile), None),
    (Call::Truncate(A, 2), Ok(Given::Count(2)), None),
    (Call::Space, Ok(Given::Space(0, 9, 16)), Some(0)),
    (Call::Truncate(A, 1), Ok(Given::Count(1)), None),
    (Call::Space, Ok(Given::Space(1, 10, 16)), Some(0)),
    (Call::Length(A), Ok(Given::Count(1)), None),
    (Call::Truncate(A, 0), Ok(Given::Count(0)), None),
];

const DELETES: [Row; 7] = [
    (Call::Space, Ok(Given::Space(0, 9, 16)), Some(0)),
    (Call::Delete(A), Ok(Given::Done), Some(8)),
    (Call::Space, Ok(Given::Space(2, 11, 16)), Some(0)),
    (Call::Delete(A), Err(Refusal::NoSuchFile), None),
    (Call::CreateWith(0, 0, 0), Ok(Given::File(6, 2)), None),
    (Call::CreateWith(0, 0, 0), Ok(Given::File(7, 2)), None),
    (Call::ReadAttr(A), Err(Refusal::NoSuchFile), None),
];

#[test]
fn headers_and_blocks_of_a_file_go(rt: HostRuntime) -> Result<(), Fail> {
    for (rows, headers) in [(CUTS.as_slice(), 10), (DELETES.as_slice(), 9)] {
        let device = in_two_headers(rt.alloc(), 6, 1)?;
        let (device, wrong) = go(rt.alloc(), device, rows)?;
        assert_eq!(rt; wrong, None);
        let space = opened(rt.alloc(), device)?.space();
        assert_eq!(rt; space, (2, headers, 16));
    }
    Ok(())
}

/// A call of each kind, in an order in which each succeeds.
const EACH: [Call; 11] = [
    Call::Create,
    Call::ReadAttr((4, 4)),
    Call::WriteAttr((4, 4), Change::Protect(0)),
    Call::Mark(A),
    Call::Length((4, 4)),
    Call::Read((4, 4), 1),
    Call::Write((4, 4), 1, 0),
    Call::Extend((4, 4), 1),
    Call::Truncate((4, 4), 1),
    Call::GrowIndex(1),
    Call::Delete(A),
];

/// Makes a call of each kind, and gives whether one answered `DeviceFault` and each after it `VolumeFailed`, or each succeeded.
fn calls<D: Device>(files: &mut Files<D>) -> bool {
    let mut failed = false;
    for call in EACH {
        let is_right = match call.make(files) {
            Ok(given) => !failed && given != Given::Wrong,
            Err(Refusal::DeviceFault) if !failed => {
                failed = true;
                true
            }
            Err(refusal) => failed && refusal == Refusal::VolumeFailed,
        };
        if !is_right {
            return false;
        }
    }
    files.failed() == failed
}

#[test]
fn a_transfer_of_a_call_fails(rt: HostRuntime) -> Result<(), Fail> {
    let device = volumes::fresh(rt.alloc(), volumes::BLOCKS)?;
    let made = device.transfers();
    let mut files = opened(rt.alloc(), device)?;
    let opened_at = transfers(&files);
    let first = opened_at.saturating_sub(made);
    assert!(rt; calls(&mut files) && !files.failed());
    // three each of create, truncate and delete, four of extend and of grow_index, one or two of each other: the
    // bitmap block that these need is kept
    assert_eq!(rt; transfers(&files).saturating_sub(opened_at), 27);
    for (k, lands) in (1..=27).flat_map(|k| [(k, false), (k, true)]) {
        let device = volumes::fresh(rt.alloc(), volumes::BLOCKS)?;
        let device = FailOnce::new(device, first.saturating_add(k), lands);
        let mut files = opened(rt.alloc(), device)?;
        let is_right = calls(&mut files) && files.failed();
        let device = files.abandon().into_inner();
        assert!(rt; is_right && is_accepted(rt.alloc(), device), "{k} {lands}");
    }
    Ok(())
}
