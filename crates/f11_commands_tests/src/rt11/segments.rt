//! Segments of RT-11 directories: filled, and split.
use crate::rt11::calls::{
    Call, accepted, create, delete, find, fresh, lists, named, numbered, with_files,
};
use f11_dev::{DeviceFault, Memory};
use f11_fixtures::{has_words, put_words};
use rt11_volume::{BadName, RtAccepted, RtArea, RtKind, RtName, RtRefusal};
use std::alloc::Global;
use std::test::Fail;

/// The area of a file of one block.
fn file_area(n: u16, start: u16) -> Result<RtArea, BadName> {
    let name: Option<RtName> = Some(numbered(n)?);
    Ok(RtArea {
        kind: RtKind::Permanent,
        name,
        start,
        length: 1,
        protected: false,
    })
}

/// An empty area.
fn empty_area(start: u16, length: u16) -> RtArea {
    RtArea {
        kind: RtKind::Empty,
        name: None,
        start,
        length,
        protected: false,
    }
}

/// The areas of a volume.
fn listed(alloc: Global, volume: &mut RtAccepted<Memory>) -> Result<Vec<RtArea>, RtRefusal> {
    volume.list(alloc)
}

/// Whether so many files of one block, numbered from 0, lie from a block on, with one area behind them; and each is found there.
fn has_files(
    alloc: Global,
    volume: &mut RtAccepted<Memory>,
    files: u16,
    first: u16,
) -> Result<bool, Fail> {
    let areas = listed(alloc, volume)?;
    for n in 0..files {
        let area = file_area(n, first.saturating_add(n))?;
        let at = find(volume, &numbered(n)?)?;
        if areas.get(usize::from(n)) != Some(&area) || at != (area.start, 1) {
            return Ok(false);
        }
    }
    Ok(areas.len() == usize::from(files) + 1)
}

/// A place in the list of a volume, the number of the file of one block that stands there, if none an empty area, its first block,
/// and its length.
type Place = (usize, Option<u16>, u16, u16);

/// Whether a volume has so many areas, among them these.
fn has_areas(
    alloc: Global,
    volume: &mut RtAccepted<Memory>,
    count: usize,
    places: &[Place],
) -> Result<bool, Fail> {
    let areas = listed(alloc, volume)?;
    for (i, number, start, length) in places {
        let area = match number {
            Some(n) => file_area(*n, *start)?,
            None => empty_area(*start, *length),
        };
        if areas.get(*i) != Some(&area) {
            return Ok(false);
        }
    }
    Ok(areas.len() == count)
}

/// Whether so many files fill a directory: one more is refused, but for one in the whole area behind them, which wants no entry more.
fn is_filled(
    alloc: Global,
    volume: RtAccepted<Memory>,
    files: u16,
    first: u16,
    blocks: u16,
) -> Result<bool, Fail> {
    let mut volume = with_files(alloc, volume, files)?;
    let name = numbered(files)?;
    if create(&mut volume, &name, 1, 0) != Err(RtRefusal::DirectoryFull) {
        return Ok(false);
    }
    let mut volume = accepted(alloc, volume.device())?;
    let is_there = has_files(alloc, &mut volume, files, first)?;
    let end = first.saturating_add(files);
    let rest = blocks.saturating_sub(end);
    create(&mut volume, &name, rest, 0)?;
    let mut volume = accepted(alloc, volume.device())?;
    Ok(is_there && find(&mut volume, &name)? == (end, rest))
}

#[test]
fn directories_are_filled(rt: HostRuntime) -> Result<(), Fail> {
    for (blocks, segments, extra, files, first) in [
        (100u16, 1, 0, 70, 8u16),
        (200, 2, 0, 105, 10),
        (200, 3, 0, 140, 12),
        (100, 1, 2, 61, 8),
        (200, 2, 2, 92, 10),
        (200, 2, 4, 81, 10),
        (100, 1, 128, 5, 8),
        (200, 31, 128, 95, 68),
    ] {
        let volume = fresh(rt.alloc(), u32::from(blocks), segments, extra)?;
        let is_filled = is_filled(rt.alloc(), volume, files, first, blocks)?;
        assert!(rt; is_filled, "{segments} {extra}");
    }
    Ok(())
}

/// Whether blocks of a device have these words.
fn have_words(device: &mut Memory, blocks: &[(u32, &[(usize, u16)])]) -> Result<bool, DeviceFault> {
    for (lbn, words) in blocks {
        if !has_words(device, *lbn, words)? {
            return Ok(false);
        }
    }
    Ok(true)
}

/// Headers, the end mark behind 35 entries, and the file of the date 9 as entry 35 of segment 2, with the last entry behind it; files 34
/// and 35 are deleted.
const SPLIT: [(u32, &[(usize, u16)]); 3] = [
    (
        6,
        &[
            (0, 2),
            (2, 2),
            (4, 2),
            (6, 0),
            (8, 10),
            (486, 0o1000),
            (500, 0o4000),
        ],
    ),
    (
        8,
        &[
            (2, 0),
            (6, 0),
            (8, 45),
            (10, 0o1000),
            (18, 1),
            (500, 0o2000),
            (508, 1),
        ],
    ),
    (
        9,
        &[
            (0, 9),
            (2, 0o1000),
            (4, 0),
            (10, 19),
            (12, 0),
            (14, 0),
            (16, 0o4000),
        ],
    ),
];

const SPLIT_AREAS: [Place; 5] = [
    (33, Some(33), 43, 1),
    (34, None, 44, 1),
    (35, None, 45, 1),
    (70, Some(70), 80, 1),
    (71, None, 81, 19),
];

#[test]
fn a_full_segment_is_split(rt: HostRuntime) -> Result<(), Fail> {
    let volume = fresh(rt.alloc(), 100, 2, 0)?;
    let mut volume = with_files(rt.alloc(), volume, 70)?;
    create(&mut volume, &numbered(70)?, 1, 9)?;
    let mut volume = accepted(rt.alloc(), volume.device())?;
    assert!(rt; has_files(rt.alloc(), &mut volume, 71, 10)?);
    // areas of two segments aren't joined
    for n in [34, 35] {
        delete(&mut volume, &numbered(n)?)?;
    }
    let mut volume = accepted(rt.alloc(), volume.device())?;
    assert!(rt; has_areas(rt.alloc(), &mut volume, 72, &SPLIT_AREAS)?);
    assert!(rt; have_words(&mut volume.device(), &SPLIT)?);
    Ok(())
}

/// Segment 1 is full with A to E, and is split with F in its first half; it is full again with H, and is split with I in its second half;
/// segment 3, behind it, is full with K.
const IN_ORDER: [(&str, Call, Result<(), RtRefusal>); 15] = [
    ("A.TXT", Call::Create(8), Ok(())),
    ("B.TXT", Call::Create(1), Ok(())),
    ("C.TXT", Call::Create(1), Ok(())),
    ("D.TXT", Call::Create(1), Ok(())),
    ("E.TXT", Call::Create(1), Ok(())),
    ("A.TXT", Call::Delete, Ok(())),
    ("F.TXT", Call::Create(1), Ok(())),
    ("G.TXT", Call::Create(1), Ok(())),
    ("H.TXT", Call::Create(1), Ok(())),
    ("I.TXT", Call::Create(1), Ok(())),
    ("J.TXT", Call::Create(1), Ok(())),
    ("K.TXT", Call::Create(1), Ok(())),
    ("L.TXT", Call::Create(1), Err(RtRefusal::DirectoryFull)),
    ("L.TXT", Call::Create(2), Ok(())),
    ("M.TXT", Call::Create(60), Ok(())),
];

const IN_ORDER_LIST: &[u8] =
    b"perm F.TXT 12 1\nperm G.TXT 13 1\nperm H.TXT 14 1\nperm I.TXT 15 1\nperm J.TXT 16 1\nperm K.TXT 17 1\nperm L.TXT 18 2\nperm B.TXT 20 1\nperm C.TXT 21 1\nperm D.TXT 22 1\nperm E.TXT 23 1\nperm M.TXT 24 60\nempty 84 16\n";

const IN_ORDER_WORDS: [(u32, &[(usize, u16)]); 3] = [
    (6, &[(0, 3), (2, 3), (4, 3), (6, 128), (8, 12)]),
    (10, &[(2, 2), (6, 128), (8, 15), (10, 0o2000), (24, 0)]),
    (8, &[(2, 0), (6, 128), (8, 22), (10, 0o2000), (24, 0)]),
];

#[test]
fn new_segments_are_linked_in_order(rt: HostRuntime) -> Result<(), Fail> {
    let mut volume = fresh(rt.alloc(), 100, 3, 128)?;
    for (name, call, answer) in IN_ORDER {
        let done = call.make(rt.alloc(), &mut volume, &named(name)?);
        assert_eq!(rt; done, answer, "{name} {call:?}");
        volume = accepted(rt.alloc(), volume.device())?;
    }
    let (volume, is_list) = lists(rt.alloc(), volume, IN_ORDER_LIST)?;
    assert!(rt; is_list);
    assert!(rt; have_words(&mut volume.device(), &IN_ORDER_WORDS)?);
    Ok(())
}

const OF_72_AREAS: [Place; 4] = [
    (0, Some(0), 10, 1),
    (70, Some(70), 80, 1),
    (71, None, 81, 9),
    (72, None, 90, 10),
];

const OF_72_WORDS: [(u32, &[(usize, u16)]); 3] = [
    (6, &[(2, 2), (4, 2)]),
    (7, &[(2, 0o4000)]),
    (8, &[(2, 0), (8, 46)]),
];

#[test]
fn a_segment_of_72_entries_is_split(rt: HostRuntime) -> Result<(), Fail> {
    let volume = fresh(rt.alloc(), 100, 2, 0)?;
    let mut device = with_files(rt.alloc(), volume, 70)?.device();
    // the empty area of 20 blocks as two of ten, entries 70 and 71
    let words = [(486, 10), (492, 0o1000), (500, 10), (506, 0o4000)];
    put_words(&mut device, 7, &words)?;
    let mut volume = accepted(rt.alloc(), device)?;
    create(&mut volume, &numbered(70)?, 1, 0)?;
    let mut volume = accepted(rt.alloc(), volume.device())?;
    assert!(rt; has_areas(rt.alloc(), &mut volume, 73, &OF_72_AREAS)?);
    assert!(rt; have_words(&mut volume.device(), &OF_72_WORDS)?);
    Ok(())
}
