//! How many transfers blocks take, by the windows that accesses keep.
use crate::requests::asks::{Ask, Records, Row, SIX, X, dismounted, first_wrong, mounted};
use crate::requests::directories::{
    Answer, DONE, MADE_SEVEN, MADE_SIX, NO_ENTRY, TWO_FILES, extends_in_turn,
};
use f11_dev::Memory;
use f11_fcp::Volume;
use f11_fixtures::{SYSTEM, volumes};
use f11_store::{Mode, Refusal, Reply};
use std::test::Fail;

/// The files that are made.
const FIRST: (u16, u16) = (6, 1);

const SECOND: (u16, u16) = (7, 1);

/// A task, what it asks, the answer, and how many transfers that takes, where it is told.
type Counted = (u8, Ask, Answer, Option<u64>);

/// What is written, and read again.
const ONE: Records = [[1; 8], [0; 8], [0; 8]];

const TWO: Records = [[2; 8], [0; 8], [0; 8]];

const END: Answer = Err(Refusal::EndOfFile);

/// Asks what rows say, one after another, and gives the first row that isn't so.
fn first_miscounted(volume: &mut Volume<Memory>, rows: &[Counted]) -> Option<usize> {
    for (i, (task, ask, answer, count)) in rows.iter().enumerate() {
        let begun = volume.lent().transfers();
        if ask.of(volume, *task, SYSTEM) != Some(*answer) {
            return Some(i);
        }
        let made = volume.lent().transfers().saturating_sub(begun);
        if *count != None && *count != Some(made) {
            return Some(i);
        }
    }
    None
}

/// The first file has 103 pointers, of a block each, in two headers: a window has seven of them at most, and none of the next header.
const IN_TWO_HEADERS: [Counted; 15] = [
    (0, Ask::Read(0, 103), DONE, Some(3)),
    (0, Ask::Read(0, 103), DONE, Some(1)),
    (1, Ask::Access(FIRST, Mode::Read, 0), DONE, None),
    (1, Ask::Read(0, 1), DONE, Some(2)),
    (1, Ask::Read(0, 7), DONE, Some(1)),
    (1, Ask::Read(0, 8), DONE, Some(2)),
    // the window before is gone, and the other task's is as it was
    (1, Ask::Read(0, 7), DONE, Some(2)),
    (0, Ask::Read(0, 103), DONE, Some(1)),
    (1, Ask::Read(0, 101), DONE, Some(2)),
    (1, Ask::Read(0, 102), DONE, Some(1)),
    (1, Ask::Read(0, 103), DONE, Some(3)),
    // an access begins with none, but goes on from the header that was reached last
    (1, Ask::Read(0, 103), DONE, Some(1)),
    (1, Ask::Deaccess(0), DONE, Some(0)),
    (1, Ask::Access(FIRST, Mode::Read, 0), DONE, None),
    (1, Ask::Read(0, 103), DONE, Some(2)),
];

/// A block that is written is reached as one that is read.
const WRITTEN: [Counted; 11] = [
    (0, Ask::WriteRecords(0, 8, ONE), DONE, Some(2)),
    (0, Ask::WriteRecords(0, 14, TWO), DONE, Some(1)),
    (0, Ask::Read(0, 9), DONE, Some(1)),
    (0, Ask::ReadRecords(0, 8, ONE), DONE, Some(1)),
    (0, Ask::WriteRecords(0, 15, ONE), DONE, Some(2)),
    (0, Ask::ReadRecords(0, 14, TWO), DONE, Some(2)),
    (0, Ask::WriteRecords(0, 15, TWO), DONE, Some(1)),
    // a block of the other file has the same VBN
    (0, Ask::Read(1, 15), DONE, Some(2)),
    (0, Ask::WriteRecords(1, 15, ONE), DONE, Some(1)),
    (0, Ask::ReadRecords(0, 15, TWO), DONE, Some(1)),
    (0, Ask::ReadRecords(1, 15, ONE), DONE, Some(1)),
];

#[test]
fn windows_hold_seven_pointers(rt: HostRuntime) -> Result<(), Fail> {
    let mut volume = mounted(rt.alloc(), volumes::fresh(rt.alloc(), 400)?)?;
    assert_eq!(rt; first_wrong(&mut volume, &TWO_FILES), None);
    assert!(rt; extends_in_turn(&mut volume, 103));
    assert_eq!(rt; first_miscounted(&mut volume, &IN_TWO_HEADERS), None);
    assert_eq!(rt; first_miscounted(&mut volume, &WRITTEN), None);
    let _ = dismounted(rt.alloc(), volume)?;
    Ok(())
}

/// A file is cut while another task reads it, and a third task's file has its blocks then.
const CUT: [Counted; 22] = [
    (0, Ask::Create, MADE_SIX, None),
    (0, Ask::Access(FIRST, Mode::Write, 0), DONE, None),
    (0, Ask::Extend(0, 7), Ok(Reply::Length(7)), None),
    (0, Ask::Read(0, 7), DONE, Some(2)),
    (1, Ask::Access(FIRST, Mode::Read, 0), DONE, None),
    (1, Ask::Read(0, 5), DONE, Some(2)),
    (1, Ask::Read(0, 6), DONE, Some(1)),
    (2, Ask::Create, MADE_SEVEN, None),
    (2, Ask::Access(SECOND, Mode::Write, 0), DONE, None),
    (0, Ask::Truncate(0, 3), Ok(Reply::Length(3)), None),
    (2, Ask::Extend(0, 4), Ok(Reply::Length(4)), None),
    (2, Ask::WriteRecords(0, 2, ONE), DONE, Some(2)),
    (1, Ask::Read(0, 3), DONE, Some(2)),
    (1, Ask::Read(0, 5), END, Some(1)),
    // what is added stands behind the window
    (0, Ask::Extend(0, 4), Ok(Reply::Length(7)), None),
    (1, Ask::Read(0, 3), DONE, Some(1)),
    (1, Ask::Read(0, 5), DONE, Some(2)),
    (0, Ask::Read(0, 5), DONE, Some(2)),
    // the other file's windows stay
    (0, Ask::Truncate(0, 2), Ok(Reply::Length(2)), None),
    (2, Ask::ReadRecords(0, 2, ONE), DONE, Some(1)),
    (1, Ask::Read(0, 5), END, Some(1)),
    (0, Ask::Read(0, 1), DONE, Some(2)),
];

/// A window stays as it is while its file is extended, marked, and its attributes are changed.
const KEPT: [Counted; 12] = [
    (0, Ask::Create, MADE_SIX, None),
    (0, Ask::Access(FIRST, Mode::Write, 0), DONE, None),
    (0, Ask::Extend(0, 3), Ok(Reply::Length(3)), None),
    (0, Ask::Read(0, 1), DONE, Some(2)),
    (0, Ask::Extend(0, 1), Ok(Reply::Length(4)), None),
    (0, Ask::Read(0, 2), DONE, Some(1)),
    (0, Ask::Read(0, 4), DONE, Some(2)),
    (1, Ask::Create, MADE_SEVEN, None),
    (1, Ask::SetAttr(FIRST), DONE, None),
    (1, Ask::Delete(FIRST), DONE, None),
    (0, Ask::WriteRecords(0, 4, ONE), DONE, Some(1)),
    (0, Ask::ReadRecords(0, 4, ONE), DONE, Some(1)),
];

/// A directory of nine blocks is looked through: its header is read for what it says, for its length and for a window, and then each block.
const LOOKED: [Counted; 6] = [
    (0, Ask::CreateDirectory, MADE_SIX, None),
    (0, Ask::Access(FIRST, Mode::Write, 0), DONE, None),
    (0, Ask::Extend(0, 9), Ok(Reply::Length(9)), None),
    (0, Ask::Deaccess(0), DONE, None),
    (0, Ask::SetEnd(FIRST, (9, 10, 0)), DONE, None),
    (0, Ask::Find(SIX, X), NO_ENTRY, Some(12)),
];

#[test]
fn windows_of_a_file_that_is_cut_are_empty(rt: HostRuntime) -> Result<(), Fail> {
    for rows in [CUT.as_slice(), &KEPT, &LOOKED] {
        let mut volume = mounted(rt.alloc(), volumes::fresh(rt.alloc(), 400)?)?;
        assert_eq!(rt; first_miscounted(&mut volume, rows), None, "{}", rows.len());
        let _ = dismounted(rt.alloc(), volume)?;
    }
    Ok(())
}
