//! Directories that tasks look through and change, on honest devices.
use crate::requests::asks::{
    Ask, FullId, MASTER, Records, Row, SIX, USER, Words, X, dismounted, first_wrong,
    full_directory, mounted,
};
use f11_dev::{Device, Memory};
use f11_fcp::Volume;
use f11_fixtures::{SYSTEM, file, volumes};
use f11_store::{FileId, Mode, Refusal, Reply};
use std::alloc::Global;
use std::test::Fail;

/// Files that are made.
pub const SEVEN: FullId = (7, 1, 0);

pub const EIGHT: FullId = (8, 1, 0);

/// One that isn't there.
const NOWHERE: FullId = (99, 7, 0);

/// Y.TXT;1, Z.TXT;1, N.TXT;1, N.TXT;34 and 200001.DIR;1.
pub const Y: Words = [40000, 0, 0, 32980, 1];

pub const Z: Words = [41600, 0, 0, 32980, 1];

const N1: Words = [22400, 0, 0, 32980, 1];

const N34: Words = [22400, 0, 0, 32980, 0o34];

/// The name of each record of a block of sevens.
const SEVENS_NAME: Words = [0x707; 5];

/// Records.
const EMPTY: [u16; 8] = [0; 8];

const X_OF_SEVEN: [u16; 8] = [7, 1, 0, 38400, 0, 0, 32980, 1];

const X_OF_EIGHT: [u16; 8] = [8, 1, 0, 38400, 0, 0, 32980, 1];

const Y_OF_EIGHT: [u16; 8] = [8, 1, 0, 40000, 0, 0, 32980, 1];

const Y_OF_SEVEN: [u16; 8] = [7, 1, 0, 40000, 0, 0, 32980, 1];

const Z_OF_SIX: [u16; 8] = [6, 1, 0, 41600, 0, 0, 32980, 1];

const Z_OF_EIGHT: [u16; 8] = [8, 1, 0, 41600, 0, 0, 32980, 1];

const Z_OF_NOWHERE: [u16; 8] = [99, 7, 0, 41600, 0, 0, 32980, 1];

const X_ELSEWHERE: [u16; 8] = [99, 7, 3, 38400, 0, 0, 32980, 1];

/// An empty one whose other words stayed.
const X_OF_NONE: [u16; 8] = [0, 1, 0, 38400, 0, 0, 32980, 1];

/// What is answered.
pub type Answer = Result<Reply, Refusal>;

pub const DONE: Answer = Ok(Reply::Done);

pub const NO_ENTRY: Answer = Err(Refusal::NoSuchEntry);

pub const TWICE: Answer = Err(Refusal::DuplicateName);

pub const NO_DIRECTORY: Answer = Err(Refusal::NotDirectory);

/// Identifications that are answered.
const FILE_SIX: FileId = FileId {
    number: 6,
    sequence: 1,
    volume: 0,
};

const FILE_SEVEN: FileId = FileId {
    number: 7,
    sequence: 1,
    volume: 0,
};

const FILE_EIGHT: FileId = FileId {
    number: 8,
    sequence: 1,
    volume: 0,
};

const FILE_ELSEWHERE: FileId = FileId {
    number: 99,
    sequence: 7,
    volume: 3,
};

const FILE_NOWHERE: FileId = FileId {
    number: 99,
    sequence: 7,
    volume: 0,
};

const FILE_OF_SEVENS: FileId = FileId {
    number: 0x707,
    sequence: 0x707,
    volume: 0x707,
};

const FOUND_SIX: Answer = Ok(Reply::Found(FILE_SIX));

pub const FOUND_SEVEN: Answer = Ok(Reply::Found(FILE_SEVEN));

const FOUND_EIGHT: Answer = Ok(Reply::Found(FILE_EIGHT));

const FOUND_NOWHERE: Answer = Ok(Reply::Found(FILE_NOWHERE));

const FOUND_ELSEWHERE: Answer = Ok(Reply::Found(FILE_ELSEWHERE));

const FOUND_SEVENS: Answer = Ok(Reply::Found(FILE_OF_SEVENS));

pub const MADE_SIX: Answer = Ok(Reply::Created(FILE_SIX));

pub const MADE_SEVEN: Answer = Ok(Reply::Created(FILE_SEVEN));

pub const MADE_EIGHT: Answer = Ok(Reply::Created(FILE_EIGHT));

/// An end in a record counts for the records before it, and one past the allocation for the allocation.
const ENDS: [Row; 40] = [
    (0, SYSTEM, Ask::CreateDirectory, MADE_SIX),
    (0, SYSTEM, Ask::Find(SIX, X), NO_ENTRY),
    (0, SYSTEM, Ask::Remove(SIX, X), NO_ENTRY),
    // it has no block
    (0, SYSTEM, Ask::SetEnd((6, 1), (9, 9, 0)), DONE),
    (0, SYSTEM, Ask::Find(SIX, X), NO_ENTRY),
    (0, SYSTEM, Ask::Enter(SIX, X, SEVEN), DONE),
    (0, SYSTEM, Ask::ReadEnd((6, 1), (1, 1, 16)), DONE),
    (0, SYSTEM, Ask::Enter(SIX, Y, EIGHT), DONE),
    (0, SYSTEM, Ask::Enter(SIX, Z, SIX), DONE),
    (0, SYSTEM, Ask::ReadEnd((6, 1), (1, 1, 48)), DONE),
    // in the third record
    (0, SYSTEM, Ask::SetEnd((6, 1), (1, 1, 47)), DONE),
    (0, SYSTEM, Ask::Find(SIX, Z), NO_ENTRY),
    (0, SYSTEM, Ask::Remove(SIX, Z), NO_ENTRY),
    (0, SYSTEM, Ask::Find(SIX, Y), FOUND_EIGHT),
    (0, SYSTEM, Ask::Enter(SIX, Z, EIGHT), DONE),
    (0, SYSTEM, Ask::ReadEnd((6, 1), (1, 1, 48)), DONE),
    (0, SYSTEM, Ask::Find(SIX, Z), FOUND_EIGHT),
    // no record
    (0, SYSTEM, Ask::SetEnd((6, 1), (1, 0, 32)), DONE),
    (0, SYSTEM, Ask::Find(SIX, Y), NO_ENTRY),
    (0, SYSTEM, Ask::Enter(SIX, Y, SEVEN), DONE),
    (0, SYSTEM, Ask::ReadEnd((6, 1), (1, 1, 16)), DONE),
    (0, SYSTEM, Ask::Find(SIX, Y), FOUND_SEVEN),
    (0, SYSTEM, Ask::Access((6, 1), Mode::Read, 0), DONE),
    (0, SYSTEM, Ask::ReadRecords(0, 1, AFTER_ENDS), DONE),
    (0, SYSTEM, Ask::Deaccess(0), DONE),
    // 32 records, as many as the block has
    (0, SYSTEM, Ask::Access((6, 1), Mode::Write, 0), DONE),
    (0, SYSTEM, Ask::Write(0, 1), DONE),
    (0, SYSTEM, Ask::Deaccess(0), DONE),
    (0, SYSTEM, Ask::SetEnd((6, 1), (9, 9, 0)), DONE),
    (0, SYSTEM, Ask::Find(SIX, SEVENS_NAME), FOUND_SEVENS),
    (0, SYSTEM, Ask::Enter(SIX, X, SEVEN), DONE),
    (0, SYSTEM, Ask::ReadEnd((6, 1), (2, 2, 16)), DONE),
    // as many, and a block behind them
    (0, SYSTEM, Ask::SetEnd((6, 1), (1, 2, 0)), DONE),
    (0, SYSTEM, Ask::Find(SIX, X), NO_ENTRY),
    (0, SYSTEM, Ask::Enter(SIX, Y, EIGHT), DONE),
    (0, SYSTEM, Ask::ReadEnd((6, 1), (2, 2, 16)), DONE),
    // 33 records, by another sum
    (0, SYSTEM, Ask::SetEnd((6, 1), (2, 1, 528)), DONE),
    (0, SYSTEM, Ask::Find(SIX, X), NO_ENTRY),
    (0, SYSTEM, Ask::Find(SIX, Y), FOUND_EIGHT),
    (0, SYSTEM, Ask::Space, SPACE_OF_TWO),
];

/// What stands in the block when the first records were entered.
const AFTER_ENDS: Records = [Y_OF_SEVEN, Y_OF_EIGHT, Z_OF_EIGHT];

/// A file has two blocks.
const SPACE_OF_TWO: Answer = Ok(Reply::Space {
    free: 376,
    headers: 10,
    slots: 16,
});

const REPEATED: Records = [X_OF_SEVEN, X_OF_EIGHT, Y_OF_EIGHT];

const ONE_REMOVED: Records = [EMPTY, X_OF_EIGHT, Y_OF_EIGHT];

const ONE_ENTERED: Records = [Z_OF_NOWHERE, EMPTY, Y_OF_EIGHT];

const TWO_ENTERED: Records = [Z_OF_NOWHERE, X_OF_SEVEN, Y_OF_EIGHT];

const ODDLY_EMPTY: Records = [X_OF_NONE, Y_OF_EIGHT, X_ELSEWHERE];

const LAST_REMOVED: Records = [X_OF_SEVEN, Y_OF_EIGHT, EMPTY];

/// A name stands twice, and records are empty.
const NAMES: [Row; 37] = [
    (0, SYSTEM, Ask::CreateDirectory, MADE_SIX),
    (0, SYSTEM, Ask::Enter(SIX, X, SEVEN), DONE),
    (0, SYSTEM, Ask::Enter(SIX, Y, SEVEN), DONE),
    (0, SYSTEM, Ask::Enter(SIX, Z, SEVEN), DONE),
    (0, SYSTEM, Ask::Access((6, 1), Mode::Write, 0), DONE),
    (0, SYSTEM, Ask::WriteRecords(0, 1, REPEATED), DONE),
    (0, SYSTEM, Ask::Deaccess(0), DONE),
    (0, SYSTEM, Ask::Access((6, 1), Mode::Read, 0), DONE),
    (0, SYSTEM, Ask::Find(SIX, X), FOUND_SEVEN),
    (0, SYSTEM, Ask::Enter(SIX, X, SEVEN), TWICE),
    (0, SYSTEM, Ask::Remove(SIX, X), DONE),
    (0, SYSTEM, Ask::Find(SIX, X), FOUND_EIGHT),
    // not in the empty record before it
    (0, SYSTEM, Ask::Enter(SIX, X, SEVEN), TWICE),
    (0, SYSTEM, Ask::ReadRecords(0, 1, ONE_REMOVED), DONE),
    (0, SYSTEM, Ask::Remove(SIX, X), DONE),
    (0, SYSTEM, Ask::Find(SIX, X), NO_ENTRY),
    (0, SYSTEM, Ask::Remove(SIX, X), NO_ENTRY),
    // a file that isn't there
    (0, SYSTEM, Ask::Enter(SIX, Z, NOWHERE), DONE),
    (0, SYSTEM, Ask::Find(SIX, Z), FOUND_NOWHERE),
    (0, SYSTEM, Ask::ReadRecords(0, 1, ONE_ENTERED), DONE),
    (0, SYSTEM, Ask::Enter(SIX, X, SEVEN), DONE),
    (0, SYSTEM, Ask::ReadRecords(0, 1, TWO_ENTERED), DONE),
    (0, SYSTEM, Ask::ReadEnd((6, 1), (1, 1, 48)), DONE),
    (0, SYSTEM, Ask::Deaccess(0), DONE),
    // an empty record has no name, and one may be of another volume
    (0, SYSTEM, Ask::Access((6, 1), Mode::Write, 0), DONE),
    (0, SYSTEM, Ask::WriteRecords(0, 1, ODDLY_EMPTY), DONE),
    (0, SYSTEM, Ask::Deaccess(0), DONE),
    (0, SYSTEM, Ask::Find(SIX, X), FOUND_ELSEWHERE),
    (0, SYSTEM, Ask::Remove(SIX, X), DONE),
    (0, SYSTEM, Ask::Find(SIX, X), NO_ENTRY),
    (0, SYSTEM, Ask::Enter(SIX, X, SEVEN), DONE),
    (0, SYSTEM, Ask::Access((6, 1), Mode::Locked, 0), DONE),
    (0, SYSTEM, Ask::ReadRecords(0, 1, LAST_REMOVED), DONE),
    (0, SYSTEM, Ask::Deaccess(0), DONE),
    (0, SYSTEM, Ask::Enter(SIX, Z, SIX), DONE),
    (0, SYSTEM, Ask::Find(SIX, Z), FOUND_SIX),
    (0, SYSTEM, Ask::ReadEnd((6, 1), (1, 1, 48)), DONE),
];

/// Blocks that are taken, and none is free.
const NONE_FREE: Answer = Ok(Reply::Space {
    free: 0,
    headers: 10,
    slots: 16,
});

const FULL: Answer = Err(Refusal::DeviceFull);

/// No block is free, and the master file directory's is full of records.
const FULL_VOLUME: [Row; 16] = [
    (0, SYSTEM, Ask::Access((6, 1), Mode::Write, 0), DONE),
    (0, SYSTEM, Ask::Extend(0, 378), Ok(Reply::Length(378))),
    (0, SYSTEM, Ask::Space, NONE_FREE),
    (0, SYSTEM, Ask::Enter(MASTER, N34, SIX), FULL),
    (0, SYSTEM, Ask::Enter(MASTER, N1, SIX), TWICE),
    (0, SYSTEM, Ask::Find(MASTER, N34), NO_ENTRY),
    (0, SYSTEM, Ask::Remove(MASTER, N1), DONE),
    (0, SYSTEM, Ask::Enter(MASTER, N34, SIX), DONE),
    (0, SYSTEM, Ask::Find(MASTER, N34), FOUND_SIX),
    (0, SYSTEM, Ask::Enter(MASTER, X, SEVEN), FULL),
    (0, SYSTEM, Ask::ReadEnd((4, 4), (1, 2, 0)), DONE),
    (0, SYSTEM, Ask::Truncate(0, 377), Ok(Reply::Length(377))),
    (0, SYSTEM, Ask::Enter(MASTER, X, SEVEN), DONE),
    (0, SYSTEM, Ask::Find(MASTER, X), FOUND_SEVEN),
    (0, SYSTEM, Ask::ReadEnd((4, 4), (2, 2, 16)), DONE),
    (0, SYSTEM, Ask::Space, NONE_FREE),
];

/// Asks rows of the volume of a device, which has to be accepted then, and gives the first row that isn't so.
pub fn wrong_in(alloc: Global, device: Memory, rows: &[Row]) -> Result<Option<usize>, Fail> {
    let mut volume = mounted(alloc, device)?;
    let wrong = first_wrong(&mut volume, rows);
    let _ = dismounted(alloc, volume)?;
    Ok(wrong)
}

#[test]
fn records_come_and_go(rt: HostRuntime) -> Result<(), Fail> {
    for rows in [ENDS.as_slice(), &NAMES] {
        let device = volumes::fresh(rt.alloc(), 400)?;
        assert_eq!(rt; wrong_in(rt.alloc(), device, rows)?, None, "{}", rows.len());
    }
    let device = full_directory(rt.alloc())?;
    assert_eq!(rt; wrong_in(rt.alloc(), device, &FULL_VOLUME)?, None);
    Ok(())
}

/// Whether the files of the first two luns are extended by a block each in turn, so many times.
pub fn extends_in_turn<D: Device>(volume: &mut Volume<D>, times: u32) -> bool {
    for blocks in 1..=times {
        for lun in [0, 1] {
            let answer = Ask::Extend(lun, 1).of(volume, 0, SYSTEM);
            if answer != Some(Ok(Reply::Length(blocks))) {
                return false;
            }
        }
    }
    true
}

/// Whether sevens, which are records without an empty one, are written into the first blocks of the first lun's file, so many.
fn fills<D: Device>(volume: &mut Volume<D>, blocks: u32) -> bool {
    for vbn in 1..=blocks {
        if Ask::Write(0, vbn).of(volume, 0, SYSTEM) != Some(DONE) {
            return false;
        }
    }
    true
}

/// Whether files are made in these slots.
fn creates<D: Device>(volume: &mut Volume<D>, first: u16, last: u16) -> bool {
    for number in first..=last {
        let answer = Ask::Create.of(volume, 0, SYSTEM);
        if answer != Some(Ok(Reply::Created(file(number, 1)))) {
            return false;
        }
    }
    true
}

/// A directory, and a file beside it.
pub const TWO_FILES: [Row; 4] = [
    (0, SYSTEM, Ask::CreateDirectory, MADE_SIX),
    (0, SYSTEM, Ask::Create, MADE_SEVEN),
    (0, SYSTEM, Ask::Access((6, 1), Mode::Write, 0), DONE),
    (0, SYSTEM, Ask::Access((7, 1), Mode::Write, 1), DONE),
];

/// A file has 102 blocks, and a directory 102, or 103 and the index file one slot more; no header is free.
const SPACE_OF_102: Answer = Ok(Reply::Space {
    free: 174,
    headers: 0,
    slots: 16,
});

const SPACE_OF_103: Answer = Ok(Reply::Space {
    free: 172,
    headers: 0,
    slots: 17,
});

const IN_SECOND_HEADER: Records = [Z_OF_SIX, Y_OF_EIGHT, EMPTY];

/// Its 102 blocks, each with a pointer of its own, are full of records: the next one needs a header, for which the index file gets a slot.
const SECOND_HEADER: [Row; 18] = [
    (0, SYSTEM, Ask::Deaccess(0), DONE),
    (0, SYSTEM, Ask::SetEnd((6, 1), (0, 103, 0)), DONE),
    (0, SYSTEM, Ask::Space, SPACE_OF_102),
    (0, SYSTEM, Ask::Find(SIX, SEVENS_NAME), FOUND_SEVENS),
    (0, SYSTEM, Ask::Enter(SIX, X, SEVEN), DONE),
    (0, SYSTEM, Ask::ReadEnd((6, 1), (103, 103, 16)), DONE),
    (0, SYSTEM, Ask::Space, SPACE_OF_103),
    (0, SYSTEM, Ask::Find(SIX, X), FOUND_SEVEN),
    (0, SYSTEM, Ask::Enter(SIX, X, SEVEN), TWICE),
    (0, SYSTEM, Ask::Enter(SIX, Y, EIGHT), DONE),
    (0, SYSTEM, Ask::Find(SIX, Y), FOUND_EIGHT),
    (0, SYSTEM, Ask::Remove(SIX, X), DONE),
    (0, SYSTEM, Ask::Find(SIX, X), NO_ENTRY),
    (0, SYSTEM, Ask::Enter(SIX, Z, SIX), DONE),
    (0, SYSTEM, Ask::Find(SIX, Z), FOUND_SIX),
    (0, SYSTEM, Ask::ReadEnd((6, 1), (103, 103, 32)), DONE),
    (0, SYSTEM, Ask::Access((6, 1), Mode::Read, 0), DONE),
    (0, SYSTEM, Ask::ReadRecords(0, 103, IN_SECOND_HEADER), DONE),
];

#[test]
fn a_directory_has_two_headers(rt: HostRuntime) -> Result<(), Fail> {
    let mut volume = mounted(rt.alloc(), volumes::fresh(rt.alloc(), 400)?)?;
    assert_eq!(rt; first_wrong(&mut volume, &TWO_FILES), None);
    assert!(rt; extends_in_turn(&mut volume, 102));
    assert!(rt; fills(&mut volume, 102));
    assert!(rt; creates(&mut volume, 8, 16));
    assert_eq!(rt; first_wrong(&mut volume, &SECOND_HEADER), None);
    let _ = dismounted(rt.alloc(), volume)?;
    Ok(())
}
