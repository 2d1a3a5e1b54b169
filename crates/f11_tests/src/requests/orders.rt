//! In which order requests write blocks: a contract says of each moment that the image is accepted, which it would be in other orders, too.
use crate::requests::asks::{Ask, MASTER, Records, Row, SIX, X};
use crate::requests::directories::{Answer, DONE, NO_ENTRY, Y};
use crate::requests::steps::Step::{
    Bitmap, Data, Header, HeaderAt, Killed, SecondBitmap, Slot, Zeros, ZerosFrom,
};
use crate::requests::steps::{Case, Edit, LONG, ROOT, SHORT, Step, first_disordered};
use f11_fixtures::SYSTEM;
use f11_store::{FileId, Mode, Refusal, Reply};
use std::test::Fail;

/// The file that is made in the next slot.
const MADE: Answer = Ok(Reply::Created(FileId {
    number: 10,
    sequence: 1,
    volume: 0,
}));

/// The file that is made in a slot which the index file gets for it.
const MADE_BEHIND: Answer = Ok(Reply::Created(FileId {
    number: 17,
    sequence: 1,
    volume: 0,
}));

/// The header, and then its slot's bit; where no slot is free, the index file gets one first, as where it grows.
const CREATED: [Case; 2] = [
    Case {
        edits: &[],
        begun: &[],
        request: (0, SYSTEM, Ask::Create, MADE),
        steps: &[Header(10), Slot(10)],
    },
    Case {
        edits: &[Edit::NoneFree],
        begun: &[],
        request: (0, SYSTEM, Ask::Create, MADE_BEHIND),
        steps: &[Bitmap, Zeros(23), Header(1), HeaderAt(17, 23), Slot(17)],
    },
];

const LONG_ACCESSED: [Row; 1] = [(0, SYSTEM, Ask::Access(LONG, Mode::Write, 0), DONE)];

const SHORT_ACCESSED: [Row; 1] = [(0, SYSTEM, Ask::Access(SHORT, Mode::Write, 0), DONE)];

/// The first header without its mark; then for each run the storage bitmap, zeros, and the header that names them. Where that is a new one it,
/// its slot's bit, and the link to it.
const EXTENDED: [Case; 6] = [
    // the run joins the pointer
    Case {
        edits: &[],
        begun: &SHORT_ACCESSED,
        request: (0, SYSTEM, Ask::Extend(0, 1), Ok(Reply::Length(2))),
        steps: &[Bitmap, Zeros(23), Header(9)],
    },
    Case {
        edits: &[],
        begun: &SHORT_ACCESSED,
        request: (0, SYSTEM, Ask::Extend(0, 3), Ok(Reply::Length(4))),
        steps: &[
            Bitmap,
            Zeros(23),
            Zeros(24),
            Header(9),
            Bitmap,
            Zeros(26),
            Header(9),
        ],
    },
    Case {
        edits: &[Edit::Contiguous(9)],
        begun: &SHORT_ACCESSED,
        request: (0, SYSTEM, Ask::Extend(0, 1), Ok(Reply::Length(2))),
        steps: &[Header(9), Bitmap, Zeros(23), Header(9)],
    },
    Case {
        edits: &[Edit::Full(8)],
        begun: &LONG_ACCESSED,
        request: (0, SYSTEM, Ask::Extend(0, 1), Ok(Reply::Length(8))),
        steps: &[Bitmap, Zeros(23), Header(10), Slot(10), Header(8)],
    },
    // all of it
    Case {
        edits: &[Edit::Contiguous(6), Edit::Full(8)],
        begun: &LONG_ACCESSED,
        request: (0, SYSTEM, Ask::Extend(0, 3), Ok(Reply::Length(10))),
        steps: &[
            Header(6),
            Bitmap,
            Zeros(23),
            Zeros(24),
            Header(10),
            Slot(10),
            Header(8),
            Bitmap,
            Zeros(26),
            Header(10),
        ],
    },
    // the index file gets a slot first
    Case {
        edits: &[Edit::Contiguous(6), Edit::Full(8), Edit::NoneFree],
        begun: &LONG_ACCESSED,
        request: (0, SYSTEM, Ask::Extend(0, 1), Ok(Reply::Length(8))),
        steps: &[
            Bitmap,
            Zeros(23),
            Header(1),
            Header(6),
            Bitmap,
            Zeros(24),
            HeaderAt(17, 23),
            Slot(17),
            Header(8),
        ],
    },
];

/// Block 22 is free then, and so are 22 to 24 in a row, 26, 29, 31, 33, and those from 36 on.
const SHORT_EMPTIED: [Row; 2] = [
    (0, SYSTEM, Ask::Access(SHORT, Mode::Write, 0), DONE),
    (0, SYSTEM, Ask::Truncate(0, 0), Ok(Reply::Length(0))),
];

/// A file without blocks.
const FIRST_MADE: [Row; 2] = [
    (
        0,
        SYSTEM,
        Ask::Create,
        Ok(Reply::Created(FileId {
            number: 6,
            sequence: 1,
            volume: 0,
        })),
    ),
    (0, SYSTEM, Ask::Access(LONG, Mode::Write, 0), DONE),
];

/// The storage bitmap for all of the run; then for each header zeros, and the header that names them. Where that is a new one it, its slot's
/// bit, and the link to it. Last the first header with the mark.
const LAID_OUT: [Case; 6] = [
    Case {
        edits: &[],
        begun: &SHORT_EMPTIED,
        request: (0, SYSTEM, Ask::Contiguous(0, 3), Ok(Reply::Length(3))),
        steps: &[
            Bitmap,
            Zeros(22),
            Zeros(23),
            Zeros(24),
            Header(9),
            Header(9),
        ],
    },
    // the rows in front are too short; and the header has the mark already
    Case {
        edits: &[Edit::Contiguous(9)],
        begun: &SHORT_EMPTIED,
        request: (0, SYSTEM, Ask::Contiguous(0, 4), Ok(Reply::Length(4))),
        steps: &[Bitmap, ZerosFrom(36, 4), Header(9)],
    },
    // its header names 256 of them, and a new one the others
    Case {
        edits: &[Edit::Full(9)],
        begun: &SHORT_EMPTIED,
        request: (0, SYSTEM, Ask::Contiguous(0, 258), Ok(Reply::Length(258))),
        steps: &[
            Bitmap,
            ZerosFrom(36, 256),
            Header(9),
            ZerosFrom(292, 2),
            Header(10),
            Slot(10),
            Header(9),
            Header(9),
        ],
    },
    // a new one names all of them
    Case {
        edits: &[Edit::Placeless(9)],
        begun: &SHORT_ACCESSED,
        request: (0, SYSTEM, Ask::Contiguous(0, 2), Ok(Reply::Length(2))),
        steps: &[
            Bitmap,
            ZerosFrom(23, 2),
            Header(10),
            Slot(10),
            Header(9),
            Header(9),
        ],
    },
    // two bitmap blocks have the bits of the run
    Case {
        edits: &[Edit::Wide],
        begun: &FIRST_MADE,
        request: (0, SYSTEM, Ask::Contiguous(0, 16), Ok(Reply::Length(16))),
        steps: &[
            Bitmap,
            SecondBitmap,
            ZerosFrom(4090, 16),
            Header(6),
            Header(6),
        ],
    },
    Case {
        edits: &[],
        begun: &SHORT_EMPTIED,
        request: (0, SYSTEM, Ask::Contiguous(0, 365), Err(Refusal::NoRun)),
        steps: &[],
    },
];

/// As where a file is extended.
const GROWN: [Case; 3] = [
    Case {
        edits: &[],
        begun: &[],
        request: (0, SYSTEM, Ask::GrowIndex(1), Ok(Reply::Slots(17))),
        steps: &[Bitmap, Zeros(23), Header(1)],
    },
    Case {
        edits: &[Edit::Contiguous(1)],
        begun: &[],
        request: (0, SYSTEM, Ask::GrowIndex(3), Ok(Reply::Slots(19))),
        steps: &[
            Header(1),
            Bitmap,
            Zeros(23),
            Zeros(24),
            Header(1),
            Bitmap,
            Zeros(26),
            Header(1),
        ],
    },
    Case {
        edits: &[Edit::Contiguous(1), Edit::Full(1)],
        begun: &[],
        request: (0, SYSTEM, Ask::GrowIndex(3), Ok(Reply::Slots(19))),
        steps: &[
            Header(1),
            Bitmap,
            Zeros(23),
            Zeros(24),
            Header(10),
            Slot(10),
            Header(1),
            Bitmap,
            Zeros(26),
            Header(10),
        ],
    },
];

/// The header that names the last block that is kept, cut; the storage bitmap for each pointer that it loses; and each header behind it as
/// where a file is deleted.
const TRUNCATED: [Case; 5] = [
    Case {
        edits: &[],
        begun: &LONG_ACCESSED,
        request: (0, SYSTEM, Ask::Truncate(0, 6), Ok(Reply::Length(6))),
        steps: &[Header(8), Bitmap],
    },
    Case {
        edits: &[],
        begun: &LONG_ACCESSED,
        request: (0, SYSTEM, Ask::Truncate(0, 4), Ok(Reply::Length(4))),
        steps: &[Header(7), Bitmap, Killed(8), Slot(8), Bitmap],
    },
    // a whole header stays
    Case {
        edits: &[],
        begun: &LONG_ACCESSED,
        request: (0, SYSTEM, Ask::Truncate(0, 3), Ok(Reply::Length(3))),
        steps: &[
            Header(6),
            Killed(7),
            Slot(7),
            Bitmap,
            Bitmap,
            Killed(8),
            Slot(8),
            Bitmap,
        ],
    },
    Case {
        edits: &[],
        begun: &LONG_ACCESSED,
        request: (0, SYSTEM, Ask::Truncate(0, 2), Ok(Reply::Length(2))),
        steps: &[
            Header(6),
            Bitmap,
            Killed(7),
            Slot(7),
            Bitmap,
            Bitmap,
            Killed(8),
            Slot(8),
            Bitmap,
        ],
    },
    // no block stays
    Case {
        edits: &[],
        begun: &LONG_ACCESSED,
        request: (0, SYSTEM, Ask::Truncate(0, 0), Ok(Reply::Length(0))),
        steps: &[
            Header(6),
            Bitmap,
            Bitmap,
            Killed(7),
            Slot(7),
            Bitmap,
            Bitmap,
            Killed(8),
            Slot(8),
            Bitmap,
        ],
    },
];

/// Each of the long file's headers in order: dead, its slot's bit, the storage bitmap for each pointer.
const LONG_GONE: [Step; 11] = [
    Killed(6),
    Slot(6),
    Bitmap,
    Bitmap,
    Killed(7),
    Slot(7),
    Bitmap,
    Bitmap,
    Killed(8),
    Slot(8),
    Bitmap,
];

/// The file goes at once, or with its last access. Where a task releases several, they go in the order of luns.
const DELETED: [Case; 3] = [
    Case {
        edits: &[],
        begun: &[],
        request: (0, SYSTEM, Ask::Delete(LONG), DONE),
        steps: &LONG_GONE,
    },
    Case {
        edits: &[],
        begun: &[
            (0, SYSTEM, Ask::Access(LONG, Mode::Read, 0), DONE),
            (0, SYSTEM, Ask::Delete(LONG), DONE),
        ],
        request: (0, SYSTEM, Ask::Deaccess(0), DONE),
        steps: &LONG_GONE,
    },
    Case {
        edits: &[],
        begun: &[
            (0, SYSTEM, Ask::Access(LONG, Mode::Read, 2), DONE),
            (0, SYSTEM, Ask::Access(SHORT, Mode::Read, 1), DONE),
            (0, SYSTEM, Ask::Delete(LONG), DONE),
            (0, SYSTEM, Ask::Delete(SHORT), DONE),
        ],
        request: (0, SYSTEM, Ask::Release, DONE),
        steps: &[
            Killed(9),
            Slot(9),
            Bitmap,
            Killed(6),
            Slot(6),
            Bitmap,
            Bitmap,
            Killed(7),
            Slot(7),
            Bitmap,
            Bitmap,
            Killed(8),
            Slot(8),
            Bitmap,
        ],
    },
];

/// The directory's block holds sevens, which are 32 records, and none is empty.
const FILLED: [Row; 4] = [
    (0, SYSTEM, Ask::Access(ROOT, Mode::Write, 0), DONE),
    (0, SYSTEM, Ask::Write(0, 1), DONE),
    (0, SYSTEM, Ask::Deaccess(0), DONE),
    (0, SYSTEM, Ask::SetEnd(ROOT, (1, 2, 0)), DONE),
];

/// As where a file is extended, where a block is added; the record; and the header with the end, where no record was empty.
const ENTERED: [Case; 5] = [
    Case {
        edits: &[],
        begun: &[
            (0, SYSTEM, Ask::Enter(MASTER, X, SIX), DONE),
            (0, SYSTEM, Ask::Remove(MASTER, X), DONE),
        ],
        request: (0, SYSTEM, Ask::Enter(MASTER, Y, SIX), DONE),
        steps: &[Data(21)],
    },
    Case {
        edits: &[],
        begun: &[],
        request: (0, SYSTEM, Ask::Enter(MASTER, X, SIX), DONE),
        steps: &[Data(21), Header(4)],
    },
    Case {
        edits: &[],
        begun: &FILLED,
        request: (0, SYSTEM, Ask::Enter(MASTER, X, SIX), DONE),
        steps: &[Bitmap, Zeros(23), Header(4), Data(23), Header(4)],
    },
    Case {
        edits: &[Edit::Contiguous(4)],
        begun: &FILLED,
        request: (0, SYSTEM, Ask::Enter(MASTER, X, SIX), DONE),
        steps: &[Header(4), Bitmap, Zeros(23), Header(4), Data(23), Header(4)],
    },
    Case {
        edits: &[Edit::Full(4)],
        begun: &FILLED,
        request: (0, SYSTEM, Ask::Enter(MASTER, X, SIX), DONE),
        steps: &[
            Bitmap,
            Zeros(23),
            Header(10),
            Slot(10),
            Header(4),
            Data(23),
            Header(4),
        ],
    },
];

/// Records that a block of a file doesn't hold.
const ONE: Records = [[1; 8], [0; 8], [0; 8]];

/// Requests of one write.
const ALONE: [Case; 5] = [
    Case {
        edits: &[],
        begun: &[(0, SYSTEM, Ask::Enter(MASTER, X, SIX), DONE)],
        request: (0, SYSTEM, Ask::Remove(MASTER, X), DONE),
        steps: &[Data(21)],
    },
    Case {
        edits: &[],
        begun: &LONG_ACCESSED,
        request: (0, SYSTEM, Ask::WriteRecords(0, 5, ONE), DONE),
        steps: &[Data(32)],
    },
    Case {
        edits: &[],
        begun: &[],
        request: (0, SYSTEM, Ask::SetAttr(LONG), DONE),
        steps: &[Header(6)],
    },
    Case {
        edits: &[],
        begun: &[],
        request: (0, SYSTEM, Ask::Protect(LONG, 1), DONE),
        steps: &[Header(6)],
    },
    // the file is marked
    Case {
        edits: &[],
        begun: &LONG_ACCESSED,
        request: (0, SYSTEM, Ask::Delete(LONG), DONE),
        steps: &[Header(6)],
    },
];

/// A block of the file holds these records, and the file is accessed still.
const WRITTEN: [Row; 2] = [
    (0, SYSTEM, Ask::Access(LONG, Mode::Write, 0), DONE),
    (0, SYSTEM, Ask::WriteRecords(0, 5, ONE), DONE),
];

const SPACE: Answer = Ok(Reply::Space {
    free: 370,
    headers: 7,
    slots: 16,
});

/// Requests of no write, one that is refused behind a mark that it would clear among them.
const UNWRITTEN: [Case; 7] = [
    Case {
        edits: &[],
        begun: &WRITTEN,
        request: (0, SYSTEM, Ask::ReadRecords(0, 5, ONE), DONE),
        steps: &[],
    },
    Case {
        edits: &[],
        begun: &WRITTEN,
        request: (0, SYSTEM, Ask::Access(SHORT, Mode::Write, 1), DONE),
        steps: &[],
    },
    Case {
        edits: &[],
        begun: &WRITTEN,
        request: (0, SYSTEM, Ask::Deaccess(0), DONE),
        steps: &[],
    },
    Case {
        edits: &[],
        begun: &WRITTEN,
        request: (0, SYSTEM, Ask::Find(MASTER, X), NO_ENTRY),
        steps: &[],
    },
    Case {
        edits: &[],
        begun: &WRITTEN,
        request: (0, SYSTEM, Ask::ReadEnd(ROOT, (1, 1, 80)), DONE),
        steps: &[],
    },
    Case {
        edits: &[],
        begun: &WRITTEN,
        request: (0, SYSTEM, Ask::Space, SPACE),
        steps: &[],
    },
    Case {
        edits: &[Edit::Contiguous(6)],
        begun: &WRITTEN,
        request: (0, SYSTEM, Ask::Extend(0, 371), Err(Refusal::DeviceFull)),
        steps: &[],
    },
];

#[test]
fn blocks_are_written_in_order(rt: HostRuntime) -> Result<(), Fail> {
    for cases in [
        CREATED.as_slice(),
        &EXTENDED,
        &LAID_OUT,
        &GROWN,
        &TRUNCATED,
        &DELETED,
        &ENTERED,
        &ALONE,
        &UNWRITTEN,
    ] {
        let wrong = first_disordered(rt.alloc(), cases)?;
        assert_eq!(rt; wrong, None, "{}", cases.len());
    }
    Ok(())
}
