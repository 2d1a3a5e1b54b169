//! What stands against requests on directories.
use crate::requests::asks::{Ask, Row, SIX, USER, X};
use crate::requests::directories::{
    Answer, DONE, EIGHT, FOUND_SEVEN, MADE_EIGHT, MADE_SEVEN, MADE_SIX, NO_DIRECTORY, NO_ENTRY,
    SEVEN, TWICE, Y, Z, wrong_in,
};
use f11_fixtures::{SYSTEM, volumes};
use f11_store::{Mode, Refusal};
use std::test::Fail;

const BAD: Answer = Err(Refusal::BadArgument);

const SYSTEM_FILE: Answer = Err(Refusal::SystemFile);

const NO_FILE: Answer = Err(Refusal::NoSuchFile);

const MARKED: Answer = Err(Refusal::Marked);

const NO_RIGHT: Answer = Err(Refusal::NoPrivilege);

const CONFLICT: Answer = Err(Refusal::Conflict);

/// Refusals of the three requests, each where the causes of later ones hold too.
const REFUSALS: [Row; 59] = [
    (0, SYSTEM, Ask::CreateDirectory, MADE_SIX),
    (0, SYSTEM, Ask::Create, MADE_SEVEN),
    (0, SYSTEM, Ask::CreateDirectory, MADE_EIGHT),
    (0, SYSTEM, Ask::Enter(SIX, X, SEVEN), DONE),
    // identifications that are none
    (0, SYSTEM, Ask::Find((0, 1, 0), X), BAD),
    (0, SYSTEM, Ask::Enter((0, 1, 0), X, SEVEN), BAD),
    (0, SYSTEM, Ask::Remove((0, 1, 0), X), BAD),
    (0, SYSTEM, Ask::Find((1, 1, 1), X), BAD),
    (0, SYSTEM, Ask::Enter((6, 1, 1), X, SEVEN), BAD),
    (0, SYSTEM, Ask::Remove((6, 1, 65535), X), BAD),
    (0, SYSTEM, Ask::Enter((1, 1, 0), X, (0, 1, 0)), BAD),
    (0, SYSTEM, Ask::Enter((9, 1, 0), X, (7, 1, 1)), BAD),
    // the volume's own files, by their numbers
    (0, SYSTEM, Ask::Find((1, 9, 0), X), SYSTEM_FILE),
    (0, USER, Ask::Enter((2, 2, 0), X, SEVEN), SYSTEM_FILE),
    (0, USER, Ask::Remove((3, 3, 0), X), SYSTEM_FILE),
    (0, SYSTEM, Ask::Enter(SIX, Y, (1, 1, 0)), DONE),
    // files that aren't there
    (0, SYSTEM, Ask::Find((6, 2, 0), X), NO_FILE),
    (0, SYSTEM, Ask::Enter((9, 1, 0), X, SEVEN), NO_FILE),
    (0, SYSTEM, Ask::Remove((65535, 1, 0), X), NO_FILE),
    // a file that is marked for delete, which the world may not use
    (1, SYSTEM, Ask::Access((8, 1), Mode::Locked, 0), DONE),
    (0, SYSTEM, Ask::Protect((8, 1), 0o170000), DONE),
    (0, SYSTEM, Ask::Delete((8, 1)), DONE),
    (0, USER, Ask::Find(EIGHT, X), MARKED),
    (0, USER, Ask::Enter(EIGHT, X, SEVEN), MARKED),
    (1, SYSTEM, Ask::Remove(EIGHT, X), MARKED),
    // one that is no directory, which the world may not use, and a task writes
    (1, SYSTEM, Ask::Access((7, 1), Mode::Write, 1), DONE),
    (0, SYSTEM, Ask::Protect((7, 1), 0o170000), DONE),
    (0, USER, Ask::Find(SEVEN, X), NO_RIGHT),
    (0, USER, Ask::Enter(SEVEN, X, SEVEN), NO_RIGHT),
    (0, USER, Ask::Remove(SEVEN, X), NO_RIGHT),
    (0, SYSTEM, Ask::Find(SEVEN, X), NO_DIRECTORY),
    (0, SYSTEM, Ask::Enter(SEVEN, X, SEVEN), CONFLICT),
    (1, SYSTEM, Ask::Enter(SEVEN, X, SEVEN), CONFLICT),
    (1, SYSTEM, Ask::Remove(SEVEN, X), CONFLICT),
    (1, SYSTEM, Ask::Deaccess(1), DONE),
    (0, SYSTEM, Ask::Enter(SEVEN, X, SEVEN), NO_DIRECTORY),
    (0, SYSTEM, Ask::Remove(SEVEN, X), NO_DIRECTORY),
    // a directory that is locked, written, and read
    (1, USER, Ask::Access((6, 1), Mode::Locked, 1), DONE),
    (0, USER, Ask::Find(SIX, X), FOUND_SEVEN),
    (0, SYSTEM, Ask::Enter(SIX, X, SEVEN), CONFLICT),
    (1, USER, Ask::Enter(SIX, Z, SEVEN), CONFLICT),
    (1, USER, Ask::Remove(SIX, Z), CONFLICT),
    (2, SYSTEM, Ask::Remove(SIX, X), CONFLICT),
    (1, USER, Ask::Deaccess(1), DONE),
    (1, USER, Ask::Access((6, 1), Mode::Write, 2), DONE),
    (1, USER, Ask::Find(SIX, X), FOUND_SEVEN),
    (1, USER, Ask::Enter(SIX, Z, SEVEN), CONFLICT),
    (2, SYSTEM, Ask::Remove(SIX, X), CONFLICT),
    (1, USER, Ask::Deaccess(2), DONE),
    (1, USER, Ask::Access((6, 1), Mode::Read, 3), DONE),
    (1, USER, Ask::Remove(SIX, Y), DONE),
    (2, SYSTEM, Ask::Enter(SIX, Z, SEVEN), DONE),
    (0, USER, Ask::Enter(SIX, Z, EIGHT), TWICE),
    (0, USER, Ask::Remove(SIX, Y), NO_ENTRY),
    (0, USER, Ask::Find(SIX, Y), NO_ENTRY),
    // records of other types and sizes, and another ident type
    (0, SYSTEM, Ask::SetRecords((6, 1), 2, 16), DONE),
    (0, SYSTEM, Ask::Find(SIX, X), NO_DIRECTORY),
    (0, SYSTEM, Ask::SetRecords((6, 1), 1, 15), DONE),
    (0, SYSTEM, Ask::Enter(SIX, Y, SEVEN), NO_DIRECTORY),
];

/// The right that each request asks for, where the world has it alone or lacks it.
const RIGHTS: [Row; 18] = [
    (0, SYSTEM, Ask::CreateDirectory, MADE_SIX),
    (0, SYSTEM, Ask::Create, MADE_SEVEN),
    (0, SYSTEM, Ask::SetRecords((7, 1), 1, 16), DONE),
    (0, SYSTEM, Ask::Remove(SEVEN, X), NO_DIRECTORY),
    // to write alone; the directory has no block yet
    (0, SYSTEM, Ask::Protect((6, 1), 0o150000), DONE),
    (0, USER, Ask::Enter(SIX, X, SEVEN), DONE),
    (0, USER, Ask::Enter(SIX, Y, EIGHT), DONE),
    (0, USER, Ask::Find(SIX, X), NO_RIGHT),
    (0, USER, Ask::Remove(SIX, Y), DONE),
    // all but to write
    (0, SYSTEM, Ask::Protect((6, 1), 0o020000), DONE),
    (0, USER, Ask::Enter(SIX, X, SEVEN), NO_RIGHT),
    (0, USER, Ask::Remove(SIX, X), NO_RIGHT),
    (0, USER, Ask::Find(SIX, X), FOUND_SEVEN),
    // all but to read
    (0, SYSTEM, Ask::Protect((6, 1), 0o010000), DONE),
    (0, USER, Ask::Find(SIX, X), NO_RIGHT),
    (0, USER, Ask::Enter(SIX, X, SEVEN), TWICE),
    (0, USER, Ask::Remove(SIX, X), DONE),
    (0, SYSTEM, Ask::Find(SIX, X), NO_ENTRY),
];

#[test]
fn directories_are_refused(rt: HostRuntime) -> Result<(), Fail> {
    for rows in [REFUSALS.as_slice(), &RIGHTS] {
        let device = volumes::fresh(rt.alloc(), 400)?;
        assert_eq!(rt; wrong_in(rt.alloc(), device, rows)?, None, "{}", rows.len());
    }
    Ok(())
}
