//! Lists of requests of several tasks, each served as one call.
use crate::requests::asks::{
    Ask, MASTER, Row, SIX, X, dismounted, first_wrong, first_wrong_in_list, mounted,
};
use f11_fixtures::{SYSTEM, are_alike, file, volumes};
use f11_store::{Mode, Refusal, Reply};
use std::test::Fail;

/// The file that each table makes first.
const FIRST: (u16, u16) = (6, 1);

/// The counts of the volume, as they are answered.
const fn space(free: u32, headers: u32, slots: u32) -> Reply {
    Reply::Space {
        free,
        headers,
        slots,
    }
}

#[test]
fn a_file_is_deleted_with_its_last_access(rt: HostRuntime) -> Result<(), Fail> {
    let rows: [Row; 13] = [
        (0, SYSTEM, Ask::Create, Ok(Reply::Created(file(6, 1)))),
        (
            0,
            SYSTEM,
            Ask::Access(FIRST, Mode::Write, 0),
            Ok(Reply::Done),
        ),
        (0, SYSTEM, Ask::Extend(0, 2), Ok(Reply::Length(2))),
        (0, SYSTEM, Ask::Deaccess(0), Ok(Reply::Done)),
        (
            1,
            SYSTEM,
            Ask::Access(FIRST, Mode::Read, 0),
            Ok(Reply::Done),
        ),
        (2, SYSTEM, Ask::Delete(FIRST), Ok(Reply::Done)),
        (1, SYSTEM, Ask::Read(0, 1), Ok(Reply::Done)),
        (
            2,
            SYSTEM,
            Ask::Access(FIRST, Mode::Read, 0),
            Err(Refusal::Marked),
        ),
        (2, SYSTEM, Ask::Delete(FIRST), Err(Refusal::Marked)),
        (2, SYSTEM, Ask::Space, Ok(space(376, 10, 16))),
        (1, SYSTEM, Ask::Deaccess(0), Ok(Reply::Done)),
        (1, SYSTEM, Ask::Space, Ok(space(378, 11, 16))),
        (1, SYSTEM, Ask::Read(0, 1), Err(Refusal::NoSuchAccess)),
    ];
    let mut volume = mounted(rt.alloc(), volumes::fresh(rt.alloc(), 400)?)?;
    assert_eq!(rt; first_wrong_in_list(rt.alloc(), &mut volume, &rows)?, None);
    let _ = dismounted(rt.alloc(), volume)?;
    Ok(())
}

#[test]
fn a_file_is_truncated_under_a_reader(rt: HostRuntime) -> Result<(), Fail> {
    let rows: [Row; 11] = [
        (2, SYSTEM, Ask::Create, Ok(Reply::Created(file(6, 1)))),
        (
            2,
            SYSTEM,
            Ask::Access(FIRST, Mode::Write, 0),
            Ok(Reply::Done),
        ),
        (2, SYSTEM, Ask::Extend(0, 8), Ok(Reply::Length(8))),
        (
            1,
            SYSTEM,
            Ask::Access(FIRST, Mode::Read, 0),
            Ok(Reply::Done),
        ),
        (1, SYSTEM, Ask::Read(0, 5), Ok(Reply::Done)),
        (2, SYSTEM, Ask::Truncate(0, 2), Ok(Reply::Length(2))),
        (2, SYSTEM, Ask::Create, Ok(Reply::Created(file(7, 1)))),
        (
            2,
            SYSTEM,
            Ask::Access((7, 1), Mode::Write, 1),
            Ok(Reply::Done),
        ),
        (2, SYSTEM, Ask::Extend(1, 6), Ok(Reply::Length(6))),
        // the block that was the fifth of the first file
        (2, SYSTEM, Ask::Write(1, 3), Ok(Reply::Done)),
        (1, SYSTEM, Ask::Read(0, 5), Err(Refusal::EndOfFile)),
    ];
    let mut volume = mounted(rt.alloc(), volumes::fresh(rt.alloc(), 400)?)?;
    assert_eq!(rt; first_wrong_in_list(rt.alloc(), &mut volume, &rows)?, None);
    let _ = dismounted(rt.alloc(), volume)?;
    Ok(())
}

#[test]
fn all_requests_of_all_tasks(rt: HostRuntime) -> Result<(), Fail> {
    let rows: [Row; 26] = [
        (0, SYSTEM, Ask::Create, Ok(Reply::Created(file(6, 1)))),
        (
            1,
            SYSTEM,
            Ask::Access(FIRST, Mode::Write, 3),
            Ok(Reply::Done),
        ),
        (2, SYSTEM, Ask::Enter(MASTER, X, SIX), Ok(Reply::Done)),
        (1, SYSTEM, Ask::Contiguous(3, 3), Ok(Reply::Length(3))),
        (1, SYSTEM, Ask::Truncate(3, 0), Ok(Reply::Length(0))),
        (1, SYSTEM, Ask::Extend(3, 2), Ok(Reply::Length(2))),
        (
            3,
            SYSTEM,
            Ask::Find(MASTER, X),
            Ok(Reply::Found(file(6, 1))),
        ),
        (1, SYSTEM, Ask::Write(3, 2), Ok(Reply::Done)),
        (
            4,
            SYSTEM,
            Ask::Access(FIRST, Mode::Read, 0),
            Ok(Reply::Done),
        ),
        (4, SYSTEM, Ask::Read(0, 1), Ok(Reply::Done)),
        (5, SYSTEM, Ask::SetAttr(FIRST), Ok(Reply::Done)),
        (6, SYSTEM, Ask::Delete(FIRST), Ok(Reply::Done)),
        (7, SYSTEM, Ask::Space, Ok(space(376, 10, 16))),
        (1, SYSTEM, Ask::Truncate(3, 1), Ok(Reply::Length(1))),
        (4, SYSTEM, Ask::Read(0, 2), Err(Refusal::EndOfFile)),
        (1, SYSTEM, Ask::Deaccess(3), Ok(Reply::Done)),
        (5, SYSTEM, Ask::SetAttr(FIRST), Err(Refusal::Marked)),
        (7, SYSTEM, Ask::Space, Ok(space(377, 10, 16))),
        (4, SYSTEM, Ask::Release, Ok(Reply::Done)),
        (7, SYSTEM, Ask::Space, Ok(space(378, 11, 16))),
        (3, SYSTEM, Ask::ReadEnd((4, 4), (1, 1, 96)), Ok(Reply::Done)),
        (2, SYSTEM, Ask::Remove(MASTER, X), Ok(Reply::Done)),
        (3, SYSTEM, Ask::Find(MASTER, X), Err(Refusal::NoSuchEntry)),
        (0, SYSTEM, Ask::GrowIndex(1), Ok(Reply::Slots(17))),
        (0, SYSTEM, Ask::Create, Ok(Reply::Created(file(6, 2)))),
        (
            7,
            SYSTEM,
            Ask::Access(FIRST, Mode::Read, 0),
            Err(Refusal::NoSuchFile),
        ),
    ];
    let mut volume = mounted(rt.alloc(), volumes::fresh(rt.alloc(), 400)?)?;
    assert_eq!(rt; first_wrong_in_list(rt.alloc(), &mut volume, &rows)?, None);
    let listed = dismounted(rt.alloc(), volume)?;
    // the same, asked one by one, leaves the same image
    let mut volume = mounted(rt.alloc(), volumes::fresh(rt.alloc(), 400)?)?;
    assert_eq!(rt; first_wrong(&mut volume, &rows), None);
    let asked = dismounted(rt.alloc(), volume)?;
    assert!(rt; are_alike(listed, asked)?);
    Ok(())
}
