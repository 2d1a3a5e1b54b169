//! Requests on devices that fail, stop, or lie.
use crate::requests::asks::{
    Ask, MASTER, Row, SIX, Words, X, attributes, first_wrong, full_directory, mounted,
};
use f11_dev::{DeviceFault, FailOnce, Fuse, Liar, Memory};
use f11_fcp::Failed;
use f11_fixtures::{SYSTEM, are_found, volumes};
use f11_store::{Attr, FileId, Mode, Refusal, Reply};
use f11_vfy::{Report, verify};
use std::alloc::Global;
use std::ops::Range;
use std::test::Fail;

/// The file that is made.
const FIRST: (u16, u16) = (6, 1);

/// Its identification.
const MADE: FileId = FileId {
    number: 6,
    sequence: 1,
    volume: 0,
};

/// Each request, as it is answered once one has failed the volume.
const LATER: [Row; 17] = [
    (1, SYSTEM, Ask::Create, Err(Refusal::VolumeFailed)),
    (
        0,
        SYSTEM,
        Ask::Access(FIRST, Mode::Read, 1),
        Err(Refusal::VolumeFailed),
    ),
    (0, SYSTEM, Ask::Deaccess(0), Err(Refusal::VolumeFailed)),
    (2, SYSTEM, Ask::Release, Err(Refusal::VolumeFailed)),
    (0, SYSTEM, Ask::Extend(0, 1), Err(Refusal::VolumeFailed)),
    (0, SYSTEM, Ask::Contiguous(0, 0), Err(Refusal::VolumeFailed)),
    (0, SYSTEM, Ask::Truncate(0, 0), Err(Refusal::VolumeFailed)),
    (3, SYSTEM, Ask::Delete(FIRST), Err(Refusal::VolumeFailed)),
    (0, SYSTEM, Ask::GrowIndex(1), Err(Refusal::VolumeFailed)),
    (0, SYSTEM, Ask::Read(0, 1), Err(Refusal::VolumeFailed)),
    (0, SYSTEM, Ask::Write(0, 0), Err(Refusal::VolumeFailed)),
    (0, SYSTEM, Ask::ReadAttr(FIRST), Err(Refusal::VolumeFailed)),
    (
        0,
        SYSTEM,
        Ask::Protect(FIRST, 0),
        Err(Refusal::VolumeFailed),
    ),
    (4, SYSTEM, Ask::Find(SIX, X), Err(Refusal::VolumeFailed)),
    (
        5,
        SYSTEM,
        Ask::Enter(MASTER, X, SIX),
        Err(Refusal::VolumeFailed),
    ),
    (
        6,
        SYSTEM,
        Ask::Remove(MASTER, X),
        Err(Refusal::VolumeFailed),
    ),
    (7, SYSTEM, Ask::Space, Err(Refusal::VolumeFailed)),
];

/// A file that is made and accessed to write.
const BEGUN: [Row; 2] = [
    (0, SYSTEM, Ask::Create, Ok(Reply::Created(MADE))),
    (
        0,
        SYSTEM,
        Ask::Access(FIRST, Mode::Write, 0),
        Ok(Reply::Done),
    ),
];

/// The file gets its first block.
const EXTENDED: [Row; 1] = [(0, SYSTEM, Ask::Extend(0, 1), Ok(Reply::Length(1)))];

/// A transfer of that fails.
const BROKEN: [Row; 1] = [(0, SYSTEM, Ask::Extend(0, 1), Err(Refusal::DeviceFault))];

/// A volume on a device of which one transfer fails: whether the requests before it are served, it and all later ones answered so, and the
/// volume accepted then.
fn fails_once(
    alloc: Global,
    device: FailOnce<Memory>,
    begun: &[Row],
    broken: &[Row],
) -> Result<bool, Fail> {
    let mut volume = mounted(alloc, device)?;
    for rows in [begun, broken, &LATER] {
        if first_wrong(&mut volume, rows).is_some() {
            return Ok(false);
        }
    }
    let Err(Failed(device)) = volume.dismount() else {
        return Ok(false);
    };
    Ok(matches!(
        verify(alloc, device.into_inner()),
        Ok(Report::Accepted(_, _))
    ))
}

#[test]
fn a_transfer_of_extending_fails(rt: HostRuntime) -> Result<(), Fail> {
    let device = volumes::fresh(rt.alloc(), 400)?;
    let made = device.transfers();
    let mut volume = mounted(rt.alloc(), device)?;
    assert_eq!(rt; first_wrong(&mut volume, &BEGUN), None);
    let begun = volume.lent().transfers().saturating_sub(made);
    assert_eq!(rt; first_wrong(&mut volume, &EXTENDED), None);
    let extended = volume.lent().transfers().saturating_sub(made);
    // the header is read for the right, and again to be changed; the bitmap block, which is kept, is written, the block made zeros, the header
    // written
    assert_eq!(rt; extended, begun.saturating_add(5));
    for transfer in begun..extended {
        for lands in [false, true] {
            let device = volumes::fresh(rt.alloc(), 400)?;
            let device = FailOnce::new(device, transfer.saturating_add(1), lands);
            let is_right = fails_once(rt.alloc(), device, &BEGUN, &BROKEN)?;
            assert!(rt; is_right, "{transfer}");
        }
    }
    Ok(())
}

/// A file with a block, which is read once: it stands in the window then.
const READ: [Row; 4] = [
    (0, SYSTEM, Ask::Create, Ok(Reply::Created(MADE))),
    (
        0,
        SYSTEM,
        Ask::Access(FIRST, Mode::Write, 0),
        Ok(Reply::Done),
    ),
    (0, SYSTEM, Ask::Extend(0, 1), Ok(Reply::Length(1))),
    (0, SYSTEM, Ask::Read(0, 1), Ok(Reply::Done)),
];

/// The transfer by that window fails.
const NOT_READ: [Row; 1] = [(0, SYSTEM, Ask::Read(0, 1), Err(Refusal::DeviceFault))];

const NOT_WRITTEN: [Row; 1] = [(0, SYSTEM, Ask::Write(0, 1), Err(Refusal::DeviceFault))];

#[test]
fn a_transfer_by_a_window_fails(rt: HostRuntime) -> Result<(), Fail> {
    let device = volumes::fresh(rt.alloc(), 400)?;
    let made = device.transfers();
    let mut volume = mounted(rt.alloc(), device)?;
    assert_eq!(rt; first_wrong(&mut volume, &READ), None);
    let begun = volume.lent().transfers().saturating_sub(made);
    for broken in [&NOT_READ, &NOT_WRITTEN] {
        let device = volumes::fresh(rt.alloc(), 400)?;
        let device = FailOnce::new(device, begun.saturating_add(1), true);
        assert!(rt; fails_once(rt.alloc(), device, &READ, broken)?);
    }
    Ok(())
}

/// N.TXT;34 is entered into a directory whose block is full of records.
const N34: Words = [22400, 0, 0, 32980, 0o34];

const ENTERED: [Row; 1] = [(0, SYSTEM, Ask::Enter(MASTER, N34, SIX), Ok(Reply::Done))];

/// A transfer of that fails.
const NOT_ENTERED: [Row; 1] = [(
    0,
    SYSTEM,
    Ask::Enter(MASTER, N34, SIX),
    Err(Refusal::DeviceFault),
)];

/// It isn't found, and the end is that of 32 records.
const ABSENT: [Row; 2] = [
    (0, SYSTEM, Ask::Find(MASTER, N34), Err(Refusal::NoSuchEntry)),
    (0, SYSTEM, Ask::ReadEnd((4, 4), (1, 2, 0)), Ok(Reply::Done)),
];

/// How many transfers a full directory's volume has when it is mounted, and when a record was entered then.
fn transfers_of_entering(alloc: Global) -> Result<(u64, u64), Fail> {
    let device = full_directory(alloc)?;
    let made = device.transfers();
    let mut volume = mounted(alloc, device)?;
    let begun = volume.lent().transfers().saturating_sub(made);
    if first_wrong(&mut volume, &ENTERED).is_some() {
        return Err(DeviceFault)?;
    }
    let entered = volume.lent().transfers().saturating_sub(made);
    Ok((begun, entered))
}

#[test]
fn a_transfer_of_entering_fails(rt: HostRuntime) -> Result<(), Fail> {
    let (begun, entered) = transfers_of_entering(rt.alloc())?;
    for transfer in begun..entered {
        for lands in [false, true] {
            let device = full_directory(rt.alloc())?;
            let device = FailOnce::new(device, transfer.saturating_add(1), lands);
            let is_right = fails_once(rt.alloc(), device, &[], &NOT_ENTERED)?;
            assert!(rt; is_right, "{transfer}");
        }
    }
    Ok(())
}

/// What the header of the master file directory says where it has 33 records.
fn thirty_three() -> Attr {
    let mut ident = [0; 46];
    ident[0..10].copy_from_slice(&[0x4e, 0xc0, 0x4e, 0xc0, 0, 0, 0x7a, 0x1a, 1, 0]);
    Attr {
        owner: SYSTEM,
        protection: 0o160000,
        characteristics: 0,
        ident,
        attr: attributes(1, 16, (2, 2, 16)),
    }
}

/// Behind so many transfers of that a block is marked used, and no header names it.
const LOST: Range<u64> = 6..8;

/// A volume on a device that stops while a record is entered: whether it is accepted then with exactly these notes, and these rows are right on it.
fn stops(
    alloc: Global,
    device: Fuse<Memory>,
    notes: &[(u8, u32, u32)],
    rows: &[Row],
) -> Result<bool, Fail> {
    let mut volume = mounted(alloc, device)?;
    let _ = first_wrong(&mut volume, &ENTERED);
    let device = match volume.dismount() {
        Ok(accepted) => accepted.device().into_inner(),
        Err(Failed(device)) => device.into_inner(),
    };
    let Ok(Report::Accepted(accepted, found)) = verify(alloc, device) else {
        return Ok(false);
    };
    if !are_found(&found, notes) {
        return Ok(false);
    }
    let mut volume = mounted(alloc, accepted.device())?;
    Ok(first_wrong(&mut volume, rows).is_none())
}

#[test]
fn interrupted_enter(rt: HostRuntime) -> Result<(), Fail> {
    let (begun, entered) = transfers_of_entering(rt.alloc())?;
    // five of them write: the bitmap, zeros, the header, the record, and the header again
    assert!(rt; entered >= begun.saturating_add(5));
    for transfer in begun..entered {
        let device = Fuse::new(full_directory(rt.alloc())?, transfer);
        // the block is lost from when the bitmap is written on, until the header names it
        let notes: &[(u8, u32, u32)] = if LOST.contains(&transfer.saturating_sub(begun)) {
            &[(1, 22, 22)]
        } else {
            &[]
        };
        assert!(rt; stops(rt.alloc(), device, notes, &ABSENT)?, "{transfer}");
    }
    let space = Reply::Space {
        free: 377,
        headers: 10,
        slots: 16,
    };
    let rows: [Row; 3] = [
        (0, SYSTEM, Ask::Find(MASTER, N34), Ok(Reply::Found(MADE))),
        (
            0,
            SYSTEM,
            Ask::ReadAttr((4, 4)),
            Ok(Reply::Attr(thirty_three())),
        ),
        (0, SYSTEM, Ask::Space, Ok(space)),
    ];
    let device = Fuse::new(full_directory(rt.alloc())?, entered);
    assert!(rt; stops(rt.alloc(), device, &[], &rows)?);
    Ok(())
}

#[test]
fn a_header_that_is_lost_is_damage(rt: HostRuntime) -> Result<(), Fail> {
    // header 6 is block 8
    let mut volume = mounted(rt.alloc(), Liar::new(volumes::fresh(rt.alloc(), 400)?, 8))?;
    assert_eq!(rt; first_wrong(&mut volume, &BEGUN), None);
    assert_eq!(rt; first_wrong(&mut volume, &EXTENDED), None);
    volume.lent().begin();
    let damaged: [Row; 1] = [(0, SYSTEM, Ask::Read(0, 1), Err(Refusal::Damaged))];
    assert_eq!(rt; first_wrong(&mut volume, &damaged), None);
    assert_eq!(rt; first_wrong(&mut volume, &LATER), None);
    assert!(rt; volume.dismount().is_err());
    Ok(())
}

#[test]
fn a_header_that_is_lost_behind_a_window_is_damage(rt: HostRuntime) -> Result<(), Fail> {
    let mut volume = mounted(rt.alloc(), Liar::new(volumes::fresh(rt.alloc(), 400)?, 8))?;
    assert_eq!(rt; first_wrong(&mut volume, &READ), None);
    volume.lent().begin();
    // the block stands in the window, and the next one doesn't
    let damaged: [Row; 2] = [
        (0, SYSTEM, Ask::Read(0, 1), Ok(Reply::Done)),
        (0, SYSTEM, Ask::Read(0, 2), Err(Refusal::Damaged)),
    ];
    assert_eq!(rt; first_wrong(&mut volume, &damaged), None);
    assert_eq!(rt; first_wrong(&mut volume, &LATER), None);
    assert!(rt; volume.dismount().is_err());
    Ok(())
}
