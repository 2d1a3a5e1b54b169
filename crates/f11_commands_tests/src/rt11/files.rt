//! Files of RT-11 volumes: made, found, read, written and deleted.
use crate::rt11::calls::{Call, Row, accepted, create, fresh, go, named};
use f11_bytes::Block;
use f11_dev::{DeviceFault, Memory};
use f11_fixtures::{SEVENS, get, has_words, put_words};
use rt11_volume::{RtAccepted, RtName, RtRefusal};
use std::alloc::Global;
use std::test::Fail;

/// The list where both files of a full volume are there, where the second alone is, and where another is in the place of the first.
const BOTH: &[u8] = b"perm A.TXT 10 3\nperm B.TXT 13 87\n";

const SECOND: &[u8] = b"empty 10 3\nperm B.TXT 13 87\n";

const OTHER: &[u8] = b"perm C.TXT 10 3\nperm B.TXT 13 87\n";

const MADE: [Row<'static>; 15] = [
    (
        "A.TXT",
        Call::Find,
        Err(RtRefusal::NoSuchFile),
        b"empty 10 90\n",
    ),
    (
        "A.TXT",
        Call::Create(3),
        Ok(()),
        b"perm A.TXT 10 3\nempty 13 87\n",
    ),
    ("B.TXT", Call::Create(87), Ok(()), BOTH),
    ("C.TXT", Call::Create(1), Err(RtRefusal::NoSpace), BOTH),
    (
        "A.TXT",
        Call::Create(1),
        Err(RtRefusal::DuplicateName),
        BOTH,
    ),
    ("A.TXT", Call::Delete, Ok(()), SECOND),
    ("A.TXT", Call::Find, Err(RtRefusal::NoSuchFile), SECOND),
    ("A.TXT", Call::Delete, Err(RtRefusal::NoSuchFile), SECOND),
    ("A.TXT", Call::Read(0), Err(RtRefusal::NoSuchFile), SECOND),
    ("A.TXT", Call::Write(0), Err(RtRefusal::NoSuchFile), SECOND),
    ("B.TXT", Call::Find, Ok(()), SECOND),
    ("C.TXT", Call::Create(4), Err(RtRefusal::NoSpace), SECOND),
    ("C.TXT", Call::Create(3), Ok(()), OTHER),
    (
        "C.TXT",
        Call::Create(0),
        Err(RtRefusal::DuplicateName),
        OTHER,
    ),
    ("A.TXT", Call::Create(0), Err(RtRefusal::NoSpace), OTHER),
];

/// The lists of a volume with a file of no blocks in front.
const FIRST_EMPTY: &[u8] = b"perm E.TXT 10 0\nperm A.TXT 10 1\nperm B.TXT 11 89\n";

const JOINED: [Row<'static>; 15] = [
    (
        "A.TXT",
        Call::Create(2),
        Ok(()),
        b"perm A.TXT 10 2\nempty 12 88\n",
    ),
    (
        "B.TXT",
        Call::Create(3),
        Ok(()),
        b"perm A.TXT 10 2\nperm B.TXT 12 3\nempty 15 85\n",
    ),
    (
        "C.TXT",
        Call::Create(4),
        Ok(()),
        b"perm A.TXT 10 2\nperm B.TXT 12 3\nperm C.TXT 15 4\nempty 19 81\n",
    ),
    (
        "D.TXT",
        Call::Create(81),
        Ok(()),
        b"perm A.TXT 10 2\nperm B.TXT 12 3\nperm C.TXT 15 4\nperm D.TXT 19 81\n",
    ),
    (
        "B.TXT",
        Call::Delete,
        Ok(()),
        b"perm A.TXT 10 2\nempty 12 3\nperm C.TXT 15 4\nperm D.TXT 19 81\n",
    ),
    (
        "C.TXT",
        Call::Delete,
        Ok(()),
        b"perm A.TXT 10 2\nempty 12 7\nperm D.TXT 19 81\n",
    ),
    (
        "A.TXT",
        Call::Delete,
        Ok(()),
        b"empty 10 9\nperm D.TXT 19 81\n",
    ),
    ("D.TXT", Call::Delete, Ok(()), b"empty 10 90\n"),
    (
        "E.TXT",
        Call::Create(0),
        Ok(()),
        b"perm E.TXT 10 0\nempty 10 90\n",
    ),
    (
        "A.TXT",
        Call::Create(1),
        Ok(()),
        b"perm E.TXT 10 0\nperm A.TXT 10 1\nempty 11 89\n",
    ),
    ("B.TXT", Call::Create(89), Ok(()), FIRST_EMPTY),
    (
        "E.TXT",
        Call::Read(0),
        Err(RtRefusal::EndOfFile),
        FIRST_EMPTY,
    ),
    (
        "E.TXT",
        Call::Delete,
        Ok(()),
        b"empty 10 0\nperm A.TXT 10 1\nperm B.TXT 11 89\n",
    ),
    (
        "B.TXT",
        Call::Delete,
        Ok(()),
        b"empty 10 0\nperm A.TXT 10 1\nempty 11 89\n",
    ),
    ("A.TXT", Call::Delete, Ok(()), b"empty 10 90\n"),
];

#[test]
fn files_are_made_and_deleted(rt: HostRuntime) -> Result<(), Fail> {
    for rows in [MADE.as_slice(), JOINED.as_slice()] {
        let volume = fresh(rt.alloc(), 100, 2, 0)?;
        let (_, wrong) = go(rt.alloc(), volume, rows)?;
        assert_eq!(rt; wrong, None);
    }
    Ok(())
}

/// Status, first word of the name, and length of the entries of a volume of many kinds.
const ENTRIES: [(u16, u16, u16); 6] = [
    (0o102000, 1600, 3),
    (0o000400, 3200, 2),
    (0o002021, 4800, 4),
    (0o101000, 0, 5),
    (0o002000, 4800, 6),
    (0o001000, 0, 70),
];

/// A volume of 100 blocks whose segment 1 has a protected file, a tentative one, a file with other bits in its status, an empty area
/// with the bit of a protected one, a second file of the same name, and an empty area.
fn of_many_kinds(alloc: Global) -> Result<RtAccepted<Memory>, Fail> {
    let mut device = fresh(alloc, 100, 2, 0)?.device();
    for (i, (status, name, length)) in ENTRIES.iter().enumerate() {
        let at = 10 + 14 * i.min(5);
        let words = [
            (at, *status),
            (at + 2, *name),
            (at + 6, 32980),
            (at + 8, *length),
            (at + 14, 0o4000),
        ];
        put_words(&mut device, 6, &words)?;
    }
    Ok(accepted(alloc, device)?)
}

/// The lists of the volume as it is, and without its first file `C.TXT`.
const ALL: &[u8] =
    b"perm A.TXT 10 3 protected\ntent 13 2\nperm C.TXT 15 4\nempty 19 5\nperm C.TXT 24 6\nempty 30 70\n";

const TWO: &[u8] =
    b"perm A.TXT 10 3 protected\ntent 13 2\nempty 15 9\nperm C.TXT 24 6\nempty 30 70\n";

const MANY_KINDS: [Row<'static>; 13] = [
    ("A.TXT", Call::Delete, Err(RtRefusal::Protected), ALL),
    ("A.TXT", Call::Find, Ok(()), ALL),
    ("A.TXT", Call::Write(2), Ok(()), ALL),
    ("A.TXT", Call::Create(1), Err(RtRefusal::DuplicateName), ALL),
    ("B.TXT", Call::Find, Err(RtRefusal::NoSuchFile), ALL),
    ("B.TXT", Call::Delete, Err(RtRefusal::NoSuchFile), ALL),
    ("C.TXT", Call::Read(4), Err(RtRefusal::EndOfFile), ALL),
    ("C.TXT", Call::Delete, Ok(()), TWO),
    ("C.TXT", Call::Read(5), Ok(()), TWO),
    (
        "B.TXT",
        Call::Create(9),
        Ok(()),
        b"perm A.TXT 10 3 protected\ntent 13 2\nperm B.TXT 15 9\nperm C.TXT 24 6\nempty 30 70\n",
    ),
    ("B.TXT", Call::Delete, Ok(()), TWO),
    (
        "C.TXT",
        Call::Delete,
        Ok(()),
        b"perm A.TXT 10 3 protected\ntent 13 2\nempty 15 85\n",
    ),
    (
        "D.TXT",
        Call::Create(10),
        Ok(()),
        b"perm A.TXT 10 3 protected\ntent 13 2\nperm D.TXT 15 10\nempty 25 75\n",
    ),
];

/// The tentative entry, the file's with no bits of the one before it, the empty one's with zeros, and the end mark.
const MANY_KINDS_LEFT: [(usize, u16); 15] = [
    (10, 0o102000),
    (24, 0o400),
    (26, 3200),
    (38, 0o2000),
    (40, 6400),
    (42, 0),
    (44, 32980),
    (46, 10),
    (48, 0),
    (50, 0),
    (52, 0o1000),
    (54, 0),
    (58, 0),
    (60, 75),
    (66, 0o4000),
];

#[test]
fn entries_of_many_kinds(rt: HostRuntime) -> Result<(), Fail> {
    let volume = of_many_kinds(rt.alloc())?;
    let (volume, wrong) = go(rt.alloc(), volume, &MANY_KINDS)?;
    assert_eq!(rt; wrong, None);
    assert!(rt; has_words(&mut volume.device(), 6, &MANY_KINDS_LEFT)?);
    Ok(())
}

/// A block of one byte.
fn block_of(byte: u8) -> Block {
    [byte; 512]
}

/// Makes each block of a file of three blocks another byte, last block first, and gives whether each is read as it was written.
fn write_and_read(volume: &mut RtAccepted<Memory>, name: &RtName) -> Result<bool, RtRefusal> {
    for (place, byte) in [(2, 3), (0, 1), (1, 2)] {
        volume.write(name, place, &block_of(byte))?;
    }
    for (place, byte) in [(0, 1), (1, 2), (2, 3)] {
        let mut block = SEVENS;
        volume.read(name, place, &mut block)?;
        if block != block_of(byte) {
            return Ok(false);
        }
    }
    Ok(true)
}

/// Whether blocks of a device have these bytes.
fn has_bytes(device: &mut Memory, bytes: &[(u32, u8)]) -> Result<bool, DeviceFault> {
    for (lbn, byte) in bytes {
        if get(device, *lbn)? != block_of(*byte) {
            return Ok(false);
        }
    }
    Ok(true)
}

#[test]
fn blocks_of_a_file(rt: HostRuntime) -> Result<(), Fail> {
    let mut volume = fresh(rt.alloc(), 100, 2, 0)?;
    for (name, length) in [("A.TXT", 2), ("B.TXT", 3), ("C.TXT", 85)] {
        create(&mut volume, &named(name)?, length, 0)?;
    }
    let name = named("B.TXT")?;
    assert!(rt; write_and_read(&mut volume, &name)?);
    let end = Err(RtRefusal::EndOfFile);
    for place in [3, 4, 87, u16::MAX] {
        for call in [Call::Write(place), Call::Read(place)] {
            let done = call.make(rt.alloc(), &mut volume, &name);
            assert_eq!(rt; done, end, "{call:?}");
        }
    }
    let mut device = volume.device();
    let bytes = [
        (10, 0),
        (11, 0),
        (12, 1),
        (13, 2),
        (14, 3),
        (15, 0),
        (99, 0),
    ];
    assert!(rt; has_bytes(&mut device, &bytes)?);
    Ok(())
}
