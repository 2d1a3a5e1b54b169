//! Files that are copied, and some that aren't.
ghost use Rattle.std.specs.Prelude.{◌≡◌, ◌≤◌, false, IfOk};
ghost use Rattle.rt11_volume.specs.Calls.{has_failed};

use crate::copies::copy_all;
use crate::copying::copy_file;
use crate::fitting::{RtNeed, blocks_for, need_of, will_fit};
use crate::outcome::{RtCopied, RtUncopied};
use f11_bytes::Block;
use f11_dev::{Device, DeviceFault, FailOnce, Memory};
use rt11_squeeze::read_date;
use rt11_volume::{
    RtAccepted, RtEntries, RtEntry, RtKind, RtName, RtRefusal, RtReport, RtSurvey, init, survey,
    verify,
};
use std::alloc::Global;
use std::test::Fail;

/// The volume of a device, which has to be accepted.
fn accepted<D: Device + Drop>(alloc: Global, device: D) -> Result<RtAccepted<D>, DeviceFault>
    ensures { IfOk result (λ volume. has_failed volume ≡ false) }
{
    match verify(alloc, device) {
        Ok(RtReport::Accepted(volume, _)) => Ok(volume),
        _ => Err(DeviceFault),
    }
}

/// A fresh volume with one segment, whose areas begin with block 8.
fn fresh(alloc: Global, blocks: u32) -> Result<RtAccepted<Memory>, Fail> {
    match init(Memory::new(alloc, blocks)?, 1) {
        Ok(made) => Ok(accepted(alloc, made.device())?),
        Err(_) => Err(DeviceFault)?,
    }
}

/// The entries of a volume's directory.
fn entries_of<D: Device>(alloc: Global, device: &mut D) -> Result<RtEntries, DeviceFault> {
    match survey(alloc, device) {
        Ok(RtSurvey::Read(_, entries)) => Ok(entries),
        _ => Err(DeviceFault),
    }
}

/// The block of a file's letter.
fn block_of(letter: u8) -> Block {
    [letter; 512]
}

/// Makes a file with the date 77, whose blocks are filled with the first letter of its name.
fn make(
    volume: &mut RtAccepted<Memory>,
    text: &[u8; 5],
    blocks: u16,
    protected: bool,
) -> Result<(), Fail> {
    let name = RtName::parse(text)?;
    volume.create(&name, blocks, 77)?;
    for place in 0..blocks {
        volume.write(&name, place, &block_of(text[0]))?;
    }
    volume.protect(&name, protected)?;
    Ok(())
}

/// A volume of so many blocks with the files B, of 2 blocks and protected, and C, of 4, behind an empty area of 3.
fn with_a_gap(alloc: Global, blocks: u32) -> Result<Memory, Fail> {
    let mut volume = fresh(alloc, blocks)?;
    make(&mut volume, b"A.TXT", 3, false)?;
    make(&mut volume, b"B.TXT", 2, true)?;
    make(&mut volume, b"C.TXT", 4, false)?;
    volume.delete(&RtName::parse(b"A.TXT")?)?;
    Ok(volume.device())
}

/// Whether a file begins at a block, has so many, and all are filled with the first letter of its name.
fn is_there(
    volume: &mut RtAccepted<Memory>,
    text: &[u8; 5],
    start: u16,
    blocks: u16,
) -> Result<bool, Fail> {
    let name = RtName::parse(text)?;
    let mut block = block_of(0);
    for place in 0..blocks {
        volume.read(&name, place, &mut block)?;
        if block != block_of(text[0]) {
            return Ok(false);
        }
    }
    Ok(volume.find(&name)? == (start, blocks))
}

/// What becomes of entries that are copied to a volume.
fn copied<D: Device>(
    alloc: Global,
    from: &mut D,
    entries: &[RtEntry],
    volume: RtAccepted<Memory>,
) -> Result<(RtAccepted<Memory>, Vec<RtCopied>), Fail> {
    let mut volume = accepted(alloc, volume.device())?;
    let outcomes = copy_all(alloc, from, entries, &mut volume)?;
    Ok((accepted(alloc, volume.device())?, outcomes))
}

/// That an entry isn't copied.
fn not_copied(why: RtUncopied) -> RtCopied {
    RtCopied::NotCopied(why)
}

#[test]
fn files_lie_together(rt: HostRuntime) -> Result<(), Fail> {
    let mut from = with_a_gap(rt.alloc(), 60)?;
    let entries = entries_of(rt.alloc(), &mut from)?;
    let (mut volume, outcomes) = copied(
        rt.alloc(),
        &mut from,
        entries.as_slice(),
        fresh(rt.alloc(), 20)?,
    )?;
    let none = not_copied(RtUncopied::NoFile);
    let became = [none, RtCopied::Copied, RtCopied::Copied, none];
    assert!(rt; outcomes.as_slice() == became.as_slice());
    assert!(rt; is_there(&mut volume, b"B.TXT", 8, 2)?);
    assert!(rt; is_there(&mut volume, b"C.TXT", 10, 4)?);
    let mut device = volume.device();
    let made = entries_of(rt.alloc(), &mut device)?;
    let protected = made.as_slice().iter().filter(|e| e.protected).count();
    assert_eq!(rt; protected, 1);
    match made.as_slice().get(1) {
        Some(entry) => assert_eq!(rt; read_date(&mut device, entry)?, 77),
        None => Err(DeviceFault)?,
    }
    Ok(())
}

/// Entries of B and C that can't be copied, one after another, and what is told of them.
fn barred(entry: RtEntry) -> ([RtEntry; 5], [RtCopied; 5]) {
    let mut entries = [entry; 5];
    entries[0].kind = None;
    entries[1].kind = Some(RtKind::Tentative);
    entries[2].name = None;
    entries[3].first = 59;
    entries[4].first = 65534;
    let outcomes = [
        not_copied(RtUncopied::StatusWrong),
        not_copied(RtUncopied::NoFile),
        not_copied(RtUncopied::NoName),
        not_copied(RtUncopied::PastEnd),
        not_copied(RtUncopied::PastEnd),
    ];
    (entries, outcomes)
}

#[test]
fn some_entries_tell_no_file(rt: HostRuntime) -> Result<(), Fail> {
    let mut from = with_a_gap(rt.alloc(), 60)?;
    let all = entries_of(rt.alloc(), &mut from)?;
    let entry = all.find(&RtName::parse(b"B.TXT")?).expect(&rt, "no file");
    let (entries, became) = barred(entry);
    let before = from.transfers();
    let (_, outcomes) = copied(rt.alloc(), &mut from, &entries, fresh(rt.alloc(), 20)?)?;
    assert!(rt; outcomes.as_slice() == became.as_slice());
    assert_eq!(rt; from.transfers(), before);
    Ok(())
}

#[test]
fn one_refusal_ends_nothing(rt: HostRuntime) -> Result<(), Fail> {
    let mut from = with_a_gap(rt.alloc(), 60)?;
    let entries = entries_of(rt.alloc(), &mut from)?;
    let mut to = fresh(rt.alloc(), 12)?;
    make(&mut to, b"X.TXT", 1, false)?;
    let mut broken = FailOnce::new(from, 3, false);
    let (to, outcomes) = copied(rt.alloc(), &mut broken, entries.as_slice(), to)?;
    let none = not_copied(RtUncopied::NoFile);
    let unread = not_copied(RtUncopied::Unreadable);
    let full = not_copied(RtUncopied::Refused(RtRefusal::NoSpace));
    assert!(rt; outcomes.as_slice() == [none, unread, full, none].as_slice());
    let (to, outcomes) = copied(rt.alloc(), &mut broken, entries.as_slice(), to)?;
    assert!(rt; outcomes.as_slice() == [none, RtCopied::Copied, full, none].as_slice());
    let (mut to, outcomes) = copied(rt.alloc(), &mut broken, entries.as_slice(), to)?;
    let there = not_copied(RtUncopied::Refused(RtRefusal::DuplicateName));
    assert!(rt; outcomes.as_slice() == [none, there, full, none].as_slice());
    assert!(rt; is_there(&mut to, b"X.TXT", 8, 1)?);
    assert!(rt; is_there(&mut to, b"B.TXT", 9, 2)?);
    Ok(())
}

#[test]
fn one_file_is_copied(rt: HostRuntime) -> Result<(), Fail> {
    let mut from = with_a_gap(rt.alloc(), 60)?;
    let all = entries_of(rt.alloc(), &mut from)?;
    let entry = all.find(&RtName::parse(b"C.TXT")?).expect(&rt, "no file");
    let to = fresh(rt.alloc(), 20)?;
    let mut to = accepted(rt.alloc(), to.device())?;
    assert!(rt; copy_file(rt.alloc(), &mut from, &entry, &mut to) == Ok(()));
    assert!(rt; is_there(&mut to, b"C.TXT", 8, 4)?);
    Ok(())
}

#[test]
fn a_fault_of_the_volume_ends_all(rt: HostRuntime) -> Result<(), Fail> {
    let mut from = with_a_gap(rt.alloc(), 60)?;
    let entries = entries_of(rt.alloc(), &mut from)?;
    let to = FailOnce::new(fresh(rt.alloc(), 20)?.device(), 7, false);
    let mut to = accepted(rt.alloc(), to)?;
    let told = copy_all(rt.alloc(), &mut from, entries.as_slice(), &mut to);
    assert!(rt; matches!(told, Err(RtRefusal::DeviceFault)));
    Ok(())
}

/// An entry of a file of no block, whose name is the letter and a second one, each from 1.
fn named(entry: RtEntry, letter: u16, second: u16) -> RtEntry
    requires letter { letter ≤ 26 }
    requires second { second ≤ 26 }
{
    RtEntry {
        name: RtName::from_words([1600 * letter + 40 * second, 0, 0]),
        blocks: 0,
        ..entry
    }
}

#[test]
fn a_full_directory_is_foretold(rt: HostRuntime) -> Result<(), Fail> {
    let mut from = with_a_gap(rt.alloc(), 60)?;
    let all = entries_of(rt.alloc(), &mut from)?;
    let entry = all.find(&RtName::parse(b"B.TXT")?).expect(&rt, "no file");
    let mut entries = [entry; 71];
    for i in 0..71u16 {
        entries[usize::from(i)] = named(entry, i / 26 + 1, i % 26 + 1);
    }
    let need = need_of(from.blocks(), &entries);
    assert!(rt;
        need == RtNeed {
            files: 71,
            blocks: 1
        }
    );
    assert!(rt; blocks_for(&need, 1).is_none());
    assert!(rt; will_fit(&need_of(from.blocks(), &entries[..70]), 1, 9));
    let (_, outcomes) = copied(rt.alloc(), &mut from, &entries, fresh(rt.alloc(), 9)?)?;
    let made = outcomes.iter().filter(|o| **o == RtCopied::Copied).count();
    assert_eq!(rt; made, 70);
    Ok(())
}

#[test]
fn blocks_are_foretold(rt: HostRuntime) -> Result<(), Fail> {
    let mut from = with_a_gap(rt.alloc(), 60)?;
    let entries = entries_of(rt.alloc(), &mut from)?;
    let need = need_of(from.blocks(), entries.as_slice());
    assert!(rt;
        need == RtNeed {
            files: 2,
            blocks: 6
        }
    );
    assert_eq!(rt; blocks_for(&need, 1).unwrap_or(0), 14);
    assert!(rt; will_fit(&need, 1, 14));
    assert!(rt; !will_fit(&need, 1, 13));
    let none = RtNeed {
        files: 0,
        blocks: 0,
    };
    assert_eq!(rt; blocks_for(&none, 31).unwrap_or(0), 69);
    Ok(())
}
