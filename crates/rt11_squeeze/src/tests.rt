//! Files that are brought together, and one that can't be.
ghost use Rattle.std.specs.Prelude.{◌≡◌, false, IfOk};
ghost use Rattle.rt11_volume.specs.Calls.{has_failed};

use crate::moving::FileToMove;
use crate::outcome::Squeezed;
use crate::squeezing::squeeze;
use crate::telling::files_told;
use f11_bytes::{Block, read_word};
use f11_dev::{Device, DeviceFault, Memory};
use rt11_volume::{RtAccepted, RtName, RtRefusal, RtReport, init, verify};
use std::alloc::Global;
use std::test::Fail;

/// The volume of a device, which has to be accepted.
fn accepted(alloc: Global, device: Memory) -> Result<RtAccepted<Memory>, DeviceFault>
    ensures { IfOk result (λ volume. has_failed volume ≡ false) }
{
    match verify(alloc, device) {
        Ok(RtReport::Accepted(volume, _)) => Ok(volume),
        _ => Err(DeviceFault),
    }
}

/// A fresh volume with one segment, whose areas begin with block 8.
fn fresh(alloc: Global, blocks: u32) -> Result<RtAccepted<Memory>, Fail> {
    match init(Memory::new(alloc, blocks)?, 1) {
        Ok(made) => Ok(accepted(alloc, made.device())?),
        Err(_) => Err(DeviceFault)?,
    }
}

/// A file as it is told, with the date 77; each block of it is filled with the first letter of its name.
fn told(text: &[u8; 5], blocks: u16, protected: bool) -> Result<FileToMove, Fail> {
    let mut scratch = *b"A.SQZ";
    scratch[0] = text[0];
    Ok(FileToMove {
        name: RtName::parse(text)?,
        scratch: RtName::parse(&scratch)?,
        blocks,
        date: 77,
        protected,
    })
}

/// The block of a file's letter.
fn block_of(letter: u8) -> Block {
    [letter; 512]
}

/// Makes a file as it is told.
fn make(volume: &mut RtAccepted<Memory>, file: &FileToMove, letter: u8) -> Result<(), RtRefusal> {
    volume.create(&file.name, file.blocks, file.date)?;
    for place in 0..file.blocks {
        volume.write(&file.name, place, &block_of(letter))?;
    }
    volume.protect(&file.name, file.protected)
}

/// Whether a file begins at a block, and has its blocks still.
fn is_there(
    volume: &mut RtAccepted<Memory>,
    file: &FileToMove,
    letter: u8,
    start: u16,
) -> Result<bool, RtRefusal> {
    let mut block = block_of(0);
    for place in 0..file.blocks {
        volume.read(&file.name, place, &mut block)?;
        if block != block_of(letter) {
            return Ok(false);
        }
    }
    Ok(volume.find(&file.name)? == (start, file.blocks))
}

/// How many areas a volume has, and how many of them are protected.
fn counts(alloc: Global, volume: &mut RtAccepted<Memory>) -> Result<(usize, usize), RtRefusal> {
    let areas = volume.list(alloc)?;
    let protected = areas.iter().filter(|a| a.protected).count();
    Ok((areas.len(), protected))
}

/// What becomes of files.
fn squeezed(
    alloc: Global,
    volume: RtAccepted<Memory>,
    files: &[FileToMove],
) -> Result<(RtAccepted<Memory>, Vec<Squeezed>), Fail> {
    let mut volume = accepted(alloc, volume.device())?;
    let outcomes = squeeze(alloc, &mut volume, files)?;
    Ok((accepted(alloc, volume.device())?, outcomes))
}

/// A volume with the files A, of 3 blocks, B, of 2, and C, of 4, of which A was deleted again.
fn with_a_gap(alloc: Global, blocks: u32) -> Result<RtAccepted<Memory>, Fail> {
    let mut volume = fresh(alloc, blocks)?;
    make(&mut volume, &told(b"A.TXT", 3, false)?, b'A')?;
    make(&mut volume, &told(b"B.TXT", 2, true)?, b'B')?;
    make(&mut volume, &told(b"C.TXT", 4, false)?, b'C')?;
    volume.delete(&RtName::parse(b"A.TXT")?)?;
    Ok(volume)
}

/// The dates of the second and third entry of the first segment, without extra words.
fn dates(device: &mut Memory) -> Result<(u16, u16), DeviceFault> {
    if device.blocks() < 7 {
        return Err(DeviceFault);
    }
    let mut block = block_of(0);
    device.read(6, &mut block)?;
    Ok((read_word(&block, 36), read_word(&block, 50)))
}

#[test]
fn files_come_together(rt: HostRuntime) -> Result<(), Fail> {
    let files = [told(b"B.TXT", 2, true)?, told(b"C.TXT", 4, false)?];
    let mut volume = with_a_gap(rt.alloc(), 60)?;
    make(&mut volume, &told(b"D.BAD", 1, false)?, b'D')?;
    let mut device = volume.device();
    let found = files_told(rt.alloc(), &mut device)?;
    assert!(rt; found.as_slice() == files.as_slice());
    let volume = accepted(rt.alloc(), device)?;
    let (mut volume, outcomes) = squeezed(rt.alloc(), volume, &found)?;
    let moved = [Squeezed::Moved, Squeezed::Moved];
    assert!(rt; outcomes.as_slice() == moved.as_slice());
    assert!(rt; is_there(&mut volume, &files[0], b'B', 9)?);
    assert!(rt; is_there(&mut volume, &files[1], b'C', 11)?);
    assert_eq!(rt; counts(rt.alloc(), &mut volume)?, (4, 1));
    assert_eq!(rt; dates(&mut volume.device())?, (77, 77));
    Ok(())
}

#[test]
fn files_without_room_stay(rt: HostRuntime) -> Result<(), Fail> {
    let files = [told(b"C.TXT", 4, false)?, told(b"B.TXT", 2, true)?];
    let mut volume = with_a_gap(rt.alloc(), 17)?;
    make(&mut volume, &told(b"B.SQZ", 0, false)?, b'S')?;
    let (mut volume, outcomes) = squeezed(rt.alloc(), volume, &files)?;
    let refused = [
        Squeezed::Refused(RtRefusal::NoSpace),
        Squeezed::Refused(RtRefusal::DuplicateName),
    ];
    assert!(rt; outcomes.as_slice() == refused.as_slice());
    assert!(rt; is_there(&mut volume, &files[0], b'C', 13)?);
    assert!(rt; is_there(&mut volume, &files[1], b'B', 11)?);
    Ok(())
}
