//! All files of a small volume, copied to a fresh one and onto one that is there.
ghost use Rattle.std.specs.Prelude.{◌≡◌, false, IfOk};
ghost use Rattle.rt11_volume.specs.Calls.{has_failed};

use crate::rt_pack::{RtPack, begin_rt_copy};
use crate::rt_size::{RtSize, RtTooSmall};
use f11_commands::{Failure, FileAnswer, RtServed, RtState};
use f11_dev::{Device, DeviceFault, FailOnce, Memory};
use rt11_volume::{RtAccepted, RtName, RtReport, init, verify};
use std::alloc::Global;
use std::test::Fail;

/// The volume of a device, which has to be accepted.
fn accepted<D: Device + Drop>(alloc: Global, device: D) -> Result<RtAccepted<D>, DeviceFault>
    ensures { IfOk result (λ volume. has_failed volume ≡ false) }
{
    match verify(alloc, device) {
        Ok(RtReport::Accepted(volume, _)) => Ok(volume),
        _ => Err(DeviceFault),
    }
}

/// A fresh volume with one segment, whose areas begin with block 8.
fn fresh(alloc: Global, blocks: u32) -> Result<RtAccepted<Memory>, Fail> {
    match init(Memory::new(alloc, blocks)?, 1) {
        Ok(made) => Ok(accepted(alloc, made.device())?),
        Err(_) => Err(DeviceFault)?,
    }
}

/// A volume of 40 blocks with the file B.TXT, of 2 blocks, behind an empty area of 3.
fn with_a_gap(alloc: Global) -> Result<Memory, Fail> {
    let mut volume = fresh(alloc, 40)?;
    volume.create(&RtName::parse(b"A.TXT")?, 3, 77)?;
    volume.create(&RtName::parse(b"B.TXT")?, 2, 77)?;
    volume.delete(&RtName::parse(b"A.TXT")?)?;
    Ok(volume.device())
}

/// The same, of which all files are to be copied.
fn pack(alloc: Global) -> Result<RtPack<Memory>, Fail> {
    let mut none = Vec::new(alloc);
    match begin_rt_copy(alloc, with_a_gap(alloc)?, &mut none) {
        Ok(pack) => Ok(pack),
        Err(_) => Err(DeviceFault)?,
    }
}

/// All is done, and the old volume is sound.
const DONE: RtServed = RtServed {
    answer: FileAnswer::Done,
    state: RtState::Sound,
};

#[test]
fn a_pack_is_copied(rt: HostRuntime) -> Result<(), Fail> {
    let pack = pack(rt.alloc())?;
    let size = RtSize {
        blocks: 40,
        segments: 1,
    };
    assert!(rt; pack.size(None, None) == Ok(size));
    let least = RtSize {
        blocks: 10,
        segments: 1,
    };
    assert!(rt; pack.size(Some(9), None) == Err(RtTooSmall::Wants(least)));
    assert!(rt; pack.size(None, Some(32)) == Err(RtTooSmall::BadParameter));
    let mut lines = Vec::new(rt.alloc());
    let new = Memory::new(rt.alloc(), 10)?;
    let (_, new, told) = pack.copy(rt.alloc(), new, 1, &mut lines);
    assert!(rt; told == Ok(DONE));
    assert!(rt;
        lines.as_slice() == b"B.TXT copied 2\nall 1 copied, 0 not copied\naccepted\n".as_slice()
    );
    let mut volume = accepted(rt.alloc(), new)?;
    assert!(rt; volume.find(&RtName::parse(b"B.TXT")?)? == (8, 2));
    Ok(())
}

#[test]
fn a_file_that_is_there_stays(rt: HostRuntime) -> Result<(), Fail> {
    let mut there = fresh(rt.alloc(), 20)?;
    there.create(&RtName::parse(b"B.TXT")?, 1, 0)?;
    let mut lines = Vec::new(rt.alloc());
    let pack = pack(rt.alloc())?;
    let (_, new, told) = pack.copy_onto(rt.alloc(), there.device(), &mut lines);
    let refused = RtServed {
        answer: FileAnswer::Refused,
        ..DONE
    };
    assert!(rt; told == Ok(refused));
    assert!(rt;
        lines.as_slice()
            == b"B.TXT not copied DuplicateName\nall 0 copied, 1 not copied\naccepted\n".as_slice()
    );
    let mut volume = accepted(rt.alloc(), new)?;
    assert!(rt; volume.find(&RtName::parse(b"B.TXT")?)? == (8, 1));
    Ok(())
}

#[test]
fn a_fault_of_the_new_volume_is_told(rt: HostRuntime) -> Result<(), Fail> {
    let mut lines = Vec::new(rt.alloc());
    let pack = pack(rt.alloc())?;
    let new = FailOnce::new(Memory::new(rt.alloc(), 20)?, 9, false);
    let (_, _, told) = pack.copy(rt.alloc(), new, 1, &mut lines);
    assert!(rt; told == Err(Failure::DeviceFault));
    assert!(rt; lines.is_empty());
    Ok(())
}
