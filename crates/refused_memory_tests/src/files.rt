//! The files of a Files-11 volume, and its index file.
use crate::volumes::verified;
use f11_commands::f11_files::{Files, OpenFault};
use f11_dev::{Device, DeviceFault, Memory};
use f11_fixtures::volumes;
use f11_store::Refusal;
use f11_vfy::{Accepted, Report};
use std::alloc::Global;
use std::test::Fail;

/// Opens an accepted volume.
fn open<D: Device>(alloc: Global, accepted: Accepted<D>) -> Result<Files<D>, OpenFault<D>> {
    Files::open(alloc, accepted)
}

/// Opens an accepted volume, once more where there was no memory.
pub fn opened(
    alloc: Global,
    accepted: Accepted<Memory>,
) -> Result<Files<Memory>, OpenFault<Memory>> {
    match open(alloc, accepted) {
        Err(OpenFault::NoMemory(accepted)) => open(alloc, accepted),
        done => done,
    }
}

/// Two slots more.
fn grow(files: &mut Files<Memory>) -> Result<u32, Refusal> {
    files.grow_index(2)
}

/// Two slots more, asked for once more where there was no memory and all is as before.
fn grown(files: &mut Files<Memory>) -> Result<u32, Refusal> {
    let before = files.space();
    match grow(files) {
        Err(Refusal::NoMemory) if !files.failed() && files.space() == before => grow(files),
        answer => answer,
    }
}

#[test]
fn slots_are_added(rt: HostRuntime) -> Result<(), Fail> {
    let device = volumes::fresh(rt.alloc(), volumes::BLOCKS)?;
    let Ok(Report::Accepted(accepted, _)) = verified(rt.alloc(), device) else {
        return Err(DeviceFault)?;
    };
    let Ok(mut files) = opened(rt.alloc(), accepted) else {
        return Err(DeviceFault)?;
    };
    assert_eq!(rt; grown(&mut files), Ok(18));
    assert_eq!(rt; files.space(), (0, 13, 18));
    let Ok(Report::Accepted(_, _)) = verified(rt.alloc(), files.abandon()) else {
        return Err(DeviceFault)?;
    };
    Ok(())
}
