//! RT-11 volumes, made and verified on devices that fail.
use f11_dev::{DeviceFault, FailOnce, Fuse, Memory};
use f11_fixtures::rt_volumes::{BLOCKS, DIRECTORY, SEGMENTS, fill, made};
use f11_fixtures::{has_front, has_written, memory, sevens};
use rt11_volume::{RtInitError, RtReport, RtVfyError, init, verify};
use std::alloc::Global;
use std::test::Fail;

/// A fresh volume, with sevens behind what it has.
fn fresh(alloc: Global) -> Result<Memory, DeviceFault> {
    made(sevens(alloc, BLOCKS)?)
}

/// A volume whose segments are all in use.
fn filled(alloc: Global) -> Result<Memory, DeviceFault> {
    let mut device = fresh(alloc)?;
    fill(&mut device)?;
    Ok(device)
}

/// The device where a write of a fresh volume failed.
fn half_made(alloc: Global, transfer: u64, lands: bool) -> Result<Memory, DeviceFault> {
    let device = FailOnce::new(sevens(alloc, BLOCKS)?, transfer, lands);
    match init(device, SEGMENTS) {
        Err(RtInitError::DeviceFault(device)) => Ok(device.into_inner()),
        _ => Err(DeviceFault),
    }
}

#[test]
fn a_write_of_a_fresh_volume_fails(rt: HostRuntime) -> Result<(), Fail> {
    let mut whole = fresh(rt.alloc())?;
    for failing in 0..DIRECTORY {
        for (lands, written) in [(false, failing), (true, failing + 1)] {
            let mut device = half_made(rt.alloc(), u64::from(failing) + 1, lands)?;
            let blocks = (6, 6, 6 + DIRECTORY);
            let is_written = has_written(&mut device, &mut whole, blocks, written)?;
            assert!(rt; is_written, "{failing}");
        }
    }
    Ok(())
}

/// The device of zeros on which making a fresh volume stopped behind so many writes, or was done.
fn stopped(alloc: Global, writes: u64) -> Result<Memory, Fail> {
    let device = Fuse::new(memory(alloc, BLOCKS)?, writes);
    match init(device, SEGMENTS) {
        Ok(made) => Ok(made.device().into_inner()),
        Err(RtInitError::BadParameter(device)) => Ok(device.into_inner()),
        Err(RtInitError::DeviceFault(device)) => Ok(device.into_inner()),
    }
}

/// The code of a device's first fault, and 0 where the image is accepted.
fn fault_of(alloc: Global, device: Memory) -> Result<u8, DeviceFault> {
    match verify(alloc, device) {
        Ok(RtReport::Accepted(_, _)) => Ok(0),
        Ok(RtReport::Faulty(_, faults, _)) => Ok(faults.get(0).map_or(0, |fault| fault.code)),
        Err(_) => Err(DeviceFault),
    }
}

#[test]
fn a_stop_before_the_last_write_leaves_a_wrong_size(rt: HostRuntime) -> Result<(), Fail> {
    for writes in 0..u64::from(DIRECTORY) {
        let device = stopped(rt.alloc(), writes)?;
        assert_eq!(rt; fault_of(rt.alloc(), device)?, 1, "{writes}");
    }
    let device = stopped(rt.alloc(), u64::from(DIRECTORY))?;
    assert_eq!(rt; fault_of(rt.alloc(), device)?, 0);
    Ok(())
}

/// The device of a volume where a transfer failed while it was verified, and `None` where it was accepted.
fn verified(alloc: Global, transfer: u64) -> Result<Option<Memory>, DeviceFault> {
    match verify(alloc, FailOnce::new(filled(alloc)?, transfer, true)) {
        Err(RtVfyError::DeviceFault(device)) => Ok(Some(device.into_inner())),
        Ok(RtReport::Accepted(_, _)) => Ok(None),
        _ => Err(DeviceFault),
    }
}

#[test]
fn a_read_of_a_volume_fails(rt: HostRuntime) -> Result<(), Fail> {
    let mut whole = filled(rt.alloc())?;
    for transfer in 1..=u64::from(DIRECTORY) {
        let mut device = verified(rt.alloc(), transfer)?.ok_or("accepted")?;
        let is_front = has_front(&mut device, &mut whole, BLOCKS)?;
        assert!(rt; is_front, "{transfer}");
    }
    assert!(rt; verified(rt.alloc(), u64::from(DIRECTORY) + 1)?.is_none());
    Ok(())
}
