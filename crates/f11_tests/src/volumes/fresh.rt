//! Files-11 volumes, made and verified on devices that fail.
use f11_dev::{DeviceFault, FailOnce, Fuse, Memory};
use f11_fixtures::volumes::{BLOCKS, USED, made, params};
use f11_fixtures::{has_front, has_written, memory, sevens};
use f11_vfy::{InitError, Report, VfyError, init, verify};
use std::alloc::Global;
use std::test::Fail;

/// A fresh volume, with sevens behind what it has.
fn fresh(alloc: Global) -> Result<Memory, DeviceFault> {
    made(sevens(alloc, BLOCKS)?)
}

/// The device where a write of a fresh volume failed.
fn half_made(alloc: Global, transfer: u64, lands: bool) -> Result<Memory, DeviceFault> {
    let device = FailOnce::new(sevens(alloc, BLOCKS)?, transfer, lands);
    match init(device, &params()) {
        Err(InitError::DeviceFault(device)) => Ok(device.into_inner()),
        _ => Err(DeviceFault),
    }
}

#[test]
fn a_write_of_a_fresh_volume_fails(rt: HostRuntime) -> Result<(), Fail> {
    let mut whole = fresh(rt.alloc())?;
    for failing in 0..USED {
        for (lands, written) in [(false, failing), (true, failing + 1)] {
            let mut device = half_made(rt.alloc(), u64::from(failing) + 1, lands)?;
            let is_written = has_written(&mut device, &mut whole, (0, 1, USED), written)?;
            assert!(rt; is_written, "{failing}");
        }
    }
    Ok(())
}

/// The device of zeros on which making a fresh volume stopped behind so many writes, or was done.
fn stopped(alloc: Global, writes: u64) -> Result<Memory, Fail> {
    let device = Fuse::new(memory(alloc, BLOCKS)?, writes);
    match init(device, &params()) {
        Ok(made) => Ok(made.device().into_inner()),
        Err(InitError::BadParameter(device)) => Ok(device.into_inner()),
        Err(InitError::DeviceFault(device)) => Ok(device.into_inner()),
    }
}

/// The code of a device's first fault, and 0 where the image is accepted.
fn fault_of(alloc: Global, device: Memory) -> Result<u8, DeviceFault> {
    match verify(alloc, device) {
        Ok(Report::Accepted(_, _)) => Ok(0),
        Ok(Report::Faulty(_, faults, _)) => Ok(faults.get(0).map_or(0, |fault| fault.code)),
        Err(_) => Err(DeviceFault),
    }
}

#[test]
fn a_stop_before_the_last_write_leaves_no_home_block(rt: HostRuntime) -> Result<(), Fail> {
    for writes in 0..u64::from(USED) {
        let device = stopped(rt.alloc(), writes)?;
        assert_eq!(rt; fault_of(rt.alloc(), device)?, 1, "{writes}");
    }
    let device = stopped(rt.alloc(), u64::from(USED))?;
    assert_eq!(rt; fault_of(rt.alloc(), device)?, 0);
    Ok(())
}

/// How many blocks of a fresh volume are read where it is verified.
fn reads_of_fresh(alloc: Global) -> Result<u64, DeviceFault> {
    let device = fresh(alloc)?;
    let before = device.transfers();
    match verify(alloc, device) {
        Ok(Report::Accepted(accepted, _)) => {
            Ok(accepted.device().transfers().saturating_sub(before))
        }
        _ => Err(DeviceFault),
    }
}

/// The device of a fresh volume where a transfer failed while it was verified, and `None` where it was accepted.
fn verified(alloc: Global, transfer: u64) -> Result<Option<Memory>, DeviceFault> {
    match verify(alloc, FailOnce::new(fresh(alloc)?, transfer, true)) {
        Err(VfyError::DeviceFault(device)) => Ok(Some(device.into_inner())),
        Ok(Report::Accepted(_, _)) => Ok(None),
        _ => Err(DeviceFault),
    }
}

#[test]
fn a_read_of_a_volume_fails(rt: HostRuntime) -> Result<(), Fail> {
    let mut whole = fresh(rt.alloc())?;
    let reads = reads_of_fresh(rt.alloc())?;
    // the home block, both bitmaps, five headers, the control block and the directory
    assert!(rt; reads >= 10);
    for transfer in 1..=reads {
        let mut device = verified(rt.alloc(), transfer)?.ok_or("accepted")?;
        assert!(rt; has_front(&mut device, &mut whole, USED)?, "{transfer}");
    }
    assert!(rt; verified(rt.alloc(), reads.saturating_add(1))?.is_none());
    Ok(())
}
