//! Volumes that are reclaimed, on devices that fail.
use crate::volumes::calls::is_accepted;
use f11_dev::{Device, DeviceFault, FailOnce, Fuse, Memory};
use f11_fixtures::{file, has_words, keep, linked, put_words, volumes};
use f11_vfy::{Report, VfyError, reclaim, verify};
use std::alloc::Global;
use std::test::Fail;

/// A volume of 32 blocks: header 6 is dead; 7 and 8, which 7 links to, are orphans that name blocks 22 and 23; block 24 is lost; and
/// file 9 has block 25. The storage bitmap has two bits past the volume's size.
fn idle(alloc: Global) -> Result<Memory, Fail> {
    let mut device = volumes::fresh(alloc, 32)?;
    keep(
        &mut device,
        9,
        &linked(file(7, 1), 1, file(8, 1), &[(22, 0)]),
    )?;
    keep(
        &mut device,
        10,
        &linked(file(8, 1), 2, file(0, 0), &[(23, 0)]),
    )?;
    keep(
        &mut device,
        11,
        &linked(file(9, 1), 0, file(0, 0), &[(25, 0)]),
    )?;
    put_words(&mut device, 20, &[(2, 0xfc00), (4, 0x8001)])?;
    put_words(&mut device, 2, &[(0, 0x1ff)])?;
    Ok(device)
}

/// Verifies and reclaims the volume of a device, and gives the device and whether that was done.
fn reclaimed<D: Device + Drop>(alloc: Global, device: D) -> Result<(D, bool), DeviceFault> {
    match verify(alloc, device) {
        Ok(Report::Accepted(accepted, _)) => match reclaim(alloc, accepted) {
            Ok(accepted) => Ok((accepted.device(), true)),
            Err(VfyError::DeviceFault(device)) => Ok((device, false)),
            Err(VfyError::NoMemory(_)) => Err(DeviceFault),
        },
        Err(VfyError::DeviceFault(device)) => Ok((device, false)),
        _ => Err(DeviceFault),
    }
}

/// Whether file 9 is there with its block, which isn't free, and the volume is accepted.
fn keeps_file(alloc: Global, mut device: Memory) -> Result<bool, DeviceFault> {
    let header = has_words(&mut device, 11, &[(2, 9), (4, 1), (92, 0), (104, 25)])?;
    Ok(header && is_accepted(alloc, device))
}

/// How many transfers verifying and reclaiming make.
fn transfers_of(alloc: Global) -> Result<u64, Fail> {
    let device = idle(alloc)?;
    let before = device.transfers();
    let (device, _) = reclaimed(alloc, device)?;
    Ok(device.transfers().saturating_sub(before))
}

/// How many verifying alone makes.
fn reads_of(alloc: Global) -> Result<u64, Fail> {
    let device = idle(alloc)?;
    let before = device.transfers();
    match verify(alloc, device) {
        Ok(Report::Accepted(accepted, _)) => {
            Ok(accepted.device().transfers().saturating_sub(before))
        }
        _ => Err(DeviceFault)?,
    }
}

/// Whether the file is kept where the transfers end after so many, or the next one alone fails; and whether the volume is reclaimed then.
fn stops(alloc: Global, transfers: u64, is_done: bool) -> Result<bool, Fail> {
    let (device, done) = reclaimed(alloc, Fuse::new(idle(alloc)?, transfers))?;
    let mut is_right = done == is_done && keeps_file(alloc, device.into_inner())?;
    for lands in [false, true] {
        let device = FailOnce::new(idle(alloc)?, transfers.saturating_add(1), lands);
        let (device, done) = reclaimed(alloc, device)?;
        is_right = is_right && done == is_done && keeps_file(alloc, device.into_inner())?;
    }
    Ok(is_right)
}

#[test]
fn a_transfer_of_reclaiming_fails(rt: HostRuntime) -> Result<(), Fail> {
    let all = transfers_of(rt.alloc())?;
    for k in 0..all {
        assert!(rt; stops(rt.alloc(), k, false)?, "{k}");
    }
    assert!(rt; stops(rt.alloc(), all, true)?);
    Ok(())
}

#[test]
fn a_volume_is_reclaimed(rt: HostRuntime) -> Result<(), Fail> {
    let (mut device, done) = reclaimed(rt.alloc(), idle(rt.alloc())?)?;
    assert!(rt; done);
    // slots 1 to 5 and 9, and blocks up to 21 and 25; the killed header keeps all but its number and its check word
    assert!(rt; has_words(&mut device, 2, &[(0, 0x11f)])?);
    assert!(rt; has_words(&mut device, 20, &[(2, 0xfdc0), (4, 0x8001)])?);
    assert!(rt; has_words(&mut device, 9, &[(2, 0), (4, 1), (94, 8), (104, 22)])?);
    assert!(rt; keeps_file(rt.alloc(), device)?);
    Ok(())
}

/// Reclaiming makes the reads of verifying but those of the directory's header and block, and a write for each of two orphans, three slots
/// and one block of the storage bitmap.
#[test]
fn writes_alone_follow_what_is_read(rt: HostRuntime) -> Result<(), Fail> {
    let reads = reads_of(rt.alloc())?;
    assert_eq!(rt;
        transfers_of(rt.alloc())?,
        reads.saturating_mul(2).saturating_add(4)
    );
    Ok(())
}
