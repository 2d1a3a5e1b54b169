//! Volumes that are opened on devices that fail, or are found otherwise than where they were accepted.
use crate::volumes::calls::is_accepted;
use f11_dev::{Device, DeviceFault, FailOnce, Liar};
use f11_files::{Files, OpenFault};
use f11_fixtures::volumes;
use f11_vfy::{Accepted, Report, VfyError, verify};
use std::alloc::Global;
use std::test::Fail;

/// Whether damage is met where a fresh volume is opened, this block of which reads as zeros since it was accepted.
fn is_damaged(alloc: Global, lbn: u32) -> Result<bool, Fail> {
    let device = Liar::new(volumes::fresh(alloc, volumes::BLOCKS)?, lbn);
    let Ok(Report::Accepted(accepted, _)) = verify(alloc, device) else {
        return Err(DeviceFault)?;
    };
    let device = accepted.device();
    device.begin();
    match Files::open(alloc, Accepted::again(device)) {
        Ok(_) => Ok(false),
        Err(OpenFault::Damaged(_)) => Ok(true),
        Err(_) => Err(DeviceFault)?,
    }
}

#[test]
fn a_frame_that_is_lost_is_damage(rt: HostRuntime) -> Result<(), Fail> {
    for lbn in 0..volumes::BLOCKS {
        // the home block, the index bitmap, headers 1 to 4, and the control block
        let damaged = matches!(lbn, 1..=6 | 19);
        assert_eq!(rt; is_damaged(rt.alloc(), lbn)?, damaged, "{lbn}");
    }
    Ok(())
}

/// How many reads `verify` makes of a fresh volume, and `open` then.
const VERIFYING: u64 = 16;

const OPENING: u64 = 10;

/// Where a transfer of a device fails on which a fresh volume is verified and then opened.
#[derive(Clone, Copy, Debug, PartialEq, Eq)]
enum In {
    Verifying,
    Opening,
    Neither,
}

/// Where the transfer of this number fails: if it is where the volume is opened, the device comes back, and its image is accepted.
fn failing(alloc: Global, transfer: u64) -> Result<In, Fail> {
    let device = FailOnce::new(volumes::fresh(alloc, volumes::BLOCKS)?, transfer, false);
    let accepted = match verify(alloc, device) {
        Ok(Report::Accepted(accepted, _)) => accepted,
        Err(VfyError::DeviceFault(_)) => return Ok(In::Verifying),
        _ => return Err(DeviceFault)?,
    };
    match Files::open(alloc, accepted) {
        Ok(_) => Ok(In::Neither),
        Err(OpenFault::DeviceFault(device)) => {
            if !is_accepted(alloc, device.into_inner()) {
                return Err(DeviceFault)?;
            }
            Ok(In::Opening)
        }
        Err(_) => Err(DeviceFault)?,
    }
}

#[test]
fn a_read_of_opening_fails(rt: HostRuntime) -> Result<(), Fail> {
    for transfer in 1..=VERIFYING + OPENING + 1 {
        let is = if transfer <= VERIFYING {
            In::Verifying
        } else if transfer <= VERIFYING + OPENING {
            In::Opening
        } else {
            In::Neither
        };
        assert_eq!(rt; failing(rt.alloc(), transfer)?, is, "{transfer}");
    }
    Ok(())
}
