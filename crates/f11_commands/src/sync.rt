//! What a command wrote is kept before it says so.
ghost use Rattle.std.specs.Prelude.{◌≡◌, false, IfErr, IfOk};
ghost use Rattle.f11_dev.specs.Disk.{with_transfer};
ghost use Rattle.f11_commands.specs.Syncing.{GivesBack, is_behind_fault};

use crate::outcome::Failure;
use f11_dev::{Device, DeviceFault};

/// Waits until what was written to a device is where a machine that stops keeps it, and gives the device back.
///
/// # Errors
///
/// The device, where that failed: a transfer that failed, which changed no block.
pub fn synced<D: Device>(device: D) -> Result<D, D>
    ensures synced { IfOk result (λ d. D.disk d ≡ D.disk device) }
    ensures failed { IfErr result (λ d. D.disk d ≡ with_transfer false (D.disk device)) }
{
    let mut device = device;
    match device.sync() {
        Ok(()) => Ok(device),
        Err(DeviceFault) => Err(device),
    }
}

/// Whether nothing is to be transferred any more behind a failure.
fn is_behind_fault(failed: bool, failure: Failure) -> bool
    ensures { result ≡ is_behind_fault failed failure }
{
    failed || matches!(failure, Failure::DeviceFault)
}

/// Gives a device back behind a failure, and as which failure it is told. It is synced, unless a transfer has failed, as is known of the
/// volume (`failed`) or told by the failure: nothing is transferred then.
pub fn given_back<D: Device>(failed: bool, device: D, failure: Failure) -> (D, Failure)
    ensures gives { GivesBack (is_behind_fault failed failure) failure result.1
        (D.disk device) (D.disk result.0) }
{
    if is_behind_fault(failed, failure) {
        return (device, failure);
    }
    match synced(device) {
        Ok(device) => (device, failure),
        Err(device) => (device, Failure::DeviceFault),
    }
}
