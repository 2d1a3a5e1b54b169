//! A file of an RT-11 volume is taken out as far as it can be.
ghost use Rattle.std.specs.Prelude.{◌≡◌, IfOk, OnErr};
ghost use Rattle.f11_commands.specs.RtAll.{TakesEntry};
ghost use Rattle.f11_dev.specs.Looked.{Looked};

use crate::get::all::taking::HostFull;
use crate::rt_area::{AreaStop, first_past, write_area};
use f11_dev::Device;
use rt11_volume::RtEntry;
use std::io::Write;

/// What was taken out of a file.
#[derive(Clone, Copy)]
pub(crate) struct RtTaken {
    /// How many blocks were written.
    pub(crate) blocks: u16,
    /// The first, from 1, that lies past the device's end, or that couldn't be read.
    pub(crate) missing: Option<u64>,
    /// Whether a transfer failed.
    pub(crate) failed: bool,
}

/// Writes the blocks of a file to the host. Where a transfer fails it stops there.
///
/// # Errors
///
/// [`HostFull`] where the host takes no more: then it may hold a part.
pub(crate) fn take_out<D: Device, H: Write>(
    device: &mut D,
    entry: &RtEntry,
    host: &mut H,
) -> Result<RtTaken, HostFull>
    ensures takes { IfOk result (λ taken. TakesEntry entry.now taken
        (D.disk device.old) (D.disk device.new) H.contents host.old host.new) }
    ensures full { OnErr result
        (Looked (D.disk device.old) (D.disk device.new) entry.now.blocks 0) }
{
    let (first, blocks) = (entry.first, entry.blocks);
    match write_area(device, first, blocks, host) {
        Ok(()) => Ok(RtTaken {
            blocks,
            missing: first_past(first, blocks, device.blocks()),
            failed: false,
        }),
        Err(AreaStop::DeviceFault(place)) => Ok(RtTaken {
            blocks: place,
            missing: Some(u64::from(place) + 1),
            failed: true,
        }),
        Err(AreaStop::HostFull) => Err(HostFull),
    }
}
