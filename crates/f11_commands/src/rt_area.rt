//! The blocks of an area of an RT-11 volume, faulty or not.
ghost use Rattle.std.specs.Prelude.{◌≡◌, IfErr, OnErr, OnOk};
ghost use Rattle.f11_commands.specs.RtTaking.{FailsToTakeArea, TakesArea, first_past};
ghost use Rattle.f11_dev.specs.Looked.{Looked};
ghost use Rattle.f11_reader.specs.Steps.{ReadsOrZeros};

use f11_bytes::{BLOCK_SIZE, Block};
use f11_dev::{Device, DeviceFault};
use std::fmt;
use std::io::{self, Write};

/// Why the blocks of an area aren't all written.
#[derive(Clone, Copy, Debug, PartialEq, Eq)]
pub(crate) enum AreaStop {
    /// A transfer failed behind so many blocks.
    DeviceFault(u16),
    /// The host's file takes no more.
    HostFull,
}

/// An error of the host's file.
impl From<io::Error> for AreaStop {
    ghost use Rattle.f11_commands.specs.declared.rt_area.AreaStop.TheVariants.{HostFull as Full};

    ghost from_gives = { λ _ stop. stop ≡ Full };

    fn from(_: io::Error) -> Self {
        AreaStop::HostFull
    }
}

/// Which block of an area is the first that lies past the device's end, if there is one.
#[derive(Clone, Copy)]
pub(crate) struct ShownBreak(pub(crate) Option<u64>);

impl fmt::Display for ShownBreak {
    ghost use Rattle.std.specs.Prelude.{Some};
    ghost use Rattle.f11_commands.specs.RtTaking.{broken_text};

    ghost output = { λ broken. Some (broken_text broken.0) };

    fn fmt<W: fmt::Write>(&self, f: &mut fmt::Formatter<W>) -> fmt::Result {
        match self.0 {
            Some(place) => write!(f, " broke off at block {place}"),
            None => Ok(()),
        }
    }
}

/// The first block of an area, from 1, that lies past the end of a device of so many, if there is one.
pub(crate) fn first_past(first: u32, blocks: u16, size: u32) -> Option<u64>
    ensures { result ≡ first_past first blocks size }
{
    let place = u64::from(size.saturating_sub(first)) + 1;
    if place <= u64::from(blocks) {
        Some(place)
    } else {
        None
    }
}

/// Reads a block, zeros where it lies past the device's end.
pub(crate) fn read_at<D: Device>(
    device: &mut D,
    lbn: u64,
    into: &mut Block,
) -> Result<(), DeviceFault>
    ensures reads { OnOk result
        (ReadsOrZeros lbn into.new (D.disk device.old) (D.disk device.new)) }
    ensures failed { OnErr result (Looked (D.disk device.old) (D.disk device.new) 1 1) }
{
    if lbn < u64::from(device.blocks()) {
        return device.read(lbn as u32, into);
    }
    *into = [0; BLOCK_SIZE];
    Ok(())
}

/// Writes so many blocks of a device from one on to the host: zeros for those past the device's end. Behind the last one it flushes the
/// host's file. It makes at most so many transfers, and takes no memory.
pub(crate) fn write_area<D: Device, H: Write>(
    device: &mut D,
    first: u32,
    blocks: u16,
    host: &mut H,
) -> Result<(), AreaStop>
    ensures takes { OnOk result (TakesArea first blocks
        (D.disk device.old) (D.disk device.new) H.contents host.old host.new) }
    ensures failed { IfErr result (λ stop. FailsToTakeArea first blocks stop
        (D.disk device.old) (D.disk device.new) H.contents host.old host.new) }
{
    write_blocks(device, first, blocks, host)?;
    host.flush()?;
    Ok(())
}

/// Writes so many blocks of a device from one on to the host.
fn write_blocks<D: Device, H: Write>(
    device: &mut D,
    first: u32,
    blocks: u16,
    host: &mut H,
) -> Result<(), AreaStop>
    ensures takes { OnOk result (TakesArea first blocks
        (D.disk device.old) (D.disk device.new) H.contents host.old host.new) }
    ensures failed { IfErr result (λ stop. FailsToTakeArea first blocks stop
        (D.disk device.old) (D.disk device.new) H.contents host.old host.new) }
{
    let mut block = [0; BLOCK_SIZE];
    for place in 0..blocks {
        match read_at(device, u64::from(first) + u64::from(place), &mut block) {
            Ok(()) => {}
            Err(DeviceFault) => return Err(AreaStop::DeviceFault(place)),
        }
        host.write_all(&block)?;
    }
    Ok(())
}
