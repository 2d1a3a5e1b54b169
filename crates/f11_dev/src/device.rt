//! The trait of block devices.
ghost use Rattle.std.specs.Prelude.{◌≡◌, ◌+◌, ◌<◌, ◌≤◌, Some, codes, length};
ghost use Rattle.f11_dev.specs.Image.{IsImage};
ghost use Rattle.f11_dev.specs.Disk.{Disk, Reads, Syncs, Writes};
ghost use Rattle.f11_dev.specs.Zeros.{WritesZeros};

use crate::Block;
use f11_bytes::zeros;
use std::error::Error;
use std::fmt;

/// A transfer failed.
#[derive(Clone, Copy, Debug, PartialEq, Eq, Hash)]
pub struct DeviceFault;

impl fmt::Display for DeviceFault {
    ghost output = { λ _. Some (codes "device fault") };

    fn fmt<W: fmt::Write>(&self, f: &mut fmt::Formatter<W>) -> fmt::Result {
        write!(f, "device fault")
    }
}

impl Error for DeviceFault {}

/// A device of blocks, numbered from 0 by their logical block number (LBN).
pub trait Device {
    /// What contracts know of the device: its image, the images at each moment, its transfers and failures,
    /// and whether it is honest.
    ghost disk: { Self → Disk };

    /// The number of blocks, which no call changes.
    fn blocks(&self) -> u32
        ensures count { result ≡ length (disk self.now).image };

    /// Reads block `lbn` in one transfer, which changes no block. After a failure `into` may hold any bytes.
    fn read(&mut self, lbn: u32, into: &mut Block) -> Result<(), DeviceFault>
        requires { lbn < length (disk self.old).image }
        ensures reads { Reads result lbn into.new (disk self.old) (disk self.new) };

    /// Writes block `lbn` in one transfer, which changes no other block. After a failure the block is the
    /// old one or the new one.
    fn write(&mut self, lbn: u32, from: &Block) -> Result<(), DeviceFault>
        requires { lbn < length (disk self.old).image }
        ensures writes { Writes result lbn from.now (disk self.old) (disk self.new) };

    /// Writes zeros to `count` blocks from `lbn` on, one after another, each in one transfer; those after a failure aren't
    /// written. Unless a device says otherwise each is a write.
    fn write_zeros(&mut self, lbn: u32, count: u32) -> Result<(), DeviceFault>
        requires { lbn + count ≤ length (disk self.old).image }
        ensures zeros { WritesZeros result lbn count (disk self.old) (disk self.new) }
    {
        let zeros = zeros();
        for k in 0..count {
            match self.write(lbn + k, &zeros) {
                Ok(()) => {}
                Err(fault) => return Err(fault),
            }
        }
        Ok(())
    }

    /// Waits until what was written is where a machine that stops keeps it. Where that succeeds it is no transfer; a failure is a
    /// transfer that failed, and changes no block. A device that keeps nothing back has nothing to wait for.
    fn sync(&mut self) -> Result<(), DeviceFault>
        ensures syncs { Syncs result (disk self.old) (disk self.new) }
    {
        Ok(())
    }

    ghost is_image: { (device : Self) → IsImage (disk device).image };
}
