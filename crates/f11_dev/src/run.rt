//! Blocks that follow one another, read at once.
ghost use Rattle.std.specs.Prelude.{◌+◌, ◌<◌, ◌≤◌, length};
ghost use Rattle.f11_dev.specs.Run.{ReadsRun};

use crate::{Block, Device, DeviceFault, FailOnce, Fuse, Memory};

/// A device of which blocks that follow one another can be read at once. Unless it says otherwise they are read one after another.
pub trait ReadsRuns: Device {
    /// Reads the blocks from `lbn` on, one or more, in at most one transfer a block, which change no block. Where one fails none
    /// follows it, and `into` may hold any bytes.
    fn read_run(&mut self, lbn: u32, into: &mut [Block]) -> Result<(), DeviceFault>
        requires some { 0 < length into.old }
        requires within { lbn + length into.old ≤ length (Self.disk self.old).image }
        ensures run { ReadsRun result lbn into.new (Self.disk self.old) (Self.disk self.new) }
    {
        for i in 0..into.len() {
            match self.read(lbn + i as u32, &mut into[i]) {
                Ok(()) => {}
                Err(fault) => return Err(fault),
            }
        }
        Ok(())
    }
}

impl ReadsRuns for Memory {}

impl<D: Device> ReadsRuns for Fuse<D> {}

impl<D: Device> ReadsRuns for FailOnce<D> {}
