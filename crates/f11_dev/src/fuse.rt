//! A device that stops.
ghost use Rattle.std.specs.Prelude.{◌≡◌, ◌<◌, ◌-◌, length, IsErr, OnOk, OnErr};
ghost use Rattle.f11_dev.specs.Disk.{Reads, Syncs, Writes};
ghost use Rattle.f11_dev.specs.Outcomes.{without_transfers};

use crate::outcomes::Outcomes;
use crate::{Block, Device, DeviceFault};

/// A device around another that passes so many transfers on, and then fails each one, and each sync, and changes nothing,
/// as where the machine stops. It counts the transfers through it.
#[derive(Drop)]
pub struct Fuse<D> {
    inner: D,
    left: u64,
    outcomes: Outcomes,
}

impl<D: Device> Fuse<D> {
    ghost use Rattle.f11_dev.specs.Fuse.{behind_fuse, passes_left, fuse_disk};

    /// A device that passes `transfers` transfers on.
    pub fn new(inner: D, transfers: u64) -> Fuse<D>
        ensures inner { behind_fuse result ≡ inner }
        ensures left { passes_left result ≡ transfers }
        ensures disk { fuse_disk D.disk result ≡ without_transfers (D.disk inner) }
    {
        Fuse {
            inner,
            left: transfers,
            outcomes: Outcomes::None,
        }
    }

    /// The device as it is.
    pub fn into_inner(self) -> D
        ensures { result ≡ behind_fuse self }
    {
        let Fuse {
            inner,
            left: _,
            outcomes: _,
        } = self;
        inner
    }
}

impl<D: Device> Device for Fuse<D> {
    ghost use Rattle.f11_dev.specs.Fuse.{behind_fuse, fuse_disk, passes_left, MeetsFuse};

    ghost disk = { fuse_disk D.disk };

    ghost is_image = { λ f. D.is_image f.inner };

    fn blocks(&self) -> u32 {
        self.inner.blocks()
    }

    fn read(&mut self, lbn: u32, into: &mut Block) -> Result<(), DeviceFault>
        requires { lbn < length (fuse_disk D.disk self.old).image }
        ensures read { MeetsFuse D.disk result (Reads result lbn into.new) self.old self.new }
    {
        let done = if self.left == 0 {
            Err(DeviceFault)
        } else {
            self.inner.read(lbn, into)
        };
        self.left = self.left.saturating_sub(1);
        self.outcomes.add(done.is_ok());
        done
    }

    fn write(&mut self, lbn: u32, from: &Block) -> Result<(), DeviceFault>
        requires { lbn < length (fuse_disk D.disk self.old).image }
        ensures write { MeetsFuse D.disk result (Writes result lbn from.now) self.old self.new }
    {
        let done = if self.left == 0 {
            Err(DeviceFault)
        } else {
            self.inner.write(lbn, from)
        };
        self.left = self.left.saturating_sub(1);
        self.outcomes.add(done.is_ok());
        done
    }

    fn sync(&mut self) -> Result<(), DeviceFault>
        ensures syncs { Syncs result (fuse_disk D.disk self.old) (fuse_disk D.disk self.new) }
        ensures blown { passes_left self.old ≡ 0 → IsErr result × (behind_fuse self.new ≡ behind_fuse self.old) }
        ensures left { passes_left self.new ≡ passes_left self.old }
    {
        let done = if self.left == 0 {
            Err(DeviceFault)
        } else {
            self.inner.sync()
        };
        if done.is_err() {
            self.outcomes.add(false);
        }
        done
    }
}
