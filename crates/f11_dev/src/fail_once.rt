//! A device of which one transfer fails.
ghost use Rattle.std.specs.Prelude.{◌≡◌, ◌≢◌, ◌<◌, ◌-◌, length, true, false, IsErr, OnOk, OnErr, Result};
ghost use Rattle.f11_dev.specs.Disk.{Reads, Syncs, Writes};
ghost use Rattle.f11_dev.specs.Outcomes.{without_transfers};

use crate::outcomes::Outcomes;
use crate::{Block, Device, DeviceFault};

/// A device around another of which one transfer fails, or a sync in its place, and each other one is passed on. It counts the
/// transfers through it.
#[derive(Drop)]
pub struct FailOnce<D> {
    inner: D,
    /// Which transfer from now on fails, from 1; 0 where none does any more.
    fails_at: u64,
    lands: bool,
    outcomes: Outcomes,
}

impl<D: Device> FailOnce<D> {
    ghost use Rattle.f11_dev.specs.FailOnce.{behind_fail_once, fails_at, is_landing, fail_once_disk, fail_once_outcomes, FailsOnWrite};

    /// A device whose transfer number `transfer`, from 1, fails; where it is a write, it replaces its block if
    /// `lands` is true, and changes nothing otherwise.
    pub fn new(inner: D, transfer: u64, lands: bool) -> FailOnce<D>
        ensures inner { behind_fail_once result ≡ inner }
        ensures fails_at { fails_at result ≡ transfer }
        ensures lands { is_landing result ≡ lands }
        ensures disk { fail_once_disk D.disk result ≡ without_transfers (D.disk inner) }
    {
        FailOnce {
            inner,
            fails_at: transfer,
            lands,
            outcomes: Outcomes::None,
        }
    }

    /// The write that fails.
    fn fail_to_write(&mut self, lbn: u32, from: &Block) -> Result<(), DeviceFault>
        requires { lbn < length (D.disk (behind_fail_once self.old)).image }
        ensures fails { IsErr result }
        ensures writes { FailsOnWrite D.disk lbn from.now self.old self.new }
        ensures next { fails_at self.new ≡ fails_at self.old }
        ensures landing { is_landing self.new ≡ is_landing self.old }
        ensures outcomes { fail_once_outcomes self.new ≡ fail_once_outcomes self.old }
    {
        if self.lands {
            let _ = self.inner.write(lbn, from);
        }
        Err(DeviceFault)
    }

    /// The device as it is.
    pub fn into_inner(self) -> D
        ensures { result ≡ behind_fail_once self }
    {
        let FailOnce {
            inner,
            fails_at: _,
            lands: _,
            outcomes: _,
        } = self;
        inner
    }
}

impl<D: Device> Device for FailOnce<D> {
    ghost use Rattle.f11_dev.specs.FailOnce.{fails_at, fail_once_disk, FailsOnRead, FailsOnWrite, MeetsFailOnce};

    ghost disk = { fail_once_disk D.disk };

    ghost is_image = { λ f. D.is_image f.inner };

    fn blocks(&self) -> u32 {
        self.inner.blocks()
    }

    fn read(&mut self, lbn: u32, into: &mut Block) -> Result<(), DeviceFault>
        requires { lbn < length (fail_once_disk D.disk self.old).image }
        ensures read { MeetsFailOnce D.disk result (Reads result lbn into.new) self.old self.new }
        ensures fails { fails_at self.old ≡ 1 → FailsOnRead self.old self.new }
    {
        let done = if self.fails_at == 1 {
            Err(DeviceFault)
        } else {
            self.inner.read(lbn, into)
        };
        self.fails_at = self.fails_at.saturating_sub(1);
        self.outcomes.add(done.is_ok());
        done
    }

    fn write(&mut self, lbn: u32, from: &Block) -> Result<(), DeviceFault>
        requires { lbn < length (fail_once_disk D.disk self.old).image }
        ensures write { MeetsFailOnce D.disk result (Writes result lbn from.now) self.old self.new }
        ensures fails { fails_at self.old ≡ 1 → FailsOnWrite D.disk lbn from.now self.old self.new }
    {
        let done = if self.fails_at == 1 {
            self.fail_to_write(lbn, from)
        } else {
            self.inner.write(lbn, from)
        };
        self.fails_at = self.fails_at.saturating_sub(1);
        self.outcomes.add(done.is_ok());
        done
    }

    fn sync(&mut self) -> Result<(), DeviceFault>
        ensures syncs { Syncs result (fail_once_disk D.disk self.old) (fail_once_disk D.disk self.new) }
        ensures fails { fails_at self.old ≡ 1 → IsErr result × FailsOnRead self.old self.new }
    {
        if self.fails_at == 1 {
            self.fails_at = 0;
            self.outcomes.add(false);
            return Err(DeviceFault);
        }
        match self.inner.sync() {
            Ok(()) => Ok(()),
            Err(fault) => {
                self.outcomes.add(false);
                Err(fault)
            }
        }
    }
}
