//! A device that reads ahead.
ghost use Rattle.std.specs.Prelude.{◌≡◌, ℕ, ◌+◌, ◌<◌, length, IsTrue};
ghost use Rattle.f11_dev.specs.Disk.{Syncs, Writes};
ghost use Rattle.f11_dev.specs.Outcomes.{without_transfers};
ghost use Rattle.f11_read_ahead.specs.Asked.{Gives};
ghost use Rattle.f11_read_ahead.specs.Buffer.{Keeps};
ghost use Rattle.f11_read_ahead.specs.declared.buffer.TheConstants.{MOST};

use crate::buffer::Buffer;
use f11_dev::{Block, Device, DeviceFault, Outcomes, ReadsRuns};
use std::alloc::Global;
use std::mem;

/// A device around another that keeps blocks which follow one another, in two buffers: where they are read in order, it reads 2, 4, 8 and
/// so on up to 64 of them at once. A write is passed on as it comes, and what is kept follows it.
///
/// It counts the transfers through it, a block each, and not those of the device within, which may be fewer, or more, at most 65 a read: where
/// blocks can't be read at once the one that was asked is read alone.
///
/// That a device is honest is to hold as long as a block is kept: where somebody else writes it meanwhile, that may be missed.
#[derive(Drop)]
pub struct ReadAhead<D: ReadsRuns> {
    inner: D,
    /// The buffer that was used last.
    recent: Buffer,
    earlier: Buffer,
    outcomes: Outcomes,
    ghost recent_stands: { IsTrue (D.disk inner).honest → Keeps (D.disk inner).image recent },
    ghost earlier_stands: { IsTrue (D.disk inner).honest → Keeps (D.disk inner).image earlier },
}

impl<D: ReadsRuns> ReadAhead<D> {
    ghost use Rattle.f11_read_ahead.specs.ReadAhead.{
      ahead_disk,
      ahead_outcomes,
      behind_ahead,
      GivesKept,
      HasRoomIn,
      IsKeptIn,
      IsNotKeptIn,
      ReadsNew,
    };

    /// A device that keeps nothing yet, and never will where there is no memory for it.
    pub fn new(alloc: Global, inner: D) -> ReadAhead<D>
        ensures inner { behind_ahead result ≡ inner }
        ensures disk { ahead_disk D.disk result ≡ without_transfers (D.disk inner) }
        ensures empty { (lbn : ℕ) → IsNotKeptIn result lbn }
    {
        ReadAhead {
            inner,
            recent: Buffer::new(alloc),
            earlier: Buffer::new(alloc),
            outcomes: Outcomes::None,
        }
    }

    /// Gives a block: one that is kept, or one that is read then.
    fn look(&mut self, lbn: u32, into: &mut Block) -> Result<(), DeviceFault>
        requires { lbn < length (D.disk (behind_ahead self.old)).image }
        ensures gives { Gives result lbn into.new
            (D.disk (behind_ahead self.old)) (D.disk (behind_ahead self.new)) (MOST + 1) }
        ensures kept { IsKeptIn self.old lbn → GivesKept result lbn self.old self.new }
        ensures unkept { HasRoomIn self.old → IsNotKeptIn self.old lbn → ReadsNew D.disk result lbn self.old self.new }
        ensures outcomes { ahead_outcomes self.new ≡ ahead_outcomes self.old }
    {
        if self.recent.give(lbn, into) {
            return Ok(());
        }
        if self.earlier.give(lbn, into) {
            mem::swap(&mut self.recent, &mut self.earlier);
            return Ok(());
        }
        if !self.recent.is_followed_by(lbn) {
            mem::swap(&mut self.recent, &mut self.earlier);
        }
        self.recent.read(&mut self.inner, lbn, into)
    }

    /// The device within, as it is.
    pub fn into_inner(self) -> D
        ensures { result ≡ behind_ahead self }
    {
        let ReadAhead {
            inner,
            recent: _,
            earlier: _,
            outcomes: _,
        } = self;
        inner
    }
}

impl<D: ReadsRuns> Device for ReadAhead<D> {
    ghost use Rattle.f11_read_ahead.specs.ReadAhead.{ahead_disk, KeepsBoth, PassesOn, ReadsAhead, StaysKept};

    ghost disk = { ahead_disk D.disk };

    ghost is_image = { λ r. D.is_image r.inner };

    fn blocks(&self) -> u32 {
        self.inner.blocks()
    }

    fn read(&mut self, lbn: u32, into: &mut Block) -> Result<(), DeviceFault>
        requires { lbn < length (ahead_disk D.disk self.old).image }
        ensures read { ReadsAhead D.disk result lbn into.new self.old self.new }
    {
        let done = self.look(lbn, into);
        self.outcomes.add(done.is_ok());
        done
    }

    fn write(&mut self, lbn: u32, from: &Block) -> Result<(), DeviceFault>
        requires { lbn < length (ahead_disk D.disk self.old).image }
        ensures write { PassesOn D.disk (Writes result lbn from.now) self.old self.new }
        ensures stays { StaysKept result self.old self.new }
    {
        let done = self.inner.write(lbn, from);
        let passed = done.is_ok();
        self.recent.written(lbn, from, passed);
        self.earlier.written(lbn, from, passed);
        self.outcomes.add(passed);
        done
    }

    fn sync(&mut self) -> Result<(), DeviceFault>
        ensures sync { PassesOn D.disk (Syncs result) self.old self.new }
        ensures stays { KeepsBoth self.old self.new }
    {
        match self.inner.sync() {
            Ok(()) => Ok(()),
            Err(fault) => {
                self.outcomes.add(false);
                Err(fault)
            }
        }
    }
}
