//! A device that lies.
ghost use Rattle.std.specs.Prelude.{◌≡◌, ◌≢◌, ◌⊎◌, ◌<◌, false, length, IsTrue, OnOk};
ghost use Rattle.f11_bytes.specs.Block.{zero_block};
ghost use Rattle.f11_dev.specs.Disk.{Reads, Syncs, Writes};

use crate::{Block, Device, DeviceFault};
use f11_bytes::zeros;
use std::cell::Cell;

/// A device around another that lies about one block once [`Liar::begin`] was called: reads of it give zeros.
/// It isn't honest.
///
/// No contract can say what a cell holds: that the cell is true from `begin` on and no earlier is tested. What a read does
/// by what it finds there is proved.
#[derive(Drop)]
pub struct Liar<D> {
    inner: D,
    lbn: u32,
    begun: Cell<bool>,
}

impl<D: Device> Liar<D> {
    ghost use Rattle.f11_dev.specs.Liar.{behind_liar, lies_at, ReadsAsLiar, ReadsTruth};

    /// A device that is to lie about block `lbn`.
    pub fn new(inner: D, lbn: u32) -> Liar<D>
        ensures inner { behind_liar result ≡ inner }
        ensures lbn { lies_at result ≡ lbn }
    {
        Liar {
            inner,
            lbn,
            begun: Cell::new(false),
        }
    }

    /// From now on reads of the block give zeros.
    pub fn begin(&self) {
        self.begun.set(true);
    }

    /// Reads a block as a device whose lies have begun, or not.
    fn read_having(&mut self, begun: bool, lbn: u32, into: &mut Block) -> Result<(), DeviceFault>
        requires { lbn < length (D.disk (behind_liar self.old)).image }
        ensures reads { ReadsAsLiar D.disk result lbn into.new self.old self.new }
        ensures truth { begun ≡ false → ReadsTruth D.disk result lbn into.new self.old self.new }
        ensures lies { IsTrue begun → lbn ≡ lies_at self.old → OnOk result (into.new ≡ zero_block) }
    {
        self.inner.read(lbn, into)?;
        if begun && lbn == self.lbn {
            *into = zeros();
        }
        Ok(())
    }

    /// The device as it is.
    pub fn into_inner(self) -> D
        ensures { result ≡ behind_liar self }
    {
        let Liar {
            inner,
            lbn: _,
            begun: _,
        } = self;
        inner
    }
}

impl<D: Device> Device for Liar<D> {
    ghost use Rattle.f11_dev.specs.Liar.{behind_liar, liar_disk, ReadsAsLiar, WritesAsLiar};

    ghost disk = { liar_disk D.disk };

    ghost is_image = { λ l. D.is_image l.inner };

    fn blocks(&self) -> u32 {
        self.inner.blocks()
    }

    fn read(&mut self, lbn: u32, into: &mut Block) -> Result<(), DeviceFault>
        requires { lbn < length (liar_disk D.disk self.old).image }
        ensures read { ReadsAsLiar D.disk result lbn into.new self.old self.new }
    {
        let begun = self.begun.get();
        self.read_having(begun, lbn, into)
    }

    fn write(&mut self, lbn: u32, from: &Block) -> Result<(), DeviceFault>
        requires { lbn < length (liar_disk D.disk self.old).image }
        ensures write { WritesAsLiar D.disk result lbn from.now self.old self.new }
    {
        self.inner.write(lbn, from)
    }

    fn sync(&mut self) -> Result<(), DeviceFault>
        ensures syncs { Syncs result (liar_disk D.disk self.old) (liar_disk D.disk self.new) }
        ensures passes { Syncs result (D.disk (behind_liar self.old)) (D.disk (behind_liar self.new)) }
    {
        self.inner.sync()
    }
}
