//! A floppy in memory.
ghost use Rattle.std.specs.Prelude.{◌≡◌, ◌<◌, ◌≤◌, IfOk, IsOk, OnErr, length};
ghost use Rattle.f11_dev.specs.Disk.{Reads, Writes};
ghost use Rattle.f11_dev.specs.Image.{IsImage};
ghost use Rattle.f11_floppies.specs.Arrange.{logical_image, IsSameOutside};
ghost use Rattle.f11_floppies.specs.Order.{image_size, order_of_blocks};

use crate::arrange::whole;
use crate::moments::Moments;
use crate::{Order, block_of, put_block};
use f11_dev::{Block, Device, DeviceFault, NoMemory, Outcomes, ReadsRuns};
use std::snapshot::Snapshot;

/// A device in memory over the bytes of an image in sector order: its blocks are in logical order. It is honest, and no read or write of
/// it fails. A block is up to four sectors, so a file that holds such an image is written anew as a whole: [`Floppy::into_bytes`].
#[derive(Drop)]
pub struct Floppy {
    order: Order,
    bytes: Vec<u8>,
    outcomes: Outcomes,
    moments: Moments,
    /// The bytes as they were when the floppy was made; only clauses read it.
    made: Snapshot<Vec<u8>>,
    ghost whole: { image_size order ≤ length bytes.items },
    ghost is_image: { IsImage (logical_image order bytes.items) },
    ghost outside: { IsSameOutside order made.value.items bytes.items },
}

impl Floppy {
    ghost use Rattle.f11_floppies.specs.Floppy.{floppy_disk, made_of, order_of, IsMade};

    /// A floppy of the bytes of an image in such an order. Zeros are put behind fewer bytes than a whole image has, which takes memory, and
    /// alone fails; bytes behind a whole image are kept as they are.
    pub fn new(order: Order, bytes: Vec<u8>) -> Result<Floppy, NoMemory>
        ensures made { IfOk result (IsMade order bytes.items) }
        ensures short { OnErr result (length bytes.items < image_size order) }
    {
        let bytes = whole(order, bytes)?;
        let made = Snapshot::of(&bytes);
        Ok(Floppy {
            order,
            bytes,
            outcomes: Outcomes::None,
            moments: Moments::Nothing,
            made,
        })
    }

    /// The bytes of the image, in sector order. Its blocks are those of the disk that the floppy was, and all other bytes are those that it
    /// was made of. How many blocks there are tells the order.
    pub fn into_bytes(self) -> Vec<u8>
        ensures image { logical_image (order_of self) result.items ≡ (floppy_disk self).image }
        ensures outside { IsSameOutside (order_of self) (made_of self) result.items }
        ensures whole { image_size (order_of self) ≤ length result.items }
        ensures order { order_of self ≡ order_of_blocks (length (floppy_disk self).image) }
    {
        let Floppy {
            order: _,
            bytes,
            outcomes: _,
            moments: _,
            made: _,
        } = self;
        bytes
    }
}

impl Device for Floppy {
    ghost use Rattle.f11_floppies.specs.Floppy.{floppy_disk, IsSameFloppy};

    ghost disk = { floppy_disk };

    ghost is_image = { λ f. f.is_image };

    fn blocks(&self) -> u32 {
        self.order.blocks()
    }

    fn read(&mut self, lbn: u32, into: &mut Block) -> Result<(), DeviceFault>
        requires { lbn < length (floppy_disk self.old).image }
        ensures reads { Reads result lbn into.new (floppy_disk self.old) (floppy_disk self.new) }
        ensures passes { IsOk result }
        ensures same { IsSameFloppy self.old self.new }
    {
        *into = block_of(self.order, &self.bytes, lbn);
        self.outcomes.add(true);
        Ok(())
    }

    fn write(&mut self, lbn: u32, from: &Block) -> Result<(), DeviceFault>
        requires { lbn < length (floppy_disk self.old).image }
        ensures writes { Writes result lbn from.now (floppy_disk self.old) (floppy_disk self.new) }
        ensures passes { IsOk result }
        ensures same { IsSameFloppy self.old self.new }
    {
        put_block(self.order, &mut self.bytes, lbn, from);
        self.outcomes.add(true);
        self.moments.add(&self.bytes);
        Ok(())
    }
}

impl ReadsRuns for Floppy {}
