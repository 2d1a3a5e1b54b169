//! A device in memory.
ghost use Rattle.std.specs.Prelude.{◌≡◌, ◌<◌, ◌^◌, ◌-◌, [], ◌∷◌, reverse, slice_set, min, true, false, IfOk, IsOk, OnOk, OnErr, length};
ghost use Rattle.f11_dev.specs.Image.{IsImage, zero_image};
ghost use Rattle.f11_dev.specs.Disk.{fresh, with_transfer, Reads, Writes};
ghost use Rattle.f11_dev.specs.Outcomes.{transfers_of};

use crate::outcomes::Outcomes;
use crate::{Block, Device, DeviceFault, NoMemory};
use f11_bytes::zeros;
use std::alloc::Global;

/// A device in memory. It is honest, and keeps a record of its writes: a write that finds no memory for its
/// record fails, and leaves the old block.
#[derive(Drop)]
pub struct Memory {
    blocks: Vec<Block>,
    /// What each write replaced, the oldest first.
    replaced: Vec<Replaced>,
    transfers: u64,
    outcomes: Outcomes,
    ghost is_image: { IsImage blocks.items },
    ghost counts: { transfers ≡ min (transfers_of outcomes) (2 ^ 64 - 1) },
}

/// The block that a write replaced.
#[derive(Drop)]
struct Replaced {
    lbn: u32,
    block: Block,
}

impl Memory {
    ghost use Rattle.f11_dev.specs.Memory.{memory_disk, images_back};

    /// A device of so many blocks, all zeros.
    pub fn new(alloc: Global, blocks: u32) -> Result<Memory, NoMemory>
        ensures { IfOk result (λ memory. memory_disk memory ≡ fresh true (zero_image blocks)) }
    {
        Ok(Memory {
            blocks: zero_blocks(alloc, blocks)?,
            replaced: Vec::new(alloc),
            transfers: 0,
            outcomes: Outcomes::None,
        })
    }

    /// The number of transfers so far, failed ones too, and `u64::MAX` where there were more.
    pub fn transfers(&self) -> u64
        ensures { result ≡ min (memory_disk self.now).transfers u64.MAX }
    {
        self.transfers
    }

    /// Counts a transfer.
    fn count(&mut self, passed: bool)
        ensures { memory_disk self.new ≡ with_transfer passed (memory_disk self.old) }
    {
        self.transfers = self.transfers.saturating_add(1);
        self.outcomes.add(passed);
    }

    /// Puts a block in the place of another, which the record keeps.
    fn replace(
        blocks: &mut Vec<Block>,
        replaced: &mut Vec<Replaced>,
        lbn: u32,
        from: &Block,
    ) -> Result<(), NoMemory>
        requires { lbn < length blocks.old.items }
        ensures blocks { OnOk result (blocks.new.items ≡ slice_set blocks.old.items lbn from.now) }
        ensures images { OnOk result (images_back blocks.new.items (reverse replaced.new.items)
            ≡ blocks.new.items ∷ images_back blocks.old.items (reverse replaced.old.items)) }
        ensures blocks_stay { OnErr result (blocks.new.items ≡ blocks.old.items) }
        ensures record_stays { OnErr result (replaced.new.items ≡ replaced.old.items) }
    {
        let at = lbn as usize;
        replaced.push(Replaced {
            lbn,
            block: blocks[at],
        })?;
        blocks[at] = *from;
        Ok(())
    }
}

impl Device for Memory {
    ghost use Rattle.f11_dev.specs.Memory.{CountsFailure, memory_disk};

    ghost disk = { memory_disk };

    ghost is_image = { λ m. m.is_image };

    fn blocks(&self) -> u32 {
        self.blocks.len() as u32
    }

    fn read(&mut self, lbn: u32, into: &mut Block) -> Result<(), DeviceFault>
        requires { lbn < length (memory_disk self.old).image }
        ensures reads { Reads result lbn into.new (memory_disk self.old) (memory_disk self.new) }
        ensures passes { IsOk result }
    {
        *into = self.blocks[lbn as usize];
        self.count(true);
        Ok(())
    }

    fn write(&mut self, lbn: u32, from: &Block) -> Result<(), DeviceFault>
        requires { lbn < length (memory_disk self.old).image }
        ensures writes { Writes result lbn from.now (memory_disk self.old) (memory_disk self.new) }
        ensures kept { OnErr result (CountsFailure self.old self.new) }
    {
        let done = Memory::replace(&mut self.blocks, &mut self.replaced, lbn, from);
        self.count(done.is_ok());
        done.map_err(|_| DeviceFault)
    }
}

fn zero_blocks(alloc: Global, count: u32) -> Result<Vec<Block>, NoMemory>
    ensures { IfOk result (λ blocks. blocks.items ≡ zero_image count) }
{
    let mut blocks = Vec::with_capacity(alloc, count as usize)?;
    for _ in 0..count {
        blocks.push(zeros())?;
    }
    Ok(blocks)
}
