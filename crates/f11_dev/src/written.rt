//! The writes to a device, which only clauses read.
ghost use Rattle.std.specs.Prelude.{◌≡◌, IsTrue};
ghost use Rattle.f11_dev.specs.Image.{IsImageOf, zero_image};

use crate::Block;
use std::snapshot::Snapshot;

/// Each block that was written so far, the newest first. It takes no memory for them.
#[derive(Drop)]
pub enum Written {
    Nothing,
    Then(Snapshot<Written>, Entry),
}

/// A block that was written, where, and whether the write landed.
#[derive(Drop)]
pub struct Entry {
    lbn: Snapshot<u32>,
    block: Snapshot<Block>,
    landed: Snapshot<bool>,
}

impl Written {
    ghost use Rattle.f11_dev.specs.Written.{Adds, written_image};

    /// What was written to a file of so many blocks before it was opened. Nothing is known of it but that an image came of it.
    pub fn earlier(blocks: u32) -> Snapshot<Written>
        ensures { IsImageOf (written_image blocks result.value) blocks }
    {
        Written::none(blocks)
    }

    /// Nothing was written to so many blocks of zeros.
    pub fn none(blocks: u32) -> Snapshot<Written>
        ensures image { IsImageOf (written_image blocks result.value) blocks }
        ensures zeros { written_image blocks result.value ≡ zero_image blocks }
    {
        let _ = blocks;
        Snapshot::of(&Written::Nothing)
    }

    /// Adds a write, which passed or failed. Of one that failed nothing is known of whether it landed.
    pub fn add(&mut self, lbn: u32, block: &Block, passed: bool)
        ensures { Adds passed lbn block.now self.old self.new }
    {
        let earlier = Snapshot::of(self);
        *self = Written::Then(
            earlier,
            Entry {
                lbn: Snapshot::of(&lbn),
                block: Snapshot::of(block),
                landed: whether_landed(passed),
            },
        );
    }
}

/// Whether a write landed. Nothing is known of it but that one that passed did.
fn whether_landed(passed: bool) -> Snapshot<bool>
    ensures { IsTrue passed → IsTrue result.value }
{
    let _ = passed;
    Snapshot::of(&true)
}
