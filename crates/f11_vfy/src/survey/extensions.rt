//! Blocks of extension headers, which are kept where they are to be written.
ghost use Rattle.std.specs.Prelude.{◌≡◌, ℕ, List, [], ◌∷◌, if◌then◌else◌, IsTrue, OnOk, Some};
ghost use Rattle.std.specs.List.{slice_get};
ghost use Rattle.f11_header.specs.Header.{holds_header};
ghost use Rattle.f11_vfy.specs.Surveying.Extensions.{extension_in};

use crate::survey::slot::State;
use f11_bytes::{BLOCK_SIZE, Block, NoMemory};
use f11_map::in_hand::segment;
use std::alloc::Global;

/// The blocks of the extension headers that a survey reads, where they are to be kept: valid headers whose segment number isn't 0. They
/// take 512 bytes each, and up to three times that while their list grows.
#[derive(Drop)]
pub struct Extensions {
    /// They are to be kept.
    pub(crate) wanted: bool,
    /// Their blocks, in the order of their slots.
    pub(crate) blocks: Vec<Block>,
}

impl Extensions {
    ghost use Rattle.f11_vfy.specs.Surveying.Extensions.{IsToKeep, TakesExtension};

    /// None is to be kept, which takes no memory.
    pub fn none(alloc: Global) -> Extensions {
        Extensions {
            wanted: false,
            blocks: Vec::new(alloc),
        }
    }

    /// All are to be kept.
    pub fn all(alloc: Global) -> Extensions
        ensures { IsToKeep result }
    {
        Extensions {
            wanted: true,
            blocks: Vec::new(alloc),
        }
    }

    /// Takes the header of a slot in this state, where that is an extension header and such are kept.
    pub(crate) fn take(&mut self, state: State, block: &Block) -> Result<(), NoMemory>
        requires valid { state ≡ State.Live → IsTrue (holds_header block.now) }
        ensures { OnOk result (TakesExtension state block.now self.old self.new) }
    {
        if self.wanted && is_extension(state, block) {
            self.blocks.push(*block)?;
        }
        Ok(())
    }

    /// The block that was kept as number `i`, from 0, or zeros where there is none.
    pub(crate) fn block(&self, i: usize) -> Block
        ensures { (block : List ℕ) → slice_get self.now.blocks.items i ≡ Some block
            → result ≡ block }
    {
        if i < self.blocks.len() {
            self.blocks[i]
        } else {
            [0; BLOCK_SIZE]
        }
    }
}

/// Whether a slot in this state has an extension header.
fn is_extension(state: State, block: &Block) -> bool
    requires { state ≡ State.Live → IsTrue (holds_header block.now) }
    ensures { extension_in state block.now ≡ (if result then block.now ∷ [] else []) }
{
    match state {
        State::Live => segment(block) != 0,
        _ => false,
    }
}
