//! The bad blocks of a volume for which others stand.
ghost use Rattle.std.specs.Prelude.{◌≡◌, [], ◌∷◌, ◌++◌, IfErr, IfOk, OnOk};
ghost use Rattle.rt11_volume.specs.BadBlocks.{FailsToReadBadBlocks, ReadsBadBlocks, bad_blocks_in};

use crate::directory::LookFault;
use f11_bytes::{BLOCK_SIZE, Block, NoMemory, read_word};
use f11_dev::Device;
use std::alloc::Global;
use std::marker::Model;

/// How many pairs of words the table has room for.
const PAIRS: usize = 32;

/// The bad blocks of a volume, in the order of its table. Contracts see them as a list.
#[derive(Drop)]
pub struct RtBadBlocks {
    list: Vec<u16>,
}

impl Model for RtBadBlocks {
    ghost use Rattle.std.specs.Prelude.{List, ℕ};

    ghost Value = { List ℕ };

    ghost view = { λ b. b.list.items };
}

impl RtBadBlocks {
    /// They, in their order.
    pub fn as_slice(&self) -> &[u16]
        ensures { result.now ≡ self.now }
    {
        &self.list
    }
}

/// Puts one more behind the others.
fn push(bad: &mut Vec<u16>, number: u16) -> Result<(), NoMemory>
    ensures { OnOk result (bad.new.items ≡ bad.old.items ++ number ∷ []) }
{
    Ok(bad.push(number)?)
}

/// Those that the bytes of a home block tell.
fn bad_in(alloc: Global, block: &Block) -> Result<Vec<u16>, NoMemory>
    ensures { IfOk result (λ bad. bad.items ≡ bad_blocks_in block.now) }
{
    let mut bad = Vec::new(alloc);
    for i in 0..PAIRS {
        let number = read_word(block, 4 * i);
        if number == 0 {
            return Ok(bad);
        }
        push(&mut bad, number)?;
    }
    Ok(bad)
}

/// The bad blocks of an RT-11 volume for which others stand, as the table in its home block, block 1, says (RT-11 Volume and File Formats
/// Manual, "Home Block"). Nothing is written; at most one block is read. It takes memory for the list.
///
/// # Errors
///
/// `DeviceFault` where the transfer failed, and `NoMemory` where there was no memory.
pub fn read_bad_blocks<D: Device>(alloc: Global, device: &mut D) -> Result<RtBadBlocks, LookFault>
    ensures reads { IfOk result (λ bad.
        ReadsBadBlocks bad (D.disk device.old) (D.disk device.new)) }
    ensures failed { IfErr result (λ fault.
        FailsToReadBadBlocks fault (D.disk device.old) (D.disk device.new)) }
{
    if device.blocks() < 2 {
        return Ok(RtBadBlocks {
            list: Vec::new(alloc),
        });
    }
    let mut block = [0; BLOCK_SIZE];
    device.read(1, &mut block)?;
    let list = bad_in(alloc, &block)?;
    Ok(RtBadBlocks { list })
}
