//! All blocks of a file, read and written.
ghost use Rattle.std.specs.Prelude.{◌≡◌, false, ◌++◌, [], ◌∷◌, IfErr, IfOk, OnOk, length};
ghost use Rattle.f11_dev.specs.Looked.{Looked};
ghost use Rattle.f11_dev.specs.Went.{Went};
ghost use Rattle.rt11_volume.specs.Calls.{has_failed};
ghost use Rattle.rt11_volume.specs.Files.{faults_in, is_device_fault};
ghost use Rattle.rt11_volume.specs.Store.{rt_store_of};
ghost use Rattle.rt11_volume.specs.Verifying.Verdict.{IsSoundDisk};
ghost use Rattle.rt11_squeeze.specs.Blocks.{FailsToRead, FailsToWrite, ReadsBlocks, SparesOthers, WritesBlocks, blocks_transfers};
ghost use Rattle.rt11_squeeze.specs.Kept.{volume_disk, volume_store};

use f11_bytes::{BLOCK_SIZE, Block, NoMemory};
use f11_dev::Device;
use rt11_volume::{RtAccepted, RtName, RtRefusal};
use std::alloc::Global;

/// Adds a block.
fn push_block(all: &mut Vec<Block>, block: Block) -> Result<(), NoMemory>
    ensures { OnOk result (all.new.items ≡ all.old.items ++ block ∷ []) }
{
    Ok(all.push(block)?)
}

/// Reads so many blocks of a file, from the first on. It takes memory for them.
pub(crate) fn read_blocks<D: Device>(
    alloc: Global,
    volume: &mut RtAccepted<D>,
    name: &RtName,
    count: u16,
) -> Result<Vec<Block>, RtRefusal>
    requires fresh { has_failed volume.old ≡ false }
    ensures looked { Looked (volume_disk D.disk volume.old) (volume_disk D.disk volume.new)
        (blocks_transfers count) (faults_in result) }
    ensures next { has_failed volume.new ≡ is_device_fault result }
    ensures read { IfOk result (λ blocks. ReadsBlocks name.now count blocks.items
        (volume_disk D.disk volume.old)) }
    ensures refused { IfErr result (λ e. FailsToRead name.now count e
        (volume_disk D.disk volume.old)) }
{
    let mut all = Vec::new(alloc);
    for place in 0..count {
        let mut block = [0; BLOCK_SIZE];
        match volume.read(name, place, &mut block) {
            Ok(()) => {}
            Err(refusal) => return Err(refusal),
        }
        match push_block(&mut all, block) {
            Ok(()) => {}
            Err(_) => return Err(RtRefusal::NoMemory),
        }
    }
    Ok(all)
}

/// Writes blocks over those of a file, from the first on.
pub(crate) fn write_blocks<D: Device>(
    volume: &mut RtAccepted<D>,
    name: &RtName,
    count: u16,
    blocks: &[Block],
) -> Result<(), RtRefusal>
    requires fresh { has_failed volume.old ≡ false }
    requires count { length blocks.now ≡ count }
    ensures went { Went (SparesOthers name.now (volume_disk D.disk volume.old))
        (volume_disk D.disk volume.old) (volume_disk D.disk volume.new)
        (blocks_transfers count) (faults_in result) }
    ensures next { has_failed volume.new ≡ is_device_fault result }
    ensures sound { OnOk result (IsSoundDisk (volume_disk D.disk volume.old)
        → IsSoundDisk (volume_disk D.disk volume.new)) }
    ensures written { OnOk result (IsSoundDisk (volume_disk D.disk volume.old)
        → WritesBlocks name.now blocks.now (volume_store D.disk volume.old)
        (volume_store D.disk volume.new)) }
    ensures refused { IfErr result (λ e. FailsToWrite name.now count e
        (volume_disk D.disk volume.old)) }
{
    for place in 0..count {
        let block = blocks[usize::from(place)];
        match volume.write(name, place, &block) {
            Ok(()) => {}
            Err(refusal) => return Err(refusal),
        }
    }
    Ok(())
}
