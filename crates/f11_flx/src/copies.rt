//! The blocks of a file, copied one by one.
ghost use Rattle.f11_store.specs.File.{most_blocks};
ghost use Rattle.std.specs.Prelude.{◌≡◌, ◌-◌, ◌+◌, ◌*◌, ◌≤◌, ◌<◌, ◌++◌, false, length, replicate, take, IfErr, IfOk, OnOk};
ghost use Rattle.f11_making.specs.Asking.{who_asks};
ghost use Rattle.f11_flx.specs.Copies.{CopiesBlocks, CopiesText, FailsToCopyBlocks, FailsToCopyText};
ghost use Rattle.f11_flx.specs.Filling.{FailsToFinish, FinishesBlocks, out_of};
ghost use Rattle.f11_flx.specs.ToText.{ends_record, rest_of};

use crate::filling::Filling;
use crate::pour::pour;
use crate::refusal::FlxRefusal;
use crate::takes::Takes;
use crate::to_text::ToText;
use f11_bytes::{BLOCK_SIZE, Block};
use f11_making::{Asked, Asker, read};
use rt11_volume::RtName;

/// Copies the first so many blocks of the file that is accessed as they are.
pub fn copy_blocks<S: Asked, T: Takes>(
    service: &mut S,
    by: &Asker,
    count: u32,
    target: &mut T,
    name: &RtName,
) -> Result<(), FlxRefusal>
    requires { count ≤ most_blocks }
    ensures copied { OnOk result (CopiesBlocks S.service T.took (who_asks by.now.task by.now.uic) by.now.lun
        name.now count service.old service.new target.old target.new) }
    ensures fails { IfErr result (λ e. FailsToCopyBlocks S.service T.took T.refused
        (who_asks by.now.task by.now.uic) by.now.lun name.now count e
        service.old service.new target.old target.new) }
{
    let mut block = [0; BLOCK_SIZE];
    for k in 0..count {
        match read(service, by, k + 1, &mut block) {
            Ok(()) => {}
            Err(refusal) => return Err(FlxRefusal::Files(refusal)),
        }
        target.take(name, k, &block)?;
    }
    Ok(())
}

/// Copies the text of the file that is accessed, whose first so many blocks are read: how many blocks the copy has.
pub fn copy_text<S: Asked, T: Takes>(
    service: &mut S,
    by: &Asker,
    text: ToText,
    count: u32,
    target: &mut T,
    name: &RtName,
) -> Result<u32, FlxRefusal>
    requires few { count ≤ most_blocks }
    requires whole { rest_of text ≤ 512 * count }
    requires begins { ends_record text ≡ false }
    ensures copied { IfOk result (λ blocks. CopiesText S.service T.took (who_asks by.now.task by.now.uic) by.now.lun
        name.now text count blocks service.old service.new target.old target.new) }
    ensures fails { IfErr result (λ e. FailsToCopyText S.service T.took T.refused
        (who_asks by.now.task by.now.uic) by.now.lun name.now text count e
        service.old service.new target.old target.new) }
{
    let mut text = text;
    let mut block = [0; BLOCK_SIZE];
    let mut out = Filling::new();
    for k in 0..count {
        match read(service, by, k + 1, &mut block) {
            Ok(()) => {}
            Err(refusal) => return Err(FlxRefusal::Files(refusal)),
        }
        pour(&mut text, &block, &mut out, target, name)?;
    }
    finish(&mut out, target, name)
}

/// Fills a block up with zeros from a place on.
pub fn clear(block: &mut Block, from: usize)
    requires { from ≤ 512 }
    ensures { block.new ≡ take from block.old ++ replicate (512 - from) 0 }
{
    block[from..].fill(0);
}

/// Gives the target the last block, if a part of it is filled: how many blocks there are.
fn finish<T: Takes>(out: &mut Filling, target: &mut T, name: &RtName) -> Result<u32, FlxRefusal>
    requires room { out.old.to < 512 }
    requires few { out.old.place < 4294967295 }
    ensures size { length out.old.block ≡ 512 }
    ensures finishes { IfOk result (λ blocks. FinishesBlocks T.took name.now (out_of out.old) blocks
        target.old target.new) }
    ensures refused { IfErr result (λ e. FailsToFinish T.refused name.now (out_of out.old) e
        target.old target.new) }
{
    if out.to == 0 {
        return Ok(out.place);
    }
    clear(&mut out.block, out.to);
    target.take(name, out.place, &out.block)?;
    Ok(out.place + 1)
}
