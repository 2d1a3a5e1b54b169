//! Text that is converted into the blocks of a copy.
ghost use Rattle.std.specs.Prelude.{◌≡◌, ◌+◌, ◌<◌, ◌≤◌, length, IfErr, OnOk};
ghost use Rattle.f11_flx.specs.Filling.{FailsToPour, Pours, TakesNext, out_of};

use crate::filling::Filling;
use crate::refusal::FlxRefusal;
use crate::takes::Takes;
use crate::to_text::ToText;
use f11_bytes::BLOCK_SIZE;
use rt11_volume::RtName;

/// Gives the target the block, which is full, and goes on with the next one.
fn give<T: Takes>(out: &mut Filling, target: &mut T, name: &RtName) -> Result<(), FlxRefusal>
    requires { out.old.place < 4294967295 }
    ensures size { length out.old.block ≡ 512 }
    ensures taken { OnOk result (TakesNext T.took name.now (out_of out.old) (out_of out.new)
        target.old target.new) }
    ensures refused { IfErr result (λ e. T.refused name.now out.old.place out.old.block e
        target.old target.new) }
{
    target.take(name, out.place, &out.block)?;
    out.place += 1;
    out.to = 0;
    Ok(())
}

/// Converts bytes of a file into blocks for the target, and gives it those that are full.
pub fn pour<T: Takes>(
    text: &mut ToText,
    source: &[u8],
    out: &mut Filling,
    target: &mut T,
    name: &RtName,
) -> Result<(), FlxRefusal>
    requires size { length source.now ≤ 512 }
    requires room { out.old.to < 512 }
    requires few { out.old.place + 5 < 4294967295 }
    ensures pours { OnOk result (Pours T.took name.now text.old text.new source.now
        (out_of out.old) (out_of out.new) target.old target.new) }
    ensures room { OnOk result (out.new.to < 512) }
    ensures fails { IfErr result (λ e. FailsToPour T.took T.refused name.now text.old source.now
        (out_of out.old) e target.old target.new) }
{
    let mut used = 0;
    loop {
        match text.convert(&source[used..], &mut out.block, out.to) {
            Err(_) => return Err(FlxRefusal::BadRecord),
            Ok((read, to)) => {
                used += read;
                out.to = to;
            }
        }
        if out.to < BLOCK_SIZE {
            return Ok(());
        }
        give(out, target, name)?;
    }
}
