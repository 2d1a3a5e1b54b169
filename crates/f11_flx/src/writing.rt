//! Text that is converted into the blocks of a file, which are written.
ghost use Rattle.std.specs.Prelude.{◌≡◌, ◌+◌, ◌*◌, ◌<◌, ◌≤◌, ◌∷◌, [], false, length, suc, IfErr, OnOk};
ghost use Rattle.f11_making.specs.Asking.{Denies, Granted, Grants, who_asks, writes, writes_of};
ghost use Rattle.f11_flx.specs.Filling.{out_of};
ghost use Rattle.f11_flx.specs.ToRecords.{gives};
ghost use Rattle.f11_flx.specs.Writing.{FailsToWritePieces, WritesPieces, WritesNext, out_bytes};

use crate::filling::Filling;
use crate::refusal::FlxRefusal;
use crate::to_records::ToRecords;
use f11_bytes::BLOCK_SIZE;
use f11_making::{Asked, Asker, write};
use f11_store::Refusal;

/// Writes the block, which is full, and goes on with the next one.
pub fn give<S: Asked>(out: &mut Filling, service: &mut S, by: &Asker) -> Result<(), Refusal>
    requires { out.old.place < 4294967295 }
    ensures size { length out.old.block ≡ 512 }
    ensures written { OnOk result (WritesNext S.service (who_asks by.now.task by.now.uic) by.now.lun
        (out_of out.old) (out_of out.new) service.old service.new) }
    ensures refused { IfErr result (λ e. Denies S.service (who_asks by.now.task by.now.uic)
        (writes by.now.lun (suc out.old.place) out.old.block) e service.old service.new) }
{
    write(service, by, out.place + 1, &mut out.block)?;
    out.place += 1;
    out.to = 0;
    Ok(())
}

/// Converts bytes of a text into blocks of the file, and writes those that are full.
pub fn write_lines<S: Asked>(
    lines: &mut ToRecords,
    source: &[u8],
    out: &mut Filling,
    service: &mut S,
    by: &Asker,
) -> Result<(), FlxRefusal>
    requires room { out.old.to < 512 }
    requires few { 512 * out.old.place + length (out_bytes (out_of out.old) lines.old source.now)
        < 4294967295 }
    ensures writes { OnOk result (WritesPieces S.service (who_asks by.now.task by.now.uic) by.now.lun
        lines.old lines.new source.now [] (out_of out.old) (out_of out.new)
        service.old service.new) }
    ensures idle { OnOk result (gives lines.new ≡ false) }
    ensures room { OnOk result (out.new.to < 512) }
    ensures fails { IfErr result (λ e. FailsToWritePieces S.service (who_asks by.now.task by.now.uic) by.now.lun
        lines.old source.now (out_of out.old) e service.old service.new) }
{
    let mut used = 0;
    loop {
        match lines.convert(&source[used..], &mut out.block, out.to) {
            Err(_) => return Err(FlxRefusal::LineTooLong),
            Ok((read, to)) => {
                used += read;
                out.to = to;
            }
        }
        if out.to < BLOCK_SIZE {
            return Ok(());
        }
        match give(out, service, by) {
            Ok(()) => {}
            Err(refusal) => return Err(FlxRefusal::Files(refusal)),
        }
    }
}
