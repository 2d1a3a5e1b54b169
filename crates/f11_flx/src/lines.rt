//! The lines of a file on an RT-11 volume, copied into the blocks of a file.
ghost use Rattle.std.specs.Prelude.{◌≡◌, ◌+◌, ◌*◌, ◌<◌, ◌≤◌, [], false, length, IfErr, IfOk, OnOk};
ghost use Rattle.f11_making.specs.Asking.{who_asks};
ghost use Rattle.f11_flx.specs.Filling.{out_of};
ghost use Rattle.f11_flx.specs.Passes.{BeginsLines, EndsLines, FailsToEnd, FailsToFlush, FailsToReadLines, Flushes, ReadsLines};
ghost use Rattle.f11_flx.specs.Writing.{out_bytes};

use crate::copies::clear;
use crate::filling::Filling;
use crate::refusal::FlxRefusal;
use crate::rt_source::read;
use crate::to_records::ToRecords;
use crate::writing::{give, write_lines};
use f11_bytes::BLOCK_SIZE;
use f11_dev::Device;
use f11_making::{Asked, Asker};
use f11_store::Refusal;
use rt11_volume::{RtAccepted, RtName};

/// How many blocks the copy of a text has, the byte behind its last record, and the length of its longest line.
#[derive(Clone, Copy, Debug)]
pub struct Extent {
    pub blocks: u32,
    pub end: u32,
    pub longest: u16,
}

/// Reads so many blocks of the file of a name, and writes the blocks of their lines that are full.
pub fn read_lines<E: Device, S: Asked>(
    rt: &mut RtAccepted<E>,
    name: &RtName,
    many: u16,
    lines: &mut ToRecords,
    out: &mut Filling,
    service: &mut S,
    by: &Asker,
) -> Result<(), FlxRefusal>
    requires begins { BeginsLines lines.old }
    requires place { out.old.place ≡ 0 }
    requires to { out.old.to ≡ 0 }
    ensures reads { OnOk result (ReadsLines S.service E.disk (who_asks by.now.task by.now.uic)
        by.now.lun name.now many lines.old lines.new (out_of out.old) (out_of out.new)
        rt.old rt.new service.old service.new) }
    ensures room { OnOk result (out.new.to < 512) }
    ensures fails { IfErr result (λ e. FailsToReadLines S.service E.disk
        (who_asks by.now.task by.now.uic) by.now.lun name.now many lines.old (out_of out.old) e
        rt.old rt.new service.old service.new) }
{
    let mut block = [0; BLOCK_SIZE];
    for place in 0..many {
        match read(rt, name, place, &mut block) {
            Ok(()) => {}
            Err(refusal) => return Err(FlxRefusal::Rt(refusal)),
        }
        write_lines(lines, &block, out, service, by)?;
    }
    Ok(())
}

/// Writes the last block, if a part of it is filled, with zeros behind that: the byte behind that part.
fn flush<S: Asked>(out: &mut Filling, service: &mut S, by: &Asker) -> Result<u32, Refusal>
    requires room { out.old.to < 512 }
    requires few { 512 * out.old.place + out.old.to < 4294967295 }
    ensures flushes { IfOk result (λ end. Flushes S.service (who_asks by.now.task by.now.uic)
        by.now.lun (out_of out.old) (out_of out.new) end service.old service.new) }
    ensures fails { IfErr result (λ e. FailsToFlush S.service (who_asks by.now.task by.now.uic)
        by.now.lun (out_of out.old) e service.old service.new) }
{
    let end = out.place * BLOCK_SIZE as u32 + out.to as u32;
    if out.to == 0 {
        return Ok(end);
    }
    clear(&mut out.block, out.to);
    give(out, service, by)?;
    Ok(end)
}

/// Ends the text, and writes the rest of its blocks.
pub fn end_lines<S: Asked>(
    lines: &mut ToRecords,
    out: &mut Filling,
    service: &mut S,
    by: &Asker,
) -> Result<Extent, FlxRefusal>
    requires room { out.old.to < 512 }
    requires few { 512 * out.old.place + length (out_bytes (out_of out.old) lines.old [])
        < 4294966000 }
    ensures ends { IfOk result (λ e. EndsLines S.service (who_asks by.now.task by.now.uic)
        by.now.lun lines.old (out_of out.old) e.blocks e.end e.longest service.old service.new) }
    ensures fails { IfErr result (λ e. FailsToEnd S.service (who_asks by.now.task by.now.uic)
        by.now.lun lines.old (out_of out.old) e service.old service.new) }
{
    match lines.finish() {
        Ok(()) => {}
        Err(_) => return Err(FlxRefusal::LineTooLong),
    }
    write_lines(lines, &[], out, service, by)?;
    match flush(out, service, by) {
        Ok(end) => Ok(Extent {
            blocks: out.place,
            end,
            longest: lines.longest(),
        }),
        Err(refusal) => Err(FlxRefusal::Files(refusal)),
    }
}
