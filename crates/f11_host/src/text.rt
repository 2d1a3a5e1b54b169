//! A pass over a text of the host, whose copy is written.
ghost use Rattle.std.specs.Prelude.{◌≡◌, ◌<◌, ◌≤◌, ℕ, List, IfErr, IfOk, OnOk};
ghost use Rattle.f11_making.specs.Asking.{who_asks};
ghost use Rattle.f11_flx.specs.Filling.{out_of};
ghost use Rattle.f11_flx.specs.Passes.{BeginsLines};
ghost use Rattle.f11_host.specs.TextPasses.{CopiesText, FailsToCopyText, FailsToPlanText, FailsToReadText, PlansText, ReadsText};

use crate::piece::read_piece;
use f11_bytes::BLOCK_SIZE;
use f11_flx::{Dry, Extent, Filling, FlxRefusal, ToRecords, end_lines, write_lines};
use f11_making::{Asked, Asker};
use rt11_text::{Expanded, expand};
use std::io::Read;

/// Reads so many bytes that the host gives, and writes the blocks of their lines that are full.
fn read_text<R: Read, S: Asked>(
    host: &mut R,
    bytes: u32,
    lines: &mut ToRecords,
    out: &mut Filling,
    service: &mut S,
    by: &Asker,
) -> Result<(), FlxRefusal>
    requires few { bytes ≤ 1073741312 }
    requires begins { BeginsLines lines.old }
    requires place { out.old.place ≡ 0 }
    requires to { out.old.to ≡ 0 }
    ensures reads { OnOk result ((taken : List ℕ) × ReadsText S.service
        (who_asks by.now.task by.now.uic) by.now.lun bytes taken lines.old lines.new
        (out_of out.old) (out_of out.new) (R.remaining host.old) (R.remaining host.new)
        service.old service.new) }
    ensures room { OnOk result (out.new.to < 512) }
    ensures fails { IfErr result (λ e. (taken : List ℕ) × FailsToReadText S.service
        (who_asks by.now.task by.now.uic) by.now.lun bytes taken lines.old (out_of out.old) e
        (R.remaining host.old) (R.remaining host.new) service.old service.new) }
{
    let mut block = [0; BLOCK_SIZE];
    let mut text = Expanded::new();
    let mut cr = false;
    let mut left = bytes;
    while left > 0 {
        let count = left.min(BLOCK_SIZE as u32);
        match read_piece(host, count as usize, &mut block) {
            Ok(()) => {}
            Err(_) => return Err(FlxRefusal::Unread),
        }
        cr = expand(&block, count as usize, cr, &mut text);
        write_lines(lines, &text, out, service, by)?;
        left -= count;
    }
    Ok(())
}

/// Writes the copy of a text of so many bytes that the host gives. Where the host gives fewer it is refused as [`FlxRefusal::Unread`].
pub fn copy_text<R: Read, S: Asked>(
    host: &mut R,
    bytes: u32,
    service: &mut S,
    by: &Asker,
) -> Result<Extent, FlxRefusal>
    requires few { bytes ≤ 1073741312 }
    ensures copied { IfOk result (λ e. (taken : List ℕ) × CopiesText S.service
        (who_asks by.now.task by.now.uic) by.now.lun bytes taken e.blocks e.end e.longest
        (R.remaining host.old) (R.remaining host.new) service.old service.new) }
    ensures fails { IfErr result (λ e. (taken : List ℕ) × FailsToCopyText S.service
        (who_asks by.now.task by.now.uic) by.now.lun bytes taken e
        (R.remaining host.old) (R.remaining host.new) service.old service.new) }
{
    let mut lines = ToRecords::new();
    let mut out = Filling::new();
    read_text(host, bytes, &mut lines, &mut out, service, by)?;
    end_lines(&mut lines, &mut out, service, by)
}

/// Walks over a text of so many bytes that the host gives: what its copy is.
pub fn judge_text<R: Read>(host: &mut R, bytes: u32, by: &Asker) -> Result<Extent, FlxRefusal>
    requires few { bytes ≤ 1073741312 }
    ensures plans { IfOk result (λ e. PlansText bytes e.blocks e.end e.longest
        (R.remaining host.old) (R.remaining host.new)) }
    ensures fails { IfErr result (λ e. FailsToPlanText bytes e
        (R.remaining host.old) (R.remaining host.new)) }
{
    copy_text(host, bytes, &mut Dry, by)
}
