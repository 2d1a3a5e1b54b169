//! The retrieval pointers of one header.
ghost use Rattle.std.specs.Prelude.{◌≡◌, ◌≤◌, ◌<◌, ◌+◌, ℕ, max, IsTrue, OnOk};
ghost use Rattle.f11_header.specs.Header.{holds_header};
ghost use Rattle.f11_map.specs.HeaderBlock.{blocks_named};
ghost use Rattle.f11_vfy.specs.Surveying.Bits.{limit_of};
ghost use Rattle.f11_vfy.specs.Surveying.Count.{Shows, times_among};
ghost use Rattle.f11_findings.specs.Found.{Finds};
ghost use Rattle.f11_vfy.specs.Surveying.Headers.{OutsideOf};

use crate::survey::tally::Tally;
use f11_bytes::{Block, NoMemory};
use f11_findings::{Finding, Findings};
use f11_map::in_hand::map;

/// The code of a pointer a block of which isn't in the volume.
const OUTSIDE: u8 = 8;

/// The blocks that a pointer can name are below this one: its LBN is below 2^24, and its count at most 256.
const REACH: u32 = (1 << 24) + 255;

/// Marks the blocks that the pointers of header `n` name, and adds the pointers that name one outside a volume of so many blocks. The
/// tally has room for the volume's blocks; where a pointer names one outside, it gets room for all that pointers can name.
///
/// # Errors
///
/// `NoMemory` where there is no memory for a finding or for that room.
pub(crate) fn take_pointers(
    n: u16,
    block: &Block,
    size: u32,
    tally: &mut Tally,
    outside: &mut Findings,
) -> Result<(), NoMemory>
    requires header { IsTrue (holds_header block.now) }
    requires room { size ≤ limit_of tally.old.once }
    ensures room { OnOk result (limit_of tally.old.once ≤ limit_of tally.new.once) }
    ensures named { OnOk result ((c : ℕ → ℕ) → Shows tally.old c
        → Shows tally.new (λ l. c l + times_among (blocks_named block.now) l)) }
    ensures outside { OnOk result (Finds (OutsideOf block.now n size) outside.old outside.new) }
{
    let map = map(block);
    for i in 0..map.runs() {
        let (lbn, count) = map.run(i);
        let end = lbn + count;
        make_room(tally, size, end)?;
        tally.mark_run(lbn, end);
        let finding = Finding {
            code: OUTSIDE,
            a: u32::from(n),
            b: i as u32,
        };
        outside.add_if(size < end, finding)?;
    }
    Ok(())
}

/// Makes room for the blocks below the end of a pointer: where that lies past a volume of so many blocks, for all that pointers can name.
///
/// # Errors
///
/// `NoMemory` where there is no memory for two bits a block.
fn make_room(tally: &mut Tally, size: u32, end: u32) -> Result<(), NoMemory>
    requires room { size ≤ limit_of tally.old.once }
    requires end { end ≤ 16777471 }
    ensures shows { OnOk result ((c : ℕ → ℕ) → Shows tally.old c → Shows tally.new c) }
    ensures room { OnOk result (max (limit_of tally.old.once) end ≤ limit_of tally.new.once) }
{
    if size < end {
        tally.widen(REACH)?;
    }
    Ok(())
}
