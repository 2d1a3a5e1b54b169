//! Reading the headers of an index file, one after another.
ghost use Rattle.std.specs.Prelude.{◌≡◌, ◌+◌, ◌*◌, ◌<◌, ◌≤◌, ◌^◌, ◌↔◌, [], length, IsTrue, IfOk, IfErr, IsErrOf, OnOk};
ghost use Rattle.f11_dev.specs.Looked.{Looked};
ghost use Rattle.f11_home.specs.Home.{IsSound};
ghost use Rattle.f11_index.specs.IndexFault.{IfPast};
ghost use Rattle.f11_index.specs.IndexFile.{most_slots, index_of, bit_of_slot};
ghost use Rattle.f11_index.specs.Walk.{IsDue, IsNextDue, Steps, Misfits, Follows, Strays};
ghost use Rattle.f11_index.specs.Calls.{LooksAlong};

use crate::bits::is_slot_set;
use crate::blocks::Blocks;
use crate::fault::IndexFault;
use f11_bytes::{BLOCK_SIZE, Block};
use f11_dev::Device;
use f11_home::Home;
use f11_map::f11_header::{Header, check};
use f11_map::f11_store::FileId;
use f11_map::in_hand::map;

/// A header that is looked for.
#[derive(Clone, Copy)]
pub(crate) struct Due {
    lbn: u32,
    number: u16,
    sequence: u16,
}

/// Reads the headers of the index file from its first on, each once, and adds the blocks that they name.
///
/// # Errors
///
/// `Misplaced`, `DeviceFault` and `NoMemory`.
pub(crate) fn follow<D: Device>(
    device: &mut D,
    home: &Home,
    bitmap: &[Block],
    blocks: &mut Blocks,
) -> Result<(), IndexFault>
    requires home { IsSound home.now (length (D.disk device.old).image) }
    requires size { length bitmap.now ≡ home.now.index_blocks }
    requires bitmap { IsTrue (D.disk device.old).honest
        → bitmap.now ≡ (index_of (D.disk device.old).image home.now).bitmap }
    requires none { (blocks.old.places ≡ 0) × (blocks.old.headers.items ≡ []) }
    ensures follows { OnOk result
        (Follows home.now blocks.new (D.disk device.old) (D.disk device.new)) }
    ensures strays { IsErrOf result IndexFault.Misplaced
        → Strays home.now (D.disk device.old) (D.disk device.new) }
    ensures failed { IsErrOf result IndexFault.DeviceFault
        → LooksAlong home.now 0 (D.disk device.old) (D.disk device.new) 1 }
    ensures memory { IsErrOf result IndexFault.NoMemory
        → LooksAlong home.now 0 (D.disk device.old) (D.disk device.new) 0 }
    ensures never { IfErr result (λ fault. IfPast fault (λ _. ⊥)) }
{
    let mut due = Due {
        lbn: home.index_lbn() + u32::from(home.index_blocks()),
        number: 1,
        sequence: 1,
    };
    for segment in 0..256 {
        let Some(next) = step(device, home, bitmap, blocks, due, segment)? else {
            return Ok(());
        };
        due = next;
    }
    Err(IndexFault::Misplaced)
}

/// Reads one header, of this segment, and adds the blocks that it names: the header that it links to, `None` where it is
/// the last.
fn step<D: Device>(
    device: &mut D,
    home: &Home,
    bitmap: &[Block],
    blocks: &mut Blocks,
    due: Due,
    segment: u16,
) -> Result<Option<Due>, IndexFault>
    requires lbn { due.lbn < length (D.disk device.old).image }
    requires number { (0 < due.number) × (due.number ≤ 4096 * length bitmap.now) }
    requires few { length blocks.old.headers.items ≤ most_slots home.now }
    requires places { blocks.old.places + 32512 < 2 ^ 32 }
    ensures steps { IfOk result (λ next. Steps home.now bitmap.now due segment
        blocks.old blocks.new next (D.disk device.old) (D.disk device.new)) }
    ensures misfits { IsErrOf result IndexFault.Misplaced → Misfits home.now bitmap.now due segment
        blocks.old (D.disk device.old) (D.disk device.new) }
    ensures failed { IsErrOf result IndexFault.DeviceFault
        → Looked (D.disk device.old) (D.disk device.new) 1 1 }
    ensures memory { IsErrOf result IndexFault.NoMemory
        → Looked (D.disk device.old) (D.disk device.new) 1 0 }
    ensures never { IfErr result (λ fault. IfPast fault (λ _. ⊥)) }
{
    let mut block = [0; BLOCK_SIZE];
    device.read(due.lbn, &mut block)?;
    if !is_header_due(bitmap, due, segment, &block) {
        return Err(IndexFault::Misplaced);
    }
    if !blocks.add(home, device.blocks(), &block)? {
        return Err(IndexFault::Misplaced);
    }
    next_due(&blocks.headers, map(&block).link())
}

/// Whether the block is the header that is looked for, of this segment.
fn is_header_due(bitmap: &[Block], due: Due, segment: u16, block: &Block) -> bool
    requires number { (0 < due.number) × (due.number ≤ 4096 * length bitmap.now) }
    ensures { IsTrue result ↔ IsDue bitmap.now due segment block.now }
{
    if !is_slot_set(bitmap, u32::from(due.number)) || check(block, due.number).is_err() {
        return false;
    }
    let header = Header::new(block);
    header.id().sequence == due.sequence && u16::from(header.segment()) == segment
}

/// The header that a link is to, where these are the LBNs of the headers; `None` where it is to none.
///
/// # Errors
///
/// `Misplaced` where it is to none of these headers.
fn next_due(headers: &[u32], link: FileId) -> Result<Option<Due>, IndexFault>
    ensures next { IfOk result (λ next. IsNextDue headers.now link next) }
    ensures misplaced { IfErr result (λ fault. (fault ≡ IndexFault.Misplaced)
        × (length headers.now < link.number)) }
{
    if link.number == 0 {
        return Ok(None);
    }
    let number = usize::from(link.number);
    if number > headers.len() {
        return Err(IndexFault::Misplaced);
    }
    Ok(Some(Due {
        lbn: headers[number - 1],
        number: link.number,
        sequence: link.sequence,
    }))
}
