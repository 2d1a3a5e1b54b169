//! Candidates for the home block that are blocks of file 3.
ghost use Rattle.std.specs.Prelude.{◌≡◌, ◌↔◌, ℕ, ◌<◌, ◌≤◌, ◌^◌, true, length, Contains, IsTrue, IfOk, IsErrOf, OnOk, OnErr};
ghost use Rattle.f11_dev.specs.Looked.{Looked};
ghost use Rattle.f11_header.specs.Header.{holds_header};
ghost use Rattle.f11_home.specs.Home.{candidate};
ghost use Rattle.f11_map.specs.HeaderBlock.{blocks_named};
ghost use Rattle.f11_index.specs.Kept.{index_kept, IndexLiesWithin};
ghost use Rattle.f11_vfy.specs.Surveying.Bits.{has, limit_of};
ghost use Rattle.f11_vfy.specs.Frames.Earlier.{Puts, PutsNamed, JudgesEarlier};

use crate::fault::ReadFault;
use crate::survey::bits::Bits;
use f11_bytes::{BLOCK_SIZE, Block};
use f11_chain::{ChainFault, MOST_HEADERS, first, next};
use f11_dev::{Device, DeviceFault};
use f11_home::candidate_count;
use f11_index::IndexFile;
use f11_map::in_hand::map;
use std::alloc::Global;

/// The file of which each candidate before the home block is a block, file 3.
const FILE: u16 = 3;

/// Whether each candidate for the home block before this LBN is a block of file 3. It reads the file's headers, each once at most, as far
/// as they link rightly, and takes a bit a candidate; where there is no candidate it does neither.
///
/// # Errors
///
/// `DeviceFault` where a transfer failed; `NoMemory` where there was no memory for the candidates.
pub(crate) fn are_earlier_named<D: Device>(
    alloc: Global,
    device: &mut D,
    index: &IndexFile,
    lbn: u32,
) -> Result<bool, ReadFault>
    requires within { IndexLiesWithin (index_kept index.now) (length (D.disk device.old).image) }
    ensures judges { IfOk result (λ named.
        JudgesEarlier (index_kept index.now) lbn named (D.disk device.old) (D.disk device.new)) }
    ensures failed { IsErrOf result ReadFault.DeviceFault
        → Looked (D.disk device.old) (D.disk device.new) 256 1 }
    ensures no_memory { IsErrOf result ReadFault.NoMemory
        → Looked (D.disk device.old) (D.disk device.new) 0 0 }
{
    let count = candidate_count(lbn);
    if count == 0 {
        return Ok(true);
    }
    let mut named = Bits::new(alloc, count)?;
    put_named(device, index, &mut named)?;
    Ok(has_all(&named))
}

/// Puts the numbers of the candidates that headers of file 3 name into the set.
fn put_named<D: Device>(
    device: &mut D,
    index: &IndexFile,
    named: &mut Bits,
) -> Result<(), DeviceFault>
    requires within { IndexLiesWithin (index_kept index.now) (length (D.disk device.old).image) }
    ensures limit { limit_of named.new ≡ limit_of named.old }
    ensures puts { OnOk result (PutsNamed (index_kept index.now) named.old named.new
        (D.disk device.old) (D.disk device.new)) }
    ensures failed { OnErr result (Looked (D.disk device.old) (D.disk device.new) 256 1) }
{
    let mut block = [0; BLOCK_SIZE];
    match first(device, index, FILE, &mut block) {
        Ok(()) => {}
        Err(ChainFault::Damaged) => return Ok(()),
        Err(_) => return Err(DeviceFault),
    }
    for _ in 0..MOST_HEADERS {
        put_header(named, &block);
        match next(device, index, &mut block) {
            Ok(Some(_)) => {}
            Ok(None) => return Ok(()),
            Err(ChainFault::Damaged) => return Ok(()),
            Err(_) => return Err(DeviceFault),
        }
    }
    Ok(())
}

/// Puts the numbers of the candidates that a header names into the set.
fn put_header(named: &mut Bits, block: &Block)
    requires header { IsTrue (holds_header block.now) }
    ensures puts { Puts (λ k. Contains (blocks_named block.now) (candidate k))
        named.old named.new }
{
    let map = map(block);
    for i in 0..map.runs() {
        let (lbn, count) = map.run(i);
        put_range(named, lbn, lbn + count);
    }
}

/// Puts the numbers of the candidates from LBN `lbn` on, before `end`, into the set.
fn put_range(named: &mut Bits, lbn: u32, end: u32)
    ensures puts { Puts (λ k. (lbn ≤ candidate k) × (candidate k < end)) named.old named.new }
{
    for k in candidate_count(lbn)..candidate_count(end).min(named.limit()) {
        named.insert(k);
    }
}

/// Whether each number below the limit is in the set.
fn has_all(set: &Bits) -> bool
    ensures { IsTrue result ↔ ((k : ℕ) → k < limit_of set.now → has set.now k ≡ true) }
{
    for k in 0..set.limit() {
        if !set.contains(k) {
            return false;
        }
    }
    true
}
