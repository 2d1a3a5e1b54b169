//! Which headers are headers of files, and which are the next of which, by what is kept of them.
ghost use Rattle.std.specs.Prelude.{◌≡◌, ◌≢◌, ◌≤◌, ◌<◌, ◌+◌, ◌&&◌, ◌==◌, ◌↔◌, ℕ, true, not, length, slice_index, vec_len, IfOk, IsTrue};
ghost use Rattle.f11_index.specs.Table.{Table, IsNext, IsFile};
ghost use Rattle.f11_vfy.specs.Surveying.Bits.{has, limit_of};
ghost use Rattle.f11_vfy.specs.Chain.{IsFit, KeepsTable, NextsTo, IsClosed, points_at, IsSized, ShowsChains};
ghost use Rattle.f11_vfy.specs.Surveying.Count.{Shows, sum_to};
ghost use Rattle.f11_index.specs.Headers.{IsInFile};

use crate::survey::bits::Bits;
use crate::survey::slot::{Slot, State};
use crate::survey::tally::Tally;
use f11_bytes::NoMemory;
use f11_chain::MOST_HEADERS;
use std::alloc::Global;

/// What the links of a volume's headers say.
#[derive(Drop)]
pub struct Chains {
    /// The number of the next header of slot `n`, at `n - 1`; 0 for none.
    pub(crate) nexts: Vec<u16>,
    /// The headers of files.
    pub(crate) in_file: Bits,
    /// How often headers of files link to each header.
    pub(crate) linked: Tally,
}

/// Finds the headers of files, and their next ones, by what is kept of the slots, from slot 1 on. It takes two bytes and three bits a
/// slot.
///
/// # Errors
///
/// `NoMemory` where there is no memory for them.
pub fn find_chains(alloc: Global, slots: &[Slot]) -> Result<Chains, NoMemory>
    requires few { length slots.now < 65536 }
    ensures sized { IfOk result (λ chains. IsSized chains (length slots.now)) }
    ensures shows { IfOk result (λ chains. (t : Table) → KeepsTable t slots.now
        → ShowsChains t chains) }
{
    let nexts = nexts_of(alloc, slots)?;
    let in_file = mark_files(alloc, slots, &nexts)?;
    let linked = tally_nexts(alloc, &in_file, &nexts)?;
    Ok(Chains {
        nexts,
        in_file,
        linked,
    })
}

/// Whether a header is the next of another that links to its number: it is live, has the link's sequence number, and a segment number
/// one more.
fn follows(from: &Slot, to: &Slot) -> bool
    ensures { IsTrue result ↔ ((to.now.state ≡ State.Live)
        × (from.now.link.sequence ≡ to.now.sequence)
        × (to.now.segment ≡ from.now.segment + 1)) }
{
    to.is_live()
        && from.link.sequence == to.sequence
        && u16::from(to.segment) == u16::from(from.segment) + 1
}

/// The number of the next header of slot `k + 1`, 0 for none.
fn next_of(slots: &[Slot], k: usize) -> u16
    requires { k < length slots.now }
    ensures range { result ≤ length slots.now }
    ensures some { (t : Table) → KeepsTable t slots.now → result ≢ 0 → IsNext t (k + 1) result }
    ensures all { (t : Table) → (m : ℕ) → KeepsTable t slots.now → IsNext t (k + 1) m → result ≡ m }
{
    let from = slots[k];
    let m = usize::from(from.link.number);
    if !from.is_live() || m == 0 || m > slots.len() {
        return 0;
    }
    if follows(&from, &slots[m - 1]) {
        from.link.number
    } else {
        0
    }
}

/// The number of the next header of each slot, 0 for none.
fn nexts_of(alloc: Global, slots: &[Slot]) -> Result<Vec<u16>, NoMemory>
    ensures count { IfOk result (λ nexts. vec_len nexts ≡ length slots.now) }
    ensures range { IfOk result (λ nexts. (k : ℕ) → slice_index nexts.items k ≤ length slots.now) }
    ensures nexts { IfOk result (λ nexts. (t : Table) → KeepsTable t slots.now
        → NextsTo t nexts.items t.slots) }
{
    let mut nexts = Vec::new(alloc);
    nexts.try_reserve(slots.len())?;
    for k in 0..slots.len() {
        nexts.push(next_of(slots, k))?;
    }
    Ok(nexts)
}

/// Marks the headers of the file that begins at `first`.
fn walk(nexts: &[u16], marked: &mut Bits, first: u32)
    requires first { first ≤ length nexts.now }
    requires range { (k : ℕ) → slice_index nexts.now k ≤ length nexts.now }
    requires limit { limit_of marked.old ≡ length nexts.now + 1 }
    ensures limit { limit_of marked.new ≡ limit_of marked.old }
    ensures closed { (t : Table) → IsFit t → NextsTo t nexts.now t.slots → IsFile t first
        → IsClosed t marked.old → IsClosed t marked.new }
    ensures kept { (k : ℕ) → has marked.old k ≡ true → has marked.new k ≡ true }
    ensures marked { 1 ≤ first → has marked.new first ≡ true }
{
    let mut n = first;
    for _ in 0..MOST_HEADERS {
        if n == 0 || marked.contains(n) {
            return;
        }
        marked.insert(n);
        n = u32::from(nexts[n as usize - 1]);
    }
}

/// The headers of all files.
fn mark_files(alloc: Global, slots: &[Slot], nexts: &[u16]) -> Result<Bits, NoMemory>
    requires few { length nexts.now < 65536 }
    requires count { length nexts.now ≡ length slots.now }
    requires range { (k : ℕ) → slice_index nexts.now k ≤ length nexts.now }
    ensures limit { IfOk result (λ marked. limit_of marked ≡ length nexts.now + 1) }
    ensures marked { IfOk result (λ marked. (t : Table) → KeepsTable t slots.now
        → NextsTo t nexts.now t.slots → (n : ℕ) → has marked n ≡ true ↔ IsInFile t n) }
{
    let mut marked = Bits::new(alloc, nexts.len() as u32 + 1)?;
    for k in 0..nexts.len() {
        if slots[k].is_file() {
            walk(nexts, &mut marked, k as u32 + 1);
        }
    }
    Ok(marked)
}

/// How often headers of files link to each header.
fn tally_nexts(alloc: Global, in_file: &Bits, nexts: &[u16]) -> Result<Tally, NoMemory>
    requires few { length nexts.now < 65536 }
    requires limit { limit_of in_file.now ≡ length nexts.now + 1 }
    requires range { (k : ℕ) → slice_index nexts.now k ≤ length nexts.now }
    ensures limit { IfOk result (λ tally. limit_of tally.once ≡ length nexts.now + 1) }
    ensures shows { IfOk result (λ tally.
        Shows tally (λ m. sum_to (λ k. points_at in_file.now nexts.now k m) (length nexts.now))) }
{
    let mut tally = Tally::new(alloc, nexts.len() as u32 + 1)?;
    for k in 0..nexts.len() {
        if links(in_file, nexts, k) {
            tally.mark(u32::from(nexts[k]));
        }
    }
    Ok(tally)
}

/// Whether header `k + 1` is one of a file and has a next one.
fn links(in_file: &Bits, nexts: &[u16], k: usize) -> bool
    requires few { length nexts.now < 65536 }
    requires slot { k < length nexts.now }
    requires limit { limit_of in_file.now ≡ length nexts.now + 1 }
    ensures { result ≡ (has in_file.now (k + 1) && not (slice_index nexts.now k == 0)) }
{
    in_file.contains(k as u32 + 1) && nexts[k] != 0
}
