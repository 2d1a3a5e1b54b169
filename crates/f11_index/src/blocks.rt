//! The blocks that the headers of an index file name, counted while the headers are read.
ghost use Rattle.std.specs.Prelude.{◌≡◌, ℕ, ◌+◌, ◌-◌, ◌<◌, ◌≤◌, ◌^◌, ◌↔◌, ◌++◌, [], min, length, IsTrue, IfOk, OnOk, vec_capacity};
ghost use Rattle.std.specs.List.{range_with_len};
ghost use Rattle.f11_map.specs.header.Header.{holds_header};
ghost use Rattle.f11_map.specs.HeaderBlock.{blocks_named};
ghost use Rattle.f11_index.specs.IndexFile.{most_slots};
ghost use Rattle.f11_index.specs.Walk.{lbn_due, first_place, FitFrom, AddsTo, AddsIf};

use f11_bytes::{BLOCK_BITS, Block, NoMemory};
use f11_home::Home;
use f11_map::in_hand::map;
use std::alloc::Global;

/// How many of the first headers have a place of their own, behind the index bitmap.
pub(crate) const FIRST_HEADERS: u32 = 16;

/// The blocks of an index file, as far as they are known: how many, and the LBNs of the headers among them.
#[derive(Drop)]
pub(crate) struct Blocks {
    pub(crate) places: u32,
    pub(crate) headers: Vec<u32>,
}

impl Blocks {
    /// None so far.
    pub(crate) fn new(alloc: Global) -> Blocks
        ensures { (result.places ≡ 0) × (result.headers.items ≡ []) }
    {
        Blocks {
            places: 0,
            headers: Vec::new(alloc),
        }
    }

    /// Adds the blocks that a header names; `false` where they don't fit, and then some of them may have been added.
    ///
    /// # Errors
    ///
    /// `NoMemory` where there is no memory for their LBNs.
    pub(crate) fn add(&mut self, home: &Home, end: u32, block: &Block) -> Result<bool, NoMemory>
        requires header { IsTrue (holds_header block.now) }
        requires few { length self.old.headers.items ≤ most_slots home.now }
        requires places { self.old.places + 32512 < 2 ^ 32 }
        ensures adds { IfOk result (λ fits.
            AddsIf fits home.now end (blocks_named block.now) self.old self.new) }
        ensures few { IfOk result (λ _. self.new.places ≤ self.old.places + 32512) }
    {
        let map = map(block);
        for i in 0..map.runs() {
            let (lbn, count) = map.run(i);
            if !self.fits(home, end, lbn, count) {
                return Ok(false);
            }
            self.keep(home, lbn, count)?;
        }
        Ok(true)
    }

    /// Whether these blocks may come behind those that are known.
    fn fits(&self, home: &Home, end: u32, lbn: u32, count: u32) -> bool
        requires some { 0 < count }
        requires lbns { lbn + count < 2 ^ 32 }
        requires places { self.now.places + count < 2 ^ 32 }
        ensures { IsTrue result
            ↔ FitFrom home.now end self.now.places (range_with_len lbn count) }
    {
        lbn + count <= end && are_due(home, self.places, lbn, count)
    }

    /// Adds these blocks.
    ///
    /// # Errors
    ///
    /// `NoMemory` where there is no memory for the LBNs of the headers among them.
    fn keep(&mut self, home: &Home, lbn: u32, count: u32) -> Result<(), NoMemory>
        requires few { length self.old.headers.items ≤ most_slots home.now }
        requires lbns { lbn + count < 2 ^ 32 }
        requires places { self.old.places + count < 2 ^ 32 }
        ensures { OnOk result (AddsTo home.now (range_with_len lbn count) self.old self.new) }
    {
        let first = 2 + u32::from(home.index_blocks());
        let skipped = first.saturating_sub(self.places).min(count);
        let left = most_slots(home) - self.headers.len() as u32;
        let more = left.min(count - skipped);
        make_room(&mut self.headers, more)?;
        push_run(&mut self.headers, lbn + skipped, more);
        self.places += count;
        Ok(())
    }
}

/// How many headers there can be: one for each bit of the index bitmap, and no more than a file number can tell.
pub(crate) fn most_slots(home: &Home) -> u32
    ensures { result ≡ most_slots home.now }
{
    (BLOCK_BITS * u32::from(home.index_blocks())).min(65535)
}

/// Whether these blocks are where they should be, those of them that are among the first of an index file.
fn are_due(home: &Home, place: u32, lbn: u32, count: u32) -> bool
    requires lbns { lbn + count < 2 ^ 32 }
    requires places { place + count < 2 ^ 32 }
    ensures { IsTrue result ↔ ((i : ℕ) → i < count → place + i < first_place home.now + 16
        → lbn + i ≡ lbn_due home.now (place + i)) }
{
    let end = 2 + u32::from(home.index_blocks()) + FIRST_HEADERS;
    for i in 0..count.min(end.saturating_sub(place)) {
        if !is_due(home, place + i, lbn + i) {
            return false;
        }
    }
    true
}

/// Whether this is where the block at this place of an index file should be, one of its first.
fn is_due(home: &Home, place: u32, lbn: u32) -> bool
    ensures { IsTrue result ↔ (lbn ≡ lbn_due home.now place) }
{
    match place {
        0 => lbn == 0,
        1 => lbn == home.lbn(),
        _ => u64::from(lbn) == u64::from(home.index_lbn()) + u64::from(place - 2),
    }
}

/// Makes room for `count` LBNs more, and for as many as there are, so that few calls take memory.
fn make_room(headers: &mut Vec<u32>, count: u32) -> Result<(), NoMemory>
    ensures kept { headers.new.items ≡ headers.old.items }
    ensures room { OnOk result (length headers.old.items + count ≤ vec_capacity headers.new) }
{
    let count = count as usize;
    if headers.capacity() - headers.len() < count {
        let more = headers.len().max(count);
        headers.try_reserve(more)?;
    }
    Ok(())
}

/// Puts the LBNs of `count` blocks from `lbn` on behind the others, for which there is room.
pub(crate) fn push_run(headers: &mut Vec<u32>, lbn: u32, count: u32)
    requires numbers { lbn + count ≤ 2 ^ 32 }
    requires room { length headers.old.items + count ≤ vec_capacity headers.old }
    ensures pushed { headers.new.items ≡ headers.old.items ++ range_with_len lbn count }
    ensures capacity { vec_capacity headers.new ≡ vec_capacity headers.old }
{
    for i in 0..count {
        headers.push_reserved(lbn + i);
    }
}
