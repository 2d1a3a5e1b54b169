//! Retrieval pointers of a header in hand: a block that holds a header, valid or valid but for its check word. What changes
//! it seals it again, so it is a valid header then.
ghost use Rattle.std.specs.Prelude.{◌≡◌, ◌↔◌, ◌+◌, ◌-◌, ◌<◌, ◌≤◌, ◌^◌, ◌++◌, false, length, take, IsTrue, IsOk, IsErr, OnOk};
ghost use Rattle.std.specs.List.{range_with_len, slice_get};
ghost use Rattle.f11_header.specs.Fields.{map_area};
ghost use Rattle.f11_header.specs.MapFields.{IsMapArea, places};
ghost use Rattle.f11_header.specs.Header.{holds_header};
ghost use Rattle.f11_map.specs.HeaderBlock.{segment_number, link_of, blocks_named};
ghost use Rattle.f11_map.specs.InHand.{AppendsBlocks, AppendsRuns, CutsBlocks, SetsLink};
ghost use Rattle.f11_map.specs.Map.{area_of};
ghost use Rattle.f11_map.specs.MapArea.{runs_of, blocks_of};
ghost use Rattle.f11_map.specs.MapWriting.{joins_last, with_blocks, fewest_runs, cut_to, WritesPointers, WritesLink};
ghost use Rattle.f11_header.specs.store.File.{run_pointers};

use crate::map::Map;
use crate::map_mut::{MapFull, MapMut};
use f11_header::f11_bytes::Block;
use f11_header::f11_store::FileId;
use f11_header::{Header, HeaderMut};

/// The retrieval pointers of the header, to be read.
pub fn map(block: &Block) -> Map<'_>
    requires { IsTrue (holds_header block.now) }
    ensures { area_of result ≡ map_area block.now }
{
    Map::of(&Header::new(block))
}

/// The segment number of the header: which part of its file's map it has, 0 in the file's first header.
#[tactic(auto, unfolding(crate::specs::HeaderBlock::segment_number))]
pub fn segment(block: &Block) -> u8
    requires { IsTrue (holds_header block.now) }
    ensures { result ≡ segment_number block.now }
{
    map(block).segment()
}

/// The header's link to its file's next one; number 0 is none.
#[tactic(auto, unfolding(crate::specs::HeaderBlock::link_of))]
pub fn link(block: &Block) -> FileId
    requires { IsTrue (holds_header block.now) }
    ensures { result ≡ link_of block.now }
{
    map(block).link()
}

/// How many blocks the header names: 127 pointers of 256 blocks at most.
#[tactic(auto, unfolding(crate::specs::HeaderBlock::blocks_named))]
pub fn len_blocks(block: &Block) -> u32
    requires { IsTrue (holds_header block.now) }
    ensures count { result ≡ length (blocks_named block.now) }
    ensures few { result ≤ 32512 }
{
    map(block).len_blocks()
}

/// The LBN of block number `place`, from 0, of those that the header names; `None` where it names no more.
#[tactic(auto, unfolding(crate::specs::HeaderBlock::blocks_named))]
pub fn lbn_of(block: &Block, place: u32) -> Option<u32>
    requires { IsTrue (holds_header block.now) }
    ensures { result ≡ slice_get (blocks_named block.now) place }
{
    map(block).lbn_of(place)
}

/// Adds `count` blocks, 1 to 256, from LBN `lbn` on, below 16,777,216, to those of the header, as [`MapMut::append`] does, and
/// seals it.
///
/// # Errors
///
/// [`MapFull`] where they don't join the last pointer and no place is left; then the block is as it was.
#[tactic(auto, using(f11_header::proofs::HeaderFacts::map_within))]
pub fn append(block: &mut Block, lbn: u32, count: u32) -> Result<(), MapFull>
    requires header { IsTrue (holds_header block.old) }
    requires lbn { lbn < 2 ^ 24 }
    requires count { (0 < count) × (count ≤ 256) }
    ensures ok { OnOk result (AppendsBlocks block.old block.new lbn count) }
    ensures full { IsErr result
        ↔ ((places (map_area block.old) ≡ length (runs_of (map_area block.old)))
        × (joins_last (runs_of (map_area block.old)) lbn count ≡ false)) }
    ensures unchanged { IsErr result → block.new ≡ block.old }
{
    let mut header = HeaderMut::new(block);
    append_to(header.map_mut(), lbn, count)?;
    header.seal();
    Ok(())
}

/// Adds `count` blocks, however many, from LBN `lbn` on, all below 16,777,216, to those of the header, as
/// [`MapMut::append_runs`] does, by the fewest pointers, all of them new; and seals it.
///
/// # Errors
///
/// [`MapFull`] where fewer places are left than those take; then the block is as it was.
#[tactic(auto, using(f11_header::proofs::HeaderFacts::map_within))]
pub fn append_runs(block: &mut Block, lbn: u32, count: u32) -> Result<(), MapFull>
    requires header { IsTrue (holds_header block.old) }
    requires lbns { lbn + count ≤ 2 ^ 24 }
    ensures ok { OnOk result (AppendsRuns block.old block.new lbn count) }
    ensures full { IsErr result
        ↔ places (map_area block.old) - length (runs_of (map_area block.old)) < run_pointers count }
    ensures unchanged { IsErr result → block.new ≡ block.old }
{
    let mut header = HeaderMut::new(block);
    append_runs_to(header.map_mut(), lbn, count)?;
    header.seal();
    Ok(())
}

/// Keeps the first `place` blocks of those of the header, as [`MapMut::cut`] does, and seals it.
#[tactic(auto, using(f11_header::proofs::HeaderFacts::map_within))]
pub fn cut(block: &mut Block, place: u32)
    requires header { IsTrue (holds_header block.old) }
    ensures cuts { CutsBlocks block.old block.new place }
{
    let mut header = HeaderMut::new(block);
    cut_to(header.map_mut(), place);
    header.seal();
}

/// Sets the next header of the file, as [`MapMut::set_link`] does, and seals the header.
#[tactic(auto, using(f11_header::proofs::HeaderFacts::map_within))]
pub fn set_link(block: &mut Block, id: FileId)
    requires header { IsTrue (holds_header block.old) }
    ensures sets { SetsLink block.old block.new id }
{
    let mut header = HeaderMut::new(block);
    link_to(header.map_mut(), id);
    header.seal();
}

/// Adds blocks to those that a map area names.
fn append_to(area: &mut [u8], lbn: u32, count: u32) -> Result<(), MapFull>
    requires is_map { IsMapArea area.old }
    requires lbn { lbn < 2 ^ 24 }
    requires count { (0 < count) × (count ≤ 256) }
    ensures pointers { IsOk result → runs_of area.new ≡ with_blocks (runs_of area.old) lbn count }
    ensures blocks { IsOk result → blocks_of area.new
        ≡ blocks_of area.old ++ range_with_len lbn count }
    ensures full { IsErr result ↔ ((places area.old ≡ length (runs_of area.old))
        × (joins_last (runs_of area.old) lbn count ≡ false)) }
    ensures unchanged { IsErr result → area.new ≡ area.old }
    ensures rest { WritesPointers area.old area.new }
{
    MapMut::new(area).append(lbn, count)
}

/// Adds pointers to those of a map area.
fn append_runs_to(area: &mut [u8], lbn: u32, count: u32) -> Result<(), MapFull>
    requires is_map { IsMapArea area.old }
    requires lbns { lbn + count ≤ 2 ^ 24 }
    ensures pointers { IsOk result → runs_of area.new ≡ runs_of area.old ++ fewest_runs lbn count }
    ensures blocks { IsOk result → blocks_of area.new
        ≡ blocks_of area.old ++ range_with_len lbn count }
    ensures full { IsErr result
        ↔ places area.old - length (runs_of area.old) < run_pointers count }
    ensures unchanged { IsErr result → area.new ≡ area.old }
    ensures rest { WritesPointers area.old area.new }
{
    MapMut::new(area).append_runs(lbn, count)
}

/// Keeps the first blocks of those that a map area names.
fn cut_to(area: &mut [u8], place: u32)
    requires is_map { IsMapArea area.old }
    ensures pointers { runs_of area.new ≡ cut_to (runs_of area.old) place }
    ensures blocks { blocks_of area.new ≡ take place (blocks_of area.old) }
    ensures rest { WritesPointers area.old area.new }
{
    MapMut::new(area).cut(place);
}

/// Sets the link of a map area.
fn link_to(area: &mut [u8], id: FileId)
    requires is_map { IsMapArea area.old }
    ensures link { WritesLink area.old area.new id }
    ensures pointers { runs_of area.new ≡ runs_of area.old }
{
    MapMut::new(area).set_link(id);
}
