//! A file's blocks by virtual block number (VBN), and its last header.
ghost use Rattle.std.specs.Prelude.{◌≡◌, ◌<◌, ◌≤◌, ◌+◌, ℕ, length, IfOk, IsErrOf, IsTrue, MatchOption};
ghost use Rattle.f11_chain.specs.Calls.{table, HoldsFirst, HoldsHeader, IsHeaderAt, Locates, Seeks, FindsEnd, FindsDamage, FindsBreak, FailsAlong, HasBlockAt, ReadsLast};
ghost use Rattle.f11_chain.specs.Windows.{FindsWindow};
ghost use Rattle.f11_index.specs.header.Header.{holds_header};
ghost use Rattle.f11_index.specs.map.HeaderBlock.{segment_number};
ghost use Rattle.f11_index.specs.IndexFile.{slots};
ghost use Rattle.f11_index.specs.Kept.{index_kept, IndexLiesWithin};

use crate::fault::ChainFault;
use crate::step::{first, next, read_header};
use crate::windows::{Window, window_at};
use f11_dev::Device;
use f11_index::IndexFile;
use f11_index::f11_bytes::{BLOCK_SIZE, Block};
use f11_index::f11_map::in_hand::{lbn_of, len_blocks, segment};

/// How many headers a file has at most (profile).
pub const MOST_HEADERS: u16 = 256;

/// The LBN of block `vbn`, from 1, of file `n`, a slot from 1 to the number of slots. It reads the file's headers up to the one that
/// names the block, each once.
///
/// # Errors
///
/// `EndOfFile` where the file has fewer blocks; `Damaged` where one of its headers or links, or the block's place, isn't as it
/// should be; `DeviceFault` where a transfer failed.
pub fn locate<D: Device>(
    device: &mut D,
    index: &IndexFile,
    n: u16,
    vbn: u32,
) -> Result<u32, ChainFault>
    requires slot { (0 < n) × (n ≤ slots (index_kept index.now)) }
    requires some { 0 < vbn }
    requires within { IndexLiesWithin (index_kept index.now) (length (D.disk device.old).image) }
    ensures locates { IfOk result (λ lbn.
        Locates (index_kept index.now) n vbn lbn (D.disk device.old) (D.disk device.new)) }
    ensures end { IsErrOf result ChainFault.EndOfFile
        → FindsEnd (index_kept index.now) n 0 vbn (D.disk device.old) (D.disk device.new) }
    ensures damaged { IsErrOf result ChainFault.Damaged
        → FindsDamage (index_kept index.now) n (D.disk device.old) (D.disk device.new) }
    ensures failed { IsErrOf result ChainFault.DeviceFault
        → FailsAlong (index_kept index.now) n 0 (D.disk device.old) (D.disk device.new) }
{
    let mut block = [0; BLOCK_SIZE];
    first(device, index, n, &mut block)?;
    let place = seek(device, index, n, vbn - 1, &mut block)?;
    match block_at(&block, place.left, device.blocks()) {
        Some(lbn) => Ok(lbn),
        None => Err(ChainFault::Damaged),
    }
}

/// The LBN of block number `left`, from 0, of those that the header in the block names; `None` where it isn't on a device of so many
/// blocks, or the header names no more.
pub fn block_at(block: &Block, left: u32, blocks: u32) -> Option<u32>
    requires header { IsTrue (holds_header block.now) }
    ensures { MatchOption result ((lbn : ℕ) → ¬ HasBlockAt block.now left blocks lbn)
        (HasBlockAt block.now left blocks) }
{
    let lbn = lbn_of(block, left)?;
    if lbn < blocks { Some(lbn) } else { None }
}

/// The window of block `vbn`, from 1, of file `n`, a slot from 1 to the number of slots: the pointer that names the block, and those that
/// follow it in its header, seven at most. It reads the file's headers up to that one, each once.
///
/// # Errors
///
/// `EndOfFile` where the file has fewer blocks; `Damaged` where one of its headers or links, or the place of a block in the window, isn't
/// as it should be; `DeviceFault` where a transfer failed.
pub fn window<D: Device>(
    device: &mut D,
    index: &IndexFile,
    n: u16,
    vbn: u32,
) -> Result<Window, ChainFault>
    requires slot { (0 < n) × (n ≤ slots (index_kept index.now)) }
    requires some { 0 < vbn }
    requires within { IndexLiesWithin (index_kept index.now) (length (D.disk device.old).image) }
    ensures finds { IfOk result (λ window.
        FindsWindow (index_kept index.now) n vbn window (D.disk device.old) (D.disk device.new)) }
    ensures end { IsErrOf result ChainFault.EndOfFile
        → FindsEnd (index_kept index.now) n 0 vbn (D.disk device.old) (D.disk device.new) }
    ensures damaged { IsErrOf result ChainFault.Damaged
        → FindsDamage (index_kept index.now) n (D.disk device.old) (D.disk device.new) }
    ensures failed { IsErrOf result ChainFault.DeviceFault
        → FailsAlong (index_kept index.now) n 0 (D.disk device.old) (D.disk device.new) }
{
    let mut block = [0; BLOCK_SIZE];
    first(device, index, n, &mut block)?;
    let place = seek(device, index, n, vbn - 1, &mut block)?;
    match window_at(&block, place.left, vbn, device.blocks()) {
        Some(window) => Ok(window),
        None => Err(ChainFault::Damaged),
    }
}

/// Where a block of a file is named.
#[derive(Clone, Copy, Debug, PartialEq, Eq)]
pub struct Place {
    /// The number of the header that names it.
    pub number: u16,
    /// That header's segment number: so many headers of the file are before it.
    pub segment: u8,
    /// Which of the blocks that it names it is, from 0.
    pub left: u32,
}

/// A header of a file, and how many of the file's blocks the headers before it name.
#[derive(Clone, Copy, Debug, PartialEq, Eq)]
pub struct HeaderAt {
    /// The number of the file.
    pub file: u16,
    /// That of the header.
    pub number: u16,
    /// How many blocks the headers before it name.
    pub before: u32,
}

/// Goes from the first header of file `n`, which the block holds, to the one that names block number `at` of the file, from 0: that
/// header is in the block then. It reads the headers behind the first up to that one, each once.
///
/// # Errors
///
/// `EndOfFile` where the file has no more than `at` blocks; `Damaged` where one of its headers or links isn't as it should be;
/// `DeviceFault` where a transfer failed. What the block holds then is open.
pub fn seek<D: Device>(
    device: &mut D,
    index: &IndexFile,
    n: u16,
    at: u32,
    block: &mut Block,
) -> Result<Place, ChainFault>
    requires first { HoldsFirst (index_kept index.now) n block.old (D.disk device.old) }
    requires within { IndexLiesWithin (index_kept index.now) (length (D.disk device.old).image) }
    ensures seeks { IfOk result (λ place. Seeks (index_kept index.now) n 1 at place block.new
        (D.disk device.old) (D.disk device.new)) }
    ensures end { IsErrOf result ChainFault.EndOfFile
        → FindsEnd (index_kept index.now) n 1 (at + 1) (D.disk device.old) (D.disk device.new) }
    ensures damaged { IsErrOf result ChainFault.Damaged
        → FindsBreak (index_kept index.now) n 1 (D.disk device.old) (D.disk device.new) }
    ensures failed { IsErrOf result ChainFault.DeviceFault
        → FailsAlong (index_kept index.now) n 1 (D.disk device.old) (D.disk device.new) }
{
    let first = HeaderAt {
        file: n,
        number: n,
        before: 0,
    };
    go_on(device, index, &first, at, block)
}

/// Goes from a header of a file, which the block holds, to the one that names block number `at` of the file, from 0, as [`seek`] does.
///
/// # Errors
///
/// Those of [`seek`].
fn go_on<D: Device>(
    device: &mut D,
    index: &IndexFile,
    from: &HeaderAt,
    at: u32,
    block: &mut Block,
) -> Result<Place, ChainFault>
    requires header { HoldsHeader (index_kept index.now) from.now.number block.old
        (D.disk device.old) }
    requires is_at { IsTrue (D.disk device.old).honest
        → IsHeaderAt (table (index_kept index.now) (D.disk device.old)) from.now }
    requires behind { from.now.before ≤ at }
    requires within { IndexLiesWithin (index_kept index.now) (length (D.disk device.old).image) }
    ensures seeks { IfOk result (λ place. Seeks (index_kept index.now) from.now.file 1 at place
        block.new (D.disk device.old) (D.disk device.new)) }
    ensures near { IfOk result (λ place. (D.disk device.new).transfers + segment_number block.old
        ≤ (D.disk device.old).transfers + place.segment) }
    ensures end { IsErrOf result ChainFault.EndOfFile
        → FindsEnd (index_kept index.now) from.now.file 1 (at + 1)
        (D.disk device.old) (D.disk device.new) }
    ensures damaged { IsErrOf result ChainFault.Damaged
        → FindsBreak (index_kept index.now) from.now.file 1
        (D.disk device.old) (D.disk device.new) }
    ensures failed { IsErrOf result ChainFault.DeviceFault
        → FailsAlong (index_kept index.now) from.now.file 1
        (D.disk device.old) (D.disk device.new) }
{
    let (mut number, mut left) = (from.number, at - from.before);
    for _ in 0..MOST_HEADERS {
        let named = len_blocks(block);
        if left < named {
            return Ok(Place {
                number,
                segment: segment(block),
                left,
            });
        }
        left -= named;
        let Some(to) = next(device, index, block)? else {
            return Err(ChainFault::EndOfFile);
        };
        number = to;
    }
    Err(ChainFault::Damaged)
}

/// Reads a header of a file into the block, and goes on from there to the one that names block number `at` of the file, from 0, none of
/// those before it: that header is in the block then. It reads the headers from the first of both to the second, each once.
///
/// # Errors
///
/// Those of [`seek`].
pub fn seek_on<D: Device>(
    device: &mut D,
    index: &IndexFile,
    from: &HeaderAt,
    at: u32,
    block: &mut Block,
) -> Result<Place, ChainFault>
    requires is_at { IsTrue (D.disk device.old).honest
        → IsHeaderAt (table (index_kept index.now) (D.disk device.old)) from.now }
    requires behind { from.now.before ≤ at }
    requires within { IndexLiesWithin (index_kept index.now) (length (D.disk device.old).image) }
    ensures seeks { IfOk result (λ place. Seeks (index_kept index.now) from.now.file 0 at place
        block.new (D.disk device.old) (D.disk device.new)) }
    ensures near { IfOk result (λ place. IsTrue (D.disk device.old).honest
        → (D.disk device.new).transfers + segment_number
        ((table (index_kept index.now) (D.disk device.old)).header from.now.number)
        ≤ (D.disk device.old).transfers + place.segment + 1) }
    ensures end { IsErrOf result ChainFault.EndOfFile
        → FindsEnd (index_kept index.now) from.now.file 0 (at + 1)
        (D.disk device.old) (D.disk device.new) }
    ensures damaged { IsErrOf result ChainFault.Damaged
        → FindsBreak (index_kept index.now) from.now.file 0
        (D.disk device.old) (D.disk device.new) }
    ensures failed { IsErrOf result ChainFault.DeviceFault
        → FailsAlong (index_kept index.now) from.now.file 0
        (D.disk device.old) (D.disk device.new) }
{
    if !read_header(device, index, from.number, block)? {
        return Err(ChainFault::Damaged);
    }
    go_on(device, index, from, at, block)
}

/// Where a file ends.
#[derive(Clone, Copy, Debug, PartialEq, Eq)]
pub struct FileEnd {
    /// The number of its last header.
    pub number: u16,
    /// How many headers it has, 1 to 256.
    pub headers: u16,
    /// How many blocks it has.
    pub blocks: u32,
}

/// Reads the last header of file `n`, a slot from 1 to the number of slots, into the block, and gives its number, the number of the
/// file's headers and that of its blocks. It reads each header of the file once.
///
/// # Errors
///
/// `Damaged` where one of its headers or links isn't as it should be; `DeviceFault` where a transfer failed. What the block holds
/// then is open.
pub fn last<D: Device>(
    device: &mut D,
    index: &IndexFile,
    n: u16,
    block: &mut Block,
) -> Result<FileEnd, ChainFault>
    requires slot { (0 < n) × (n ≤ slots (index_kept index.now)) }
    requires within { IndexLiesWithin (index_kept index.now) (length (D.disk device.old).image) }
    ensures reads { IfOk result (λ last. ReadsLast (index_kept index.now) n 0 last block.new
        (D.disk device.old) (D.disk device.new)) }
    ensures damaged { IsErrOf result ChainFault.Damaged
        → FindsBreak (index_kept index.now) n 0 (D.disk device.old) (D.disk device.new) }
    ensures failed { IsErrOf result ChainFault.DeviceFault
        → FailsAlong (index_kept index.now) n 0 (D.disk device.old) (D.disk device.new) }
    ensures no_end { ¬ IsErrOf result ChainFault.EndOfFile }
{
    first(device, index, n, block)?;
    last_from(device, index, n, block)
}

/// Goes from the first header of file `n`, which the block holds, to its last one, as [`last`] does: it reads the headers behind the
/// first, each once.
///
/// # Errors
///
/// As those of [`last`].
pub fn last_from<D: Device>(
    device: &mut D,
    index: &IndexFile,
    n: u16,
    block: &mut Block,
) -> Result<FileEnd, ChainFault>
    requires first { HoldsFirst (index_kept index.now) n block.old (D.disk device.old) }
    requires within { IndexLiesWithin (index_kept index.now) (length (D.disk device.old).image) }
    ensures reads { IfOk result (λ last. ReadsLast (index_kept index.now) n 1 last block.new
        (D.disk device.old) (D.disk device.new)) }
    ensures damaged { IsErrOf result ChainFault.Damaged
        → FindsBreak (index_kept index.now) n 1 (D.disk device.old) (D.disk device.new) }
    ensures failed { IsErrOf result ChainFault.DeviceFault
        → FailsAlong (index_kept index.now) n 1 (D.disk device.old) (D.disk device.new) }
    ensures no_end { ¬ IsErrOf result ChainFault.EndOfFile }
{
    let (mut number, mut blocks) = (n, 0);
    for earlier in 0..MOST_HEADERS {
        blocks += len_blocks(block);
        let Some(m) = next(device, index, block)? else {
            return Ok(FileEnd {
                number,
                headers: earlier + 1,
                blocks,
            });
        };
        number = m;
    }
    Err(ChainFault::Damaged)
}
