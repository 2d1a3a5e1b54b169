//! Where the attributes of a file say that it ends, and how many blocks it has, and the name in its header.
ghost use Rattle.std.specs.Prelude.{◌≡◌, ◌==◌, ◌*◌, ◌≤◌, min};
ghost use Rattle.std.specs.Int.{bit_at};
ghost use Rattle.f11_store.specs.File.{most_blocks, stated_end};
ghost use Rattle.f11_making.specs.Plans.{blocks_to_end, is_directory_ident, is_directory_name, states_end, with_blocks, with_name};

use f11_bytes::{BLOCK_SIZE, long_bytes, put_bytes, read_long, read_word};
use f11_rad50::Name;
use f11_store::{Attr, ident_with};

/// The record type, a byte: 0 is none.
const TYPE: usize = 0;

/// F.HIBK, two words, the high one first: the blocks of the file.
const BLOCKS: usize = 4;

/// F.EFBK, two words, the high one first: the block that the end is in, from 1.
const END_BLOCK: usize = 8;

/// F.FFBY, a word: the byte in it.
const END_BYTE: usize = 12;

/// UC.DLK, the bit of H.UCHA that is set while a file is written.
const OPEN: u32 = 6;

/// SC.MDL, the bit of H.SCHA that marks a file for delete.
const MARKED: u32 = 15;

/// The type in the name at the front of an ident area, a word.
const NAME_TYPE: usize = 6;

/// The type of a directory's name, `DIR` in Radix-50 (Files-11 On-Disk Structure Level 1, "Directories").
const DIRECTORY_TYPE: u16 = 6778;

/// How many bytes the name has at the front of an ident area: five words.
const NAME_BYTES: usize = 10;

/// The end in bytes of a file of so many blocks (Files-11 On-Disk Structure Level 1, file attributes): as its attributes state it, but no
/// further than its blocks go.
#[tactic(auto, unfolding(f11_store::specs::File::stated_end))]
pub fn end(attr: &[u8; 32], allocation: u32) -> u32
    requires { allocation ≤ most_blocks }
    ensures { result ≡ min (stated_end attr.now) (512 * allocation) }
{
    let most = allocation * BLOCK_SIZE as u32;
    let block = u64::from(read_long(attr, END_BLOCK));
    if block == 0 {
        0
    } else {
        let stated = (block - 1) * BLOCK_SIZE as u64 + u64::from(read_word(attr, END_BYTE));
        stated.min(u64::from(most)) as u32
    }
}

/// How many blocks of a file of so many stand before its end, the one in which it is among them.
pub fn blocks_to_end(attr: &[u8; 32], allocation: u32) -> u32
    requires { allocation ≤ most_blocks }
    ensures { result ≡ blocks_to_end attr.now allocation }
{
    end(attr, allocation).div_ceil(BLOCK_SIZE as u32)
}

/// Whether a file states an end: its attributes name a type of records, and the block that the end is in, and it was closed since it was
/// written.
pub(crate) fn states_end(of: &Attr) -> bool
    ensures { result ≡ states_end of.now }
{
    of.attr[TYPE] > 0 && read_long(&of.attr, END_BLOCK) > 0 && of.characteristics >> OPEN & 1 == 0
}

/// Whether a file wasn't closed since it was written.
pub(crate) fn is_left_open(of: &Attr) -> bool
    ensures { result ≡ (bit_at of.now.characteristics 6 == 1) }
{
    of.characteristics >> OPEN & 1 == 1
}

/// Whether a file is marked for delete.
pub(crate) fn is_marked(of: &Attr) -> bool
    ensures { result ≡ (bit_at of.now.characteristics 15 == 1) }
{
    of.characteristics >> MARKED & 1 == 1
}

/// Whether it is the name of a directory.
pub fn is_directory_name(name: &Name) -> bool
    ensures { result ≡ is_directory_name name.now }
{
    name.words()[3] == DIRECTORY_TYPE
}

/// Whether the name at the front of an ident area is that of a directory.
pub(crate) fn is_directory_ident(ident: &[u8; 46]) -> bool
    ensures { result ≡ is_directory_ident ident.now }
{
    read_word(ident, NAME_TYPE) == DIRECTORY_TYPE
}

/// The attributes with so many blocks stated.
pub(crate) fn with_blocks(attr: &[u8; 32], blocks: u32) -> [u8; 32]
    ensures { result ≡ with_blocks attr.now blocks }
{
    let mut stated = *attr;
    put_bytes(&mut stated, BLOCKS, &long_bytes(blocks));
    stated
}

/// An ident area with another name at its front.
pub(crate) fn with_name(name: &Name, ident: &[u8; 46]) -> [u8; 46]
    ensures { result ≡ with_name name.now ident.now }
{
    let mut named = *ident;
    put_bytes(&mut named, 0, &ident_with(*name)[..NAME_BYTES]);
    named
}
