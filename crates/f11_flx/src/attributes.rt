//! What the attributes of a file say of its records, and those of a copy (Files-11 On-Disk Structure Level 1, file attributes).
ghost use Rattle.std.specs.Prelude.{◌≡◌, ◌+◌, ◌*◌, ◌/◌, ◌<◌, ◌≤◌, ◌∷◌, ◌++◌, min, length, replicate, IfSome};
ghost use Rattle.f11_bytes.specs.Words.{word_bytes as bytes_of_word, long_bytes as bytes_of_long};
ghost use Rattle.f11_store.specs.File.{File, length_of, most_blocks, stated_end};
ghost use Rattle.f11_store.specs.Directory.{with_end};
ghost use Rattle.f11_flx.specs.Records.{layout_of, some_of};
ghost use Rattle.f11_flx.specs.Spelled.{text_attributes as attributes_of_text, image_attributes as attributes_of_image, image_attributes_to as attributes_of_image_to, image_of};

use crate::layout::Layout;
use f11_bytes::{long_bytes, read_word, word_bytes};
use f11_making::blocks_to_end;

/// The most blocks that a file has: those of the largest volume.
pub const MOST_BLOCKS: u32 = 516_096;

/// The record type, a byte.
const TYPE: usize = 0;

/// The record attributes, a byte.
const ATTRIBUTES: usize = 1;

/// The record size, a word.
const SIZE: usize = 2;

/// How the records lie, and none where they can't be read.
#[tactic(auto, unfolding(crate::specs::Records::layout_of))]
pub fn layout(attr: &[u8; 32]) -> Option<Layout>
    ensures layout { result ≡ layout_of attr.now }
    ensures some { IfSome result (λ layout. 0 < some_of layout) }
{
    let size = read_word(attr, SIZE);
    if attr[ATTRIBUTES] >> 3 & 1 == 1 {
        None
    } else if attr[TYPE] == 2 {
        Some(Layout::Variable)
    } else if attr[TYPE] == 1 && size > 0 && size % 2 == 0 {
        Some(Layout::Fixed(size))
    } else {
        None
    }
}

/// How many blocks a copy of such a file as it is takes: those up to its end, rounded up.
pub fn image_blocks(attr: &[u8; 32], allocation: u32) -> u32
    requires { allocation ≤ most_blocks }
    ensures count { result ≡ (min (stated_end attr.now) (512 * allocation) + 511) / 512 }
    ensures image { (file : File) → file.attr ≡ attr.now → length_of file ≡ allocation
        → result ≡ length (image_of file) }
{
    blocks_to_end(attr, allocation)
}

/// The attributes of a file of so many blocks copied as they are, of which it may have 516,096.
pub fn image_attributes(blocks: u32) -> [u8; 32]
    requires { blocks ≤ 516096 }
    ensures { result ≡ attributes_of_image blocks }
{
    attributes(1, 0, 512, blocks, 512 * blocks)
}

/// The attributes of a file of so many blocks of 512 bytes copied as they are, which ends behind so many bytes.
pub fn image_attributes_to(blocks: u32, end: u32) -> [u8; 32]
    ensures { result ≡ attributes_of_image_to blocks end }
{
    attributes(1, 0, 512, blocks, end)
}

/// The attributes of a text whose longest line has so many bytes, of so many blocks, which ends behind so many bytes.
pub fn text_attributes(longest: u16, allocation: u32, end: u32) -> [u8; 32]
    ensures { result ≡ attributes_of_text longest allocation end }
{
    attributes(2, 2, longest, allocation, end)
}

/// The attributes with this record type, these record attributes, this record size, allocation and end.
#[tactic(auto, unfolding(f11_store::specs::Directory::with_end))]
fn attributes(kind: u8, carriage: u8, size: u16, allocation: u32, end: u32) -> [u8; 32]
    ensures { result ≡ with_end (kind ∷ carriage ∷ (bytes_of_word size ++ replicate 28 0))
        allocation end }
{
    let [size_low, size_high] = word_bytes(size);
    let [a, b, c, d] = long_bytes(allocation);
    let [e, f, g, h] = long_bytes(end / 512 + 1);
    let [byte_low, byte_high] = word_bytes((end % 512) as u16);
    [
        kind, carriage, size_low, size_high, a, b, c, d, e, f, g, h, byte_low, byte_high, 0, 0, 0,
        0, 0, 0, 0, 0, 0, 0, 0, 0, 0, 0, 0, 0, 0, 0,
    ]
}
