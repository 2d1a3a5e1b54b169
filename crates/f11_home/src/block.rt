//! When a home block is valid, and how its check words are made right.
ghost use Rattle.std.specs.Prelude.{◌≡◌, ◌⊎◌, ◌+◌, ◌<◌, ◌≤◌, ◌≢◌, ℕ, ◌↔◌, IsTrue, slice_index, slice_range, codes};
ghost use Rattle.f11_bytes.specs.Words.{word};
ghost use Rattle.f11_home.specs.HomeBlock.{HasHomeSums, IsHomeBlock, index_blocks, index_lbn, with_sums};

use crate::fields::{
    CLUSTER, FIRST_SUM, FORMAT, FORMAT_NAME, INDEX_BLOCKS, INDEX_LBN, LEVEL, SECOND_SUM,
};
use f11_bits::word_sum;
use f11_bytes::{Block, read_long, read_word, sum_words, write_word};

/// Whether the block is a valid home block of a device of so many blocks.
pub fn is_home_block(block: &Block, blocks: u32) -> bool
    ensures { IsTrue result ↔ IsHomeBlock block.now blocks }
{
    has_index(block, blocks) && has_format(block) && has_sums(block)
}

/// Whether the index file's bitmap has 1 to 16 blocks, and lies on the device with the 16 headers after it.
fn has_index(block: &Block, blocks: u32) -> bool
    ensures { IsTrue result ↔ ((0 < index_blocks block.now) × (index_blocks block.now ≤ 16)
        × (0 < index_lbn block.now)
        × (index_lbn block.now + index_blocks block.now + 16 ≤ blocks)) }
{
    let size = read_word(block, INDEX_BLOCKS);
    let lbn = read_index_lbn(block);
    size > 0 && size <= 16 && lbn > 0 && u64::from(lbn) + u64::from(size) + 16 <= u64::from(blocks)
}

/// Whether cluster factor, structure level and name are those of the format.
fn has_format(block: &Block) -> bool
    ensures { IsTrue result ↔ ((word block.now 8 ≡ 1)
        × ((word block.now 12 ≡ 257) ⊎ (word block.now 12 ≡ 258))
        × (slice_range block.now 496 508 ≡ codes "DECFILE11A  ")) }
{
    read_word(block, CLUSTER) == 1
        && matches!(read_word(block, LEVEL), 0o401 | 0o402)
        && &block[FORMAT..FORMAT + 12] == FORMAT_NAME.as_slice()
}

/// Whether both check words are right.
fn has_sums(block: &Block) -> bool
    ensures { IsTrue result ↔ HasHomeSums block.now }
{
    read_word(block, FIRST_SUM) == sum_words(block, FIRST_SUM / 2)
        && read_word(block, SECOND_SUM) == word_sum(block)
}

/// H.IBLB.
pub fn read_index_lbn(block: &Block) -> u32
    ensures { result ≡ index_lbn block.now }
{
    read_long(block, INDEX_LBN)
}

/// Makes both check words of a home block right, H.CHK1 and then H.CHK2, and changes nothing else.
pub fn seal(block: &mut Block)
    ensures block { block.new ≡ with_sums block.old }
    ensures sums { HasHomeSums block.new }
    ensures others { (i : ℕ) → i ≢ 58 → i ≢ 59 → i ≢ 510 → i ≢ 511
        → slice_index block.new i ≡ slice_index block.old i }
{
    let first = sum_words(block, FIRST_SUM / 2);
    write_word(block, FIRST_SUM, first);
    let second = word_sum(block);
    write_word(block, SECOND_SUM, second);
}
