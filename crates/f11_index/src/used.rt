//! An index file that takes each slot as in use.
ghost use Rattle.std.specs.Prelude.{◌≡◌, replicate, IfOk};
ghost use Rattle.f11_index.specs.IndexFile.{one_block};

use crate::index_file::IndexFile;
use f11_bytes::{BLOCK_SIZE, Block, NoMemory};
use std::alloc::Global;

impl IndexFile {
    ghost use Rattle.f11_index.specs.IndexFile.{all_in_use};
    ghost use Rattle.f11_index.specs.Kept.{index_kept};

    /// The same slots, as if each were in use: by it a header is found that is valid, though the bit of its slot is lost. No write may go
    /// by it. It takes memory as [`IndexFile::read`] does.
    ///
    /// # Errors
    ///
    /// `NoMemory` where there was no memory.
    pub fn with_all_in_use(&self, alloc: Global) -> Result<IndexFile, NoMemory>
        ensures { IfOk result (λ index. index_kept index ≡ all_in_use (index_kept self.now)) }
    {
        let bitmap = one_blocks(alloc, self.bitmap.len())?;
        let headers = self.headers.clone()?;
        Ok(IndexFile {
            bitmap_lbn: self.bitmap_lbn,
            bitmap,
            headers,
        })
    }
}

/// A block of ones.
#[tactic(auto, unfolding(crate::specs::IndexFile::one_block))]
fn ones() -> Block
    ensures { result ≡ one_block }
{
    [255; BLOCK_SIZE]
}

/// So many blocks of ones.
fn one_blocks(alloc: Global, count: usize) -> Result<Vec<Block>, NoMemory>
    ensures { IfOk result (λ blocks. blocks.items ≡ replicate count one_block) }
{
    let mut blocks = Vec::new(alloc);
    for _ in 0..count {
        blocks.push(ones())?;
    }
    Ok(blocks)
}
