//! What is kept of an index file, and what it says of slots.
ghost use Rattle.std.specs.Prelude.{◌≡◌, ◌<◌, ◌≤◌, length};
ghost use Rattle.f11_index.specs.IndexFile.{IsIndex};

use crate::bits::is_slot_set;
use f11_bytes::Block;

/// The least slot that is given to a new header: the first five are those of the volume's own files (profile).
pub(crate) const FIRST_FREE: u32 = 6;

/// What an index file says: the blocks of its bitmap, and the LBN of each header.
///
/// After a call has answered `DeviceFault` nothing is known of what it keeps.
#[derive(Drop)]
pub struct IndexFile {
    /// The LBN of the index bitmap's first block (H.IBLB).
    pub(crate) bitmap_lbn: u32,
    /// The blocks of the index bitmap.
    pub(crate) bitmap: Vec<Block>,
    /// The LBN of header `n` at `n - 1`.
    pub(crate) headers: Vec<u32>,
    /// There are 1 to 16 bitmap blocks, and 16 slots or more, no more than they have bits.
    pub ghost valid: { IsIndex (record {
      bitmap_lbn = bitmap_lbn;
      bitmap = bitmap.items;
      headers = headers.items;
    }) },
}

impl IndexFile {
    ghost use Rattle.f11_index.specs.IndexFile.{slots, is_in_use, header_lbn};
    ghost use Rattle.f11_index.specs.Kept.{index_kept};

    /// The number of slots, which are numbered from 1: at most 65535.
    pub fn slots(&self) -> u32
        ensures { result ≡ slots (index_kept self.now) }
    {
        self.headers.len() as u32
    }

    /// Whether slot `n` is in use: there is such a slot, and its bit is 1.
    pub fn in_use(&self, n: u16) -> bool
        ensures { result ≡ is_in_use (index_kept self.now) n }
    {
        let n = u32::from(n);
        if n == 0 || n > self.slots() {
            return false;
        }
        is_slot_set(&self.bitmap, n)
    }

    /// The LBN of header `n`, of slot 1 or one above.
    pub fn lbn_of_header(&self, n: u16) -> u32
        requires some { 0 < n }
        requires slot { n ≤ slots (index_kept self.now) }
        ensures { result ≡ header_lbn (index_kept self.now) n }
    {
        self.headers[usize::from(n) - 1]
    }
}
