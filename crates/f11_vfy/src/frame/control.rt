//! The control block of a storage bitmap file.
ghost use Rattle.std.specs.Prelude.{◌≡◌, MatchOption};
ghost use Rattle.f11_volume.specs.Space.{bitmap_count, stated_size, IsControlBlock};

use f11_bytes::{BLOCK_BITS, Block, read_long};

/// The most blocks that a storage bitmap has (Files-11 On-Disk Structure Level 1, "Storage Bitmap File").
const MOST_BITMAP: usize = 126;

/// The byte of a control block that says how many blocks the bitmap has.
const COUNT: usize = 3;

/// What a control block says.
#[derive(Clone, Copy)]
pub(crate) struct Control {
    /// How many blocks the bitmap has, 1 to 126.
    pub(crate) count: usize,
    /// How many blocks the volume has.
    pub(crate) size: u32,
}

/// What a control block says, in a file of so many blocks on a device of so many; `None` where it isn't as it should be.
pub(crate) fn judge_control(block: &Block, file: usize, device: u32) -> Option<Control>
    ensures { MatchOption result (¬ IsControlBlock block.now file device)
        (λ c. IsControlBlock block.now file device × (c.count ≡ bitmap_count block.now)
        × (c.size ≡ stated_size block.now)) }
{
    let count = usize::from(block[COUNT]);
    if count == 0 || count > MOST_BITMAP || count >= file {
        return None;
    }
    let size = read_long(block, 4 + 4 * count);
    if size == 0 || size > BLOCK_BITS * count as u32 || size > device {
        return None;
    }
    Some(Control { count, size })
}
