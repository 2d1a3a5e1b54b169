//! The blocks of the index file, which are slots.
ghost use Rattle.std.specs.Prelude.{◌≡◌, ◌+◌, ◌≤◌, ◌==◌, ◌^◌, IsTrue};
ghost use Rattle.f11_files.specs.Extending.Slots.{index_behind};
ghost use Rattle.f11_index.specs.Kept.{index_kept, room};

use f11_index::IndexFile;
use f11_store::FileId;

/// The file number of the index file.
const INDEX_FILE: u16 = 1;

/// Keeps `count` blocks from LBN `lbn` on, which a file has more, as slots where it is the index file: it takes no memory.
pub(crate) fn keep_slots(index: &mut IndexFile, file: FileId, lbn: u32, count: u32)
    requires numbers { lbn + count ≤ 2 ^ 32 }
    requires reserved { IsTrue (file.number == 1) → count ≤ room index.old }
    ensures behind { index_kept index.new ≡ index_behind (file.number == 1) (index_kept index.old)
        lbn count }
    ensures room { room index.old ≤ room index.new + count }
{
    if file.number == INDEX_FILE {
        index.grow(lbn, count);
    }
}
