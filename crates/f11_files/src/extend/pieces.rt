//! Blocks in a row that a header in hand is to name, however many.
ghost use Rattle.std.specs.Prelude.{◌≡◌, ◌+◌, ◌<◌, ◌≤◌, ◌^◌, false, IsTrue};
ghost use Rattle.f11_files.specs.Extending.Tail.{NamesAll};
ghost use Rattle.f11_header.specs.Header.{holds_header};
ghost use Rattle.f11_image_store.specs.FileLaws.{room_in};
ghost use Rattle.f11_store.specs.File.{run_pointers};

use f11_bytes::Block;
use f11_map::POINTER_BLOCKS;
use f11_map::in_hand::{append, append_runs};

/// Adds `count` blocks from LBN `lbn` on to those of the header, and seals it: 256 in a pointer after another, and the rest in one
/// more. Where they are no more than 256 and follow the blocks of the last pointer, they join that if it has room for all of them.
/// Says whether it did: where it has too few places, it is as it was.
pub(crate) fn append_all(block: &mut Block, lbn: u32, count: u32) -> bool
    requires header { IsTrue (holds_header block.old) }
    requires some { 0 < count }
    requires low { lbn + count ≤ 2 ^ 24 }
    ensures named { IsTrue result → NamesAll block.old block.new lbn count }
    ensures lacks { result ≡ false → room_in block.old < run_pointers count }
    ensures unchanged { result ≡ false → block.new ≡ block.old }
{
    if count <= POINTER_BLOCKS {
        return append(block, lbn, count).is_ok();
    }
    append_runs(block, lbn, count).is_ok()
}
