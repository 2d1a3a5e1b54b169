//! Bytes of a map area that are written.
ghost use Rattle.std.specs.Prelude.{◌≡◌, ◌+◌, ◌*◌, ◌<◌, ◌≤◌, ◌^◌, ◌++◌, [], ◌∷◌, length, take};
ghost use Rattle.f11_header.specs.bytes.Words.{with_word};
ghost use Rattle.f11_header.specs.MapFields.{IsMapArea, places};
ghost use Rattle.f11_map.specs.MapArea.{runs_of};
ghost use Rattle.f11_map.specs.MapWriting.{fewest_runs, with_run, with_words_in_use, WritesPointers, WritesLink};
ghost use Rattle.f11_header.specs.store.File.{run_pointers};

use f11_header::f11_bytes::write_word;
use f11_header::f11_store::FileId;
use f11_header::map_fields::{IN_USE, LINK_NUMBER, LINK_SEQUENCE, LINK_VOLUME, POINTERS};

/// How many blocks a retrieval pointer names at most (Files-11 On-Disk Structure Level 1, "Retrieval Pointers").
pub const POINTER_BLOCKS: u32 = 256;

/// How few retrieval pointers can name `count` blocks in a row: one for each [`POINTER_BLOCKS`] of them, and one for the rest
/// (Files-11 On-Disk Structure Level 1, "Retrieval Pointers").
pub fn run_pointers(count: u32) -> u32
    ensures { result ≡ run_pointers count }
{
    count.div_ceil(POINTER_BLOCKS)
}

/// Makes pointer `i` the last one, and lets it name `count` blocks, 1 to 256, from LBN `lbn` on, below 16,777,216.
pub fn put_last(area: &mut [u8], i: usize, lbn: u32, count: u32)
    requires is_map { IsMapArea area.old }
    requires pointer { i ≤ length (runs_of area.old) }
    requires place { i < places area.old }
    requires lbn { lbn < 2 ^ 24 }
    requires count { (0 < count) × (count ≤ 256) }
    ensures pointers { runs_of area.new ≡ take i (runs_of area.old) ++ (lbn, count) ∷ [] }
    ensures rest { WritesPointers area.old area.new }
{
    put_pointer(area, i, lbn, count);
    put_words_in_use(area, i + 1);
}

/// Puts the fewest pointers that name `count` blocks, from LBN `lbn` on, behind the `pointers` that there are.
pub fn put_runs(area: &mut [u8], pointers: usize, lbn: u32, count: u32)
    requires is_map { IsMapArea area.old }
    requires pointers { pointers ≡ length (runs_of area.old) }
    requires places { pointers + run_pointers count ≤ places area.old }
    requires lbns { lbn + count ≤ 2 ^ 24 }
    ensures pointers { runs_of area.new ≡ runs_of area.old ++ fewest_runs lbn count }
    ensures rest { WritesPointers area.old area.new }
{
    for i in 0..run_pointers(count) {
        let done = POINTER_BLOCKS * i;
        let named = POINTER_BLOCKS.min(count - done);
        put_last(area, pointers + i as usize, lbn + done, named);
    }
}

/// Keeps the first `pointers` pointers, at most as many as there are.
pub fn keep(area: &mut [u8], pointers: usize)
    requires is_map { IsMapArea area.old }
    requires pointers { pointers ≤ length (runs_of area.old) }
    requires few { pointers ≤ 127 }
    ensures pointers { runs_of area.new ≡ take pointers (runs_of area.old) }
    ensures rest { WritesPointers area.old area.new }
{
    put_words_in_use(area, pointers);
}

/// Writes the next header of the file (M.EFNU, M.EFSQ), and relative volume 0 (M.ERVN).
pub fn put_link(area: &mut [u8], id: FileId)
    requires { IsMapArea area.old }
    ensures link { WritesLink area.old area.new id }
    ensures pointers { runs_of area.new ≡ runs_of area.old }
{
    area[LINK_VOLUME] = 0;
    write_word(area, LINK_NUMBER, id.number);
    write_word(area, LINK_SEQUENCE, id.sequence);
}

/// Writes retrieval pointer `i`.
fn put_pointer(area: &mut [u8], i: usize, lbn: u32, count: u32)
    requires room { 14 + 4 * i ≤ length area.old }
    requires lbn { lbn < 2 ^ 24 }
    requires count { (0 < count) × (count ≤ 256) }
    ensures { area.new ≡ with_run area.old i (lbn, count) }
{
    let at = POINTERS + 4 * i;
    area[at] = (lbn / 65536) as u8;
    area[at + 1] = (count - 1) as u8;
    write_word(area, at + 2, (lbn % 65536) as u16);
}

/// Writes how many pointers are in use, 127 at most (M.USE).
fn put_words_in_use(area: &mut [u8], pointers: usize)
    requires few { pointers ≤ 127 }
    requires fields { 10 ≤ length area.old }
    ensures { area.new ≡ with_words_in_use area.old (2 * pointers) }
{
    area[IN_USE] = (2 * pointers) as u8;
}
