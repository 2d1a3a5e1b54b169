//! Records that are put into a block, and taken out.
ghost use Rattle.std.specs.Prelude.{◌≡◌, ◌≢◌, ℕ, ◌*◌, ◌<◌};
ghost use Rattle.std.specs.List.{flat_map};
ghost use Rattle.f11_bytes.specs.Words.{word_bytes};
ghost use Rattle.f11_bytes.specs.Part.{with_bytes};
ghost use Rattle.f11_store.specs.Directory.{record_in, record_bytes, empty_record};
ghost use Rattle.f11_dir.specs.Records.{record_under, record_of_bytes};

use crate::RECORD_SIZE;
use f11_bytes::{Block, write_word};
use f11_store::FileId;
use f11_store::f11_rad50::Name;

/// Puts a file's identification under a name in the place of record `i`, which is below 32. The other
/// records stay. Under a file number of 0 the record is an empty one.
pub fn put(block: &mut Block, i: usize, id: FileId, name: &Name)
    requires { i < 32 }
    ensures bytes { block.new ≡ with_bytes block.old (16 * i) (record_bytes id name.now) }
    ensures record { record_in block.new i ≡ record_bytes id name.now }
    ensures reads_back { record_of_bytes (record_in block.new i) ≡ record_under id name.now }
    ensures others { (j : ℕ) → j ≢ i → record_in block.new j ≡ record_in block.old j }
{
    let [first, second, third, kind, version] = name.words();
    let words = [
        id.number,
        id.sequence,
        id.volume,
        first,
        second,
        third,
        kind,
        version,
    ];
    put_words(block, i, &words);
}

/// Empties record `i`, which is below 32: its 16 bytes become 0. The other records stay.
pub fn clear(block: &mut Block, i: usize)
    requires { i < 32 }
    ensures bytes { block.new ≡ with_bytes block.old (16 * i) empty_record }
    ensures record { record_in block.new i ≡ empty_record }
    ensures others { (j : ℕ) → j ≢ i → record_in block.new j ≡ record_in block.old j }
{
    put_words(block, i, &[0; 8]);
}

/// Puts the eight words of a record in the place of record `i`, which is below 32. The other records stay.
pub fn put_words(block: &mut Block, i: usize, words: &[u16; 8])
    requires { i < 32 }
    ensures bytes { block.new ≡ with_bytes block.old (16 * i) (flat_map word_bytes words.now) }
    ensures record { record_in block.new i ≡ flat_map word_bytes words.now }
    ensures others { (j : ℕ) → j ≢ i → record_in block.new j ≡ record_in block.old j }
{
    for (k, word) in words.iter().enumerate() {
        write_word(block, RECORD_SIZE * i + 2 * k, *word);
    }
}
