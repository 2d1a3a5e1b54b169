//! Records that are read, and looked for, in a block.
ghost use Rattle.std.specs.Prelude.{◌≡◌, ◌*◌, ◌<◌, ◌≤◌, map, option_map, position, IfSome};
ghost use Rattle.f11_bytes.specs.Words.{word};
ghost use Rattle.f11_store.specs.Directory.{record_in, record_id, is_empty};
ghost use Rattle.f11_dir.specs.Records.{place_of_name, records_in, record_of_bytes};

use crate::record::Record;
use crate::{RECORD_SIZE, RECORDS};
use f11_bytes::{Block, read_word};
use f11_store::FileId;
use f11_store::f11_rad50::Name;

const EMPTY: Record = Record {
    id: FileId {
        number: 0,
        sequence: 0,
        volume: 0,
    },
    words: [0; 5],
};

/// A record that was found by its name.
#[derive(Clone, Copy, PartialEq, Eq, Debug)]
pub struct Found {
    /// Its place among the records of the block, from 0.
    pub place: usize,
    /// The file that it names.
    pub id: FileId,
}

/// The 32 records of a block, in order.
pub fn records(block: &Block) -> [Record; RECORDS]
    ensures { result ≡ map record_of_bytes (records_in block.now 32) }
{
    let mut records = [EMPTY; RECORDS];
    for i in 0..RECORDS {
        records[i] = record_at(block, i);
    }
    records
}

/// The first record with the name among the first `upto`, which are 32 at most; an empty record has
/// no name.
pub fn find(block: &Block, upto: usize, name: &Name) -> Option<Found>
    requires { upto ≤ 32 }
    ensures first { option_map (λ f. f.place) result ≡ place_of_name name.now block.now upto }
    ensures id { IfSome result (λ found. found.id ≡ record_id (record_in block.now found.place)) }
    ensures below { IfSome result (λ found. found.place < upto) }
{
    for place in 0..upto {
        let record = record_at(block, place);
        if record.has_name(name) {
            return Some(Found {
                place,
                id: record.id,
            });
        }
    }
    None
}

/// The place of the first empty record among the first `upto`, which are 32 at most.
pub fn first_empty(block: &Block, upto: usize) -> Option<usize>
    requires { upto ≤ 32 }
    ensures first { result ≡ position is_empty (records_in block.now upto) }
    ensures below { IfSome result (λ place. place < upto) }
{
    for i in 0..upto {
        if record_at(block, i).is_empty() {
            return Some(i);
        }
    }
    None
}

/// Record `i` of a block, which is below 32.
pub fn record_at(block: &Block, i: usize) -> Record
    requires { i < 32 }
    ensures { result ≡ record_of_bytes (record_in block.now i) }
{
    Record {
        id: FileId {
            number: word_of(block, i, 0),
            sequence: word_of(block, i, 2),
            volume: word_of(block, i, 4),
        },
        words: [
            word_of(block, i, 6),
            word_of(block, i, 8),
            word_of(block, i, 10),
            word_of(block, i, 12),
            word_of(block, i, 14),
        ],
    }
}

/// The word at byte `at` of record `i` of a block.
fn word_of(block: &Block, i: usize, at: usize) -> u16
    requires record { i < 32 }
    requires byte { at ≤ 14 }
    ensures { result ≡ word (record_in block.now i) at }
{
    read_word(block, RECORD_SIZE * i + at)
}
