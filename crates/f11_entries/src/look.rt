//! The first empty record of a directory.
ghost use Rattle.std.specs.Prelude.{◌≡◌, ◌*◌, ◌<◌, ◌≤◌, ◌^◌, option_map, position};
ghost use Rattle.f11_store.specs.Directory.{is_empty};
ghost use Rattle.f11_dir.specs.Records.{records_in};
ghost use Rattle.f11_entries.specs.Seen.{first_place};
ghost use Rattle.f11_entries.specs.Looks.{IsSpotOf, place_of};

use crate::spot::Spot;
use f11_bytes::Block;
use f11_dir::first_empty;

/// The empty record that was met before, or the first one among the first `upto` of this block, which are 32 at most.
pub fn or_first_empty(empty: Option<Spot>, number: u32, block: &Block, upto: usize) -> Option<Spot>
    requires few { number < 2 ^ 23 }
    requires upto { upto ≤ 32 }
    ensures place { option_map place_of result
        ≡ first_place (32 * number) (option_map place_of empty)
        (position is_empty (records_in block.now upto)) }
    ensures spot { IsSpotOf empty number block.now result }
{
    match empty {
        Some(spot) => Some(spot),
        None => match first_empty(block, upto) {
            Some(place) => Some(Spot {
                number,
                place,
                block: *block,
            }),
            None => None,
        },
    }
}
