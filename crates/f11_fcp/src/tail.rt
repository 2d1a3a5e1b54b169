//! Where the next record of a directory goes.
ghost use Rattle.std.specs.Prelude.{◌≤◌, ◌+◌};
ghost use Rattle.f11_store.specs.File.{most_blocks};

use f11_entries::Spot;

/// Where the next record of a directory goes: behind its last one.
#[derive(Drop)]
pub(crate) struct Tail {
    /// The place, in a block that is in hand.
    pub(crate) spot: Spot,
    /// The directory's attributes,
    pub(crate) attr: [u8; 32],
    /// and how many blocks it has.
    pub(crate) length: u32,
    pub ghost few: { length ≤ most_blocks + 1 },
    pub ghost near: { spot.number ≤ most_blocks },
}
