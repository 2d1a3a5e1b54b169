//! The retrieval pointers of a header, written where they stand.
ghost use Rattle.std.specs.Prelude.{◌≡◌, ◌↔◌, ◌+◌, ◌-◌, ◌<◌, ◌≤◌, ◌^◌, ◌++◌, false, length, take, IsOk, IsErr};
ghost use Rattle.std.specs.List.{range_with_len};
ghost use Rattle.f11_header.specs.MapFields.{IsMapArea, places};
ghost use Rattle.f11_map.specs.MapArea.{runs_of, blocks_of};
ghost use Rattle.f11_map.specs.MapWriting.{joins_last, with_blocks, fewest_runs, cut_to, WritesPointers, WritesLink};
ghost use Rattle.f11_header.specs.store.File.{run_pointers};

use crate::map::Map;
use crate::pointer::{keep, put_last, put_link, put_runs, run_pointers};
use f11_header::f11_store::FileId;
use std::error::Error;
use std::fmt;

/// No place is left for the retrieval pointers that blocks would take.
#[derive(Clone, Copy, Debug, PartialEq, Eq, Hash)]
pub struct MapFull;

impl fmt::Display for MapFull {
    ghost use Rattle.std.specs.Prelude.{Some, codes};

    ghost output = { λ _. Some (codes "map full") };

    fn fmt<W: fmt::Write>(&self, f: &mut fmt::Formatter<W>) -> fmt::Result {
        write!(f, "map full")
    }
}

impl Error for MapFull {}

/// The map area of a header, written where it stands. It holds pointers after each call, so a header is valid again once it
/// is sealed.
#[derive(Drop)]
pub struct MapMut<'a> {
    area: &'a mut [u8],
    ghost is_map: { IsMapArea area.now },
}

impl<'a> MapMut<'a> {
    ghost use Rattle.f11_map.specs.Map.{area_of, written_area, area_loan};

    /// The map area of a valid header.
    pub fn new(area: &'a mut [u8]) -> MapMut<'a>
        requires { IsMapArea area.old }
        ensures area { written_area result ≡ area.old }
        ensures same_reference { area_loan result ≡ area.entry.ghost_name }
    {
        MapMut { area }
    }

    /// The same area, to be read.
    pub fn map(&self) -> Map<'_>
        ensures { area_of result ≡ written_area self.now }
    {
        Map::new(self.area)
    }

    /// Adds `count` blocks, 1 to 256, from LBN `lbn` on, below 16,777,216, behind those that the pointers name: to the last
    /// pointer where they follow its blocks and are 256 at most together (profile), and else as one more pointer.
    ///
    /// # Errors
    ///
    /// [`MapFull`] where they don't join the last pointer and no place is left; then nothing is changed.
    pub fn append(&mut self, lbn: u32, count: u32) -> Result<(), MapFull>
        requires lbn { lbn < 2 ^ 24 }
        requires count { (0 < count) × (count ≤ 256) }
        ensures pointers { IsOk result → runs_of (written_area self.new)
            ≡ with_blocks (runs_of (written_area self.old)) lbn count }
        ensures blocks { IsOk result → blocks_of (written_area self.new)
            ≡ blocks_of (written_area self.old) ++ range_with_len lbn count }
        ensures full { IsErr result
            ↔ ((places (written_area self.old) ≡ length (runs_of (written_area self.old)))
            × (joins_last (runs_of (written_area self.old)) lbn count ≡ false)) }
        ensures unchanged { IsErr result → written_area self.new ≡ written_area self.old }
        ensures rest { WritesPointers (written_area self.old) (written_area self.new) }
        ensures same_reference { area_loan self.new ≡ area_loan self.old }
    {
        let map = self.map();
        let pointers = map.runs();
        if map.joins_last(lbn, count) {
            let (first, blocks) = map.run(pointers - 1);
            put_last(self.area, pointers - 1, first, blocks + count);
            return Ok(());
        }
        if map.places_left() == 0 {
            return Err(MapFull);
        }
        put_last(self.area, pointers, lbn, count);
        Ok(())
    }

    /// Adds `count` blocks, however many, from LBN `lbn` on, all below 16,777,216, behind those that the pointers name: as the
    /// fewest pointers that can name them, of 256 blocks each and one for the rest. All are new: unlike those of
    /// [`append`](MapMut::append), no block joins the last pointer that there was.
    ///
    /// # Errors
    ///
    /// [`MapFull`] where fewer places are left than those take; then nothing is changed.
    pub fn append_runs(&mut self, lbn: u32, count: u32) -> Result<(), MapFull>
        requires lbns { lbn + count ≤ 2 ^ 24 }
        ensures pointers { IsOk result → runs_of (written_area self.new)
            ≡ runs_of (written_area self.old) ++ fewest_runs lbn count }
        ensures blocks { IsOk result → blocks_of (written_area self.new)
            ≡ blocks_of (written_area self.old) ++ range_with_len lbn count }
        ensures full { IsErr result
            ↔ places (written_area self.old) - length (runs_of (written_area self.old)) < run_pointers count }
        ensures unchanged { IsErr result → written_area self.new ≡ written_area self.old }
        ensures rest { WritesPointers (written_area self.old) (written_area self.new) }
        ensures same_reference { area_loan self.new ≡ area_loan self.old }
    {
        let map = self.map();
        let pointers = map.runs();
        if run_pointers(count) as usize <= map.places_left() {
            put_runs(self.area, pointers, lbn, count);
            return Ok(());
        }
        Err(MapFull)
    }

    /// Keeps the first `place` blocks of those that the pointers name, all where they are no more: pointers behind them go,
    /// and one that names some of them names no others.
    pub fn cut(&mut self, place: u32)
        ensures pointers { runs_of (written_area self.new)
            ≡ cut_to (runs_of (written_area self.old)) place }
        ensures blocks { blocks_of (written_area self.new)
            ≡ take place (blocks_of (written_area self.old)) }
        ensures rest { WritesPointers (written_area self.old) (written_area self.new) }
        ensures same_reference { area_loan self.new ≡ area_loan self.old }
    {
        let map = self.map();
        let Some((i, left)) = map.find(place) else {
            return;
        };
        if left == 0 {
            keep(self.area, i);
        } else {
            let lbn = map.run(i).0;
            put_last(self.area, i, lbn, left);
        }
    }

    /// Sets the next header of the file to the one with this number and sequence number (M.EFNU, M.EFSQ); the relative volume
    /// (M.ERVN) becomes 0, whatever that of `id` is. Number 0 is none.
    pub fn set_link(&mut self, id: FileId)
        ensures link { WritesLink (written_area self.old) (written_area self.new) id }
        ensures pointers { runs_of (written_area self.new) ≡ runs_of (written_area self.old) }
        ensures same_reference { area_loan self.new ≡ area_loan self.old }
    {
        put_link(self.area, id);
    }
}
