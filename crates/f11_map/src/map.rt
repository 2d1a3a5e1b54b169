//! The retrieval pointers of a header.
ghost use Rattle.std.specs.Prelude.{◌≡◌, ◌<◌, ◌≤◌, ◌+◌, ◌-◌, ◌^◌, length, IsTrue, Some, MatchOption, IfSome};
ghost use Rattle.std.specs.List.{slice_get};
ghost use Rattle.f11_header.specs.bytes.Words.{word};
ghost use Rattle.f11_header.specs.Fields.{map_area};
ghost use Rattle.f11_header.specs.MapFields.{IsMapArea, segment, link, places};
ghost use Rattle.f11_header.specs.Header.{holds_header};
ghost use Rattle.f11_map.specs.MapArea.{LiesIn, runs_of, blocks_of};
ghost use Rattle.f11_map.specs.MapWriting.{joins_last};

use crate::pointer::POINTER_BLOCKS;
use f11_header::Header;
use f11_header::f11_bytes::read_word;
use f11_header::f11_store::FileId;
use f11_header::map_fields::{
    IN_USE, LINK_NUMBER, LINK_SEQUENCE, LINK_VOLUME, MOST, POINTERS, SEGMENT,
};

/// The map area of a header, read where it stands.
#[derive(Clone, Copy)]
pub struct Map<'a> {
    area: &'a [u8],
    ghost is_map: { IsMapArea area.now },
}

impl<'a> Map<'a> {
    ghost use Rattle.f11_map.specs.Map.{area_of};
    ghost use Rattle.f11_header.specs.Lent.{header_block};

    /// The map area of a valid header.
    pub fn new(area: &'a [u8]) -> Map<'a>
        requires { IsMapArea area.now }
        ensures { area_of result ≡ area.now }
    {
        Map { area }
    }

    /// The map area of a header that is valid, or valid but for its check word, where it stands.
    pub fn of(header: &Header<'a>) -> Map<'a>
        requires { IsTrue (holds_header (header_block header.now)) }
        ensures { area_of result ≡ map_area (header_block header.now) }
    {
        Map::new(header.map())
    }

    /// The segment number (M.ESQN).
    pub fn segment(&self) -> u8
        ensures { result ≡ segment (area_of self.now) }
    {
        self.area[SEGMENT]
    }

    /// The next header of the file (M.EFNU, M.EFSQ, M.ERVN); file number 0 is none.
    pub fn link(&self) -> FileId
        ensures { result ≡ link (area_of self.now) }
    {
        FileId {
            number: read_word(self.area, LINK_NUMBER),
            sequence: read_word(self.area, LINK_SEQUENCE),
            volume: u16::from(self.area[LINK_VOLUME]),
        }
    }

    /// The number of retrieval pointers.
    pub fn runs(&self) -> usize
        ensures count { result ≡ length (runs_of (area_of self.now)) }
        ensures few { result ≤ 127 }
    {
        let in_use = self.area[IN_USE];
        usize::from(in_use) / 2
    }

    /// Retrieval pointer `i`: the LBN of its first block, and how many blocks it names, 1 to 256.
    pub fn run(&self, i: usize) -> (u32, u32)
        requires { i < length (runs_of (area_of self.now)) }
        ensures run { slice_get (runs_of (area_of self.now)) i ≡ Some result }
        ensures bounds { (result.0 < 2 ^ 24) × (0 < result.1) × (result.1 ≤ 256) }
    {
        let at = POINTERS + 4 * i;
        let lbn = u32::from(self.area[at]) * 65536 + u32::from(read_word(self.area, at + 2));
        (lbn, u32::from(self.area[at + 1]) + 1)
    }

    /// How many more pointers there are places for.
    pub fn places_left(&self) -> usize
        ensures { result ≡ places (area_of self.now) - length (runs_of (area_of self.now)) }
    {
        let most = usize::from(self.area[MOST]).min((self.area.len() - POINTERS) / 2);
        most / 2 - self.runs()
    }

    /// The number of blocks that the pointers name: 127 pointers of 256 blocks at most.
    pub fn len_blocks(&self) -> u32
        ensures count { result ≡ length (blocks_of (area_of self.now)) }
        ensures few { result ≤ 32512 }
    {
        let mut blocks = 0;
        for i in 0..self.runs() {
            blocks += self.run(i).1;
        }
        blocks
    }

    /// The LBN of block number `place`, from 0, of those that the pointers name; `None` where they name no more. It takes at
    /// most one step a pointer, and no memory.
    pub fn lbn_of(&self, place: u32) -> Option<u32>
        ensures { result ≡ slice_get (blocks_of (area_of self.now)) place }
    {
        let (i, left) = self.find(place)?;
        Some(self.run(i).0 + left)
    }

    /// The pointer that names block number `place`, from 0, and the block's number among those of that pointer; `None`
    /// where the pointers name no more blocks.
    pub fn find(&self, place: u32) -> Option<(usize, u32)>
        ensures found { MatchOption result (length (blocks_of (area_of self.now)) ≤ place)
            (λ found. LiesIn (runs_of (area_of self.now)) place found.0 found.1) }
        ensures few { IfSome result (λ found. found.0 < 127) }
    {
        let mut left = place;
        for i in 0..self.runs() {
            let count = self.run(i).1;
            if left < count {
                return Some((i, left));
            }
            left -= count;
        }
        None
    }

    /// Whether `count` blocks, 256 at most, from LBN `lbn` on join the last pointer.
    pub(crate) fn joins_last(&self, lbn: u32, count: u32) -> bool
        requires { count ≤ 256 }
        ensures { result ≡ joins_last (runs_of (area_of self.now)) lbn count }
    {
        let pointers = self.runs();
        if pointers == 0 {
            return false;
        }
        let (first, blocks) = self.run(pointers - 1);
        first + blocks == lbn && blocks + count <= POINTER_BLOCKS
    }
}
