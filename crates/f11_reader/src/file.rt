//! A file that is read along its headers.
ghost use Rattle.std.specs.Prelude.{◌≡◌, ◌≤◌, length};
ghost use Rattle.std.specs.List.{slice_get};
ghost use Rattle.f11_header.specs.Header.{IsHeader};
ghost use Rattle.f11_map.specs.HeaderBlock.{blocks_named};

use f11_bytes::Block;
use f11_map::in_hand::{lbn_of, len_blocks};

/// A file of any volume, which is read block by block. It has one header in hand, at first the file's own.
#[derive(Clone, Copy)]
pub struct FileReader {
    /// The number of the header in hand.
    pub(crate) number: u16,
    /// The header in hand.
    pub(crate) header: Block,
    /// How many blocks it names.
    pub(crate) named: u32,
    /// How many of them have been read.
    pub(crate) place: u32,
    /// It is valid.
    pub ghost valid: { IsHeader header number },
    /// It names so many blocks: 127 pointers of 256 blocks at most.
    pub ghost named_is: { named ≡ length (blocks_named header) },
    pub ghost few: { named ≤ 32512 },
    /// No more of them have been read.
    pub ghost within: { place ≤ named },
}

impl FileReader {
    /// Valid header `number` in hand, of whose blocks none has been read.
    pub(crate) fn begin(number: u16, header: Block) -> FileReader
        requires { IsHeader header number }
        ensures number { result.number ≡ number }
        ensures header { result.header ≡ header }
        ensures place { result.place ≡ 0 }
    {
        FileReader {
            number,
            header,
            named: len_blocks(&header),
            place: 0,
        }
    }

    /// The LBN of the first block that the header in hand names behind those that were read; `None` where it names no more.
    pub(crate) fn lbn(&self) -> Option<u32>
        ensures { result ≡ slice_get (blocks_named self.now.header) self.now.place }
    {
        lbn_of(&self.header, self.place)
    }
}
