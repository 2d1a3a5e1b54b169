//! The files that a fresh volume has.
ghost use Rattle.std.specs.Prelude.{◌≡◌, ◌<◌, ◌≤◌, ◌+◌, ◌*◌, ◌^◌};
ghost use Rattle.f11_layout.specs.EmptyFile.{empty_file};

use crate::layout::{Layout, bit_blocks};

/// How many files a fresh volume has.
pub(crate) const OWN_FILES: u16 = 5;

/// A file of a fresh volume: its name, its attributes, and its blocks, which follow each other.
#[derive(Clone, Copy)]
pub(crate) struct OwnFile {
    /// Three words of the name, the type and the version.
    pub(crate) name: [u16; 5],
    /// The size of its records in bytes.
    pub(crate) record_size: u16,
    /// The LBN of its first block.
    pub(crate) first: u32,
    /// How many blocks it has.
    pub(crate) count: u32,
    /// The block that its end is in, and the byte in it (F.EFBK, F.FFBY).
    pub(crate) end_block: u32,
    pub(crate) end_byte: u16,
}

/// INDEXF.SYS;1, BITMAP.SYS;1, BADBLK.SYS;1, 000000.DIR;1 and CORIMG.SYS;1.
const INDEX_FILE: [u16; 5] = [14964, 8966, 0, 31419, 1];

const BITMAP: [u16; 5] = [3580, 20856, 0, 31419, 1];

const BAD_BLOCKS: [u16; 5] = [3244, 3691, 0, 31419, 1];

const DIRECTORY: [u16; 5] = [49230, 49230, 0, 6778, 1];

const CORE_IMAGE: [u16; 5] = [5418, 14927, 0, 31419, 1];

impl Layout {
    ghost use Rattle.f11_layout.specs.Files.{own_file, index_file_of, bitmap_file_of, directory_of};

    /// File `n`, of 1 to 5.
    #[tactic(auto, unfolding(crate::specs::Files::own_file))]
    pub(crate) fn own_file(&self, n: u16) -> OwnFile
        requires { (0 < n) × (n ≤ 5) }
        ensures file { result ≡ own_file self.now n }
        ensures bounds { (result.count ≤ 256 * 102) × (result.first + result.count < 2 ^ 24) }
    {
        match n {
            1 => self.index_file(),
            2 => self.bitmap_file(),
            3 => empty_file(BAD_BLOCKS),
            4 => self.directory(),
            _ => empty_file(CORE_IMAGE),
        }
    }

    /// The index file: all blocks up to the last header.
    fn index_file(&self) -> OwnFile
        ensures { result ≡ index_file_of self.now }
    {
        let count = self.control_lbn();
        OwnFile {
            name: INDEX_FILE,
            record_size: 512,
            first: 0,
            count,
            end_block: count + 1,
            end_byte: 0,
        }
    }

    /// The storage bitmap file: the control block and the bitmap.
    fn bitmap_file(&self) -> OwnFile
        ensures { result ≡ bitmap_file_of self.now }
    {
        let count = 1 + bit_blocks(self.blocks);
        OwnFile {
            name: BITMAP,
            record_size: 512,
            first: self.control_lbn(),
            count,
            end_block: count + 1,
            end_byte: 0,
        }
    }

    /// The master file directory: one block with five records of 16 bytes.
    fn directory(&self) -> OwnFile
        ensures { result ≡ directory_of self.now }
    {
        OwnFile {
            name: DIRECTORY,
            record_size: 16,
            first: self.directory_lbn(),
            count: 1,
            end_block: 1,
            end_byte: 80,
        }
    }
}

/// A file without blocks.
fn empty_file(name: [u16; 5]) -> OwnFile
    ensures { result ≡ empty_file name }
{
    OwnFile {
        name,
        record_size: 512,
        first: 0,
        count: 0,
        end_block: 0,
        end_byte: 0,
    }
}
