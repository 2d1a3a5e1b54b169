//! A directory whose records are read one after another.
ghost use Rattle.std.specs.Prelude.{◌≡◌, ◌<◌, ◌≤◌, ◌^◌};

use f11_bytes::{BLOCK_SIZE, Block};
use f11_dir::RECORDS;
use f11_reader::FileReader;

/// A directory of any volume, whose records are read one after another. It has one of its blocks in hand.
#[derive(Clone, Copy)]
pub(crate) struct DirectoryReader {
    /// Its blocks that are still to come.
    pub(crate) file: FileReader,
    /// The block in hand.
    pub(crate) block: Block,
    /// How many of that block's 32 records have been read.
    pub(crate) at: usize,
    /// How many records are still to come before the end that the directory states, where it has blocks for so many.
    pub(crate) left: u64,
    /// A block has no more.
    pub ghost within: { at ≤ 32 },
    /// An end is below 2^42 bytes.
    pub ghost few: { left < 2 ^ 38 },
}

impl DirectoryReader {
    /// A directory whose file this is, none of whose blocks was read, and so many records before its stated end.
    pub(crate) fn begin(file: FileReader, left: u64) -> DirectoryReader
        requires { left < 2 ^ 38 }
        ensures file { result.file ≡ file }
        ensures at { result.at ≡ 32 }
        ensures left { result.left ≡ left }
    {
        DirectoryReader {
            file,
            block: [0; BLOCK_SIZE],
            at: RECORDS,
            left,
        }
    }
}
