//! A record's place with its block, and what a look for a name finds.
ghost use Rattle.std.specs.Prelude.{◌<◌, ◌^◌};

use f11_bytes::Block;
use f11_store::FileId;

/// A record's place, with the block that it stands in.
#[derive(Clone, Copy)]
pub struct Spot {
    /// The block among those of the directory, from 0.
    pub number: u32,
    /// The record among the 32 of the block, from 0.
    pub place: usize,
    /// What the block holds.
    pub block: Block,
    /// A file has fewer blocks than this.
    pub ghost few: { number < 2 ^ 23 },
    pub ghost within: { place < 32 },
}

/// What a look through a directory finds.
#[derive(Clone, Copy)]
pub enum Looked {
    /// The first record with the name, and the file that it names.
    Found(Spot, FileId),
    /// No record has the name; the first empty one.
    Absent(Option<Spot>),
}
