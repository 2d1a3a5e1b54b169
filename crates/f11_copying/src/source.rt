//! Where the blocks of a file that is made come from.
ghost use Rattle.std.specs.Prelude.{Some, None, if◌then◌else◌, Option, List, ℕ};

use f11_bytes::Block;

/// A source of blocks of 512 bytes, which come one after another.
///
/// `gives` says of two of its states how the one may be followed by the other with a block, or without one.
pub trait Blocks {
    /// How it may give the next block.
    ghost gives: { Self → Option (List ℕ) → Self → Type 0 };

    /// Gives the next block, and says whether there is one that can be read. Where there is none, `block` may hold any bytes.
    fn next(&mut self, block: &mut Block) -> bool
        ensures gives { gives self.old (if result then Some block.new else None) self.new };
}
