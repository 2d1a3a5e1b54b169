//! The bytes of a block, read of a file of the host.
ghost use Rattle.std.specs.Prelude.{◌≤◌, OnOk};
ghost use Rattle.f11_host.specs.Pieces.{ReadsPiece};

use f11_bytes::{BLOCK_SIZE, Block, bytes_mut};
use std::io::{self, Read};

/// Reads so many bytes into a block, whose other bytes are zeros then.
///
/// # Errors
///
/// That of the reader, which may have given some of them; also where it gives fewer.
pub fn read_piece<R: Read>(host: &mut R, count: usize, block: &mut Block) -> io::Result<()>
    requires few { count ≤ 512 }
    ensures read { OnOk result (ReadsPiece count (R.remaining host.old) (R.remaining host.new)
        block.new) }
{
    *block = [0; BLOCK_SIZE];
    host.read_exact(bytes_mut(block, 0, count))
}
