//! Bytes put into a block.
ghost use Rattle.std.specs.Prelude.{◌≡◌, ◌+◌, ◌<◌, ◌≤◌, length, slice_range, option_to_list};
ghost use Rattle.f11_flx.specs.Puts.{PutsAt};

use f11_bytes::Block;

/// Puts a byte into a block, if there is one: the place behind it.
pub fn put(block: &mut Block, at: usize, byte: Option<u8>) -> usize
    requires { at < 512 }
    ensures place { result ≡ at + length (option_to_list byte) }
    ensures within { result ≤ 512 }
    ensures puts { PutsAt block.old block.new at result }
    ensures put { slice_range block.new at result ≡ option_to_list byte }
{
    let Some(byte) = byte else {
        return at;
    };
    block[at] = byte;
    at + 1
}
