//! The blocks that a line's words stand for.

ghost use Rattle.std.specs.Prelude.{◌≡◌, ◌<◌};
ghost use Rattle.f11_script.specs.Fields as specs;

use crate::fields::digit_value;
use f11_bytes::{BLOCK_SIZE, Block};

/// Byte `k` of a block in hex: that of digits `2k` and `2k + 1`, and zero past the last digit.
fn hex_byte(digits: &[u8], k: usize) -> u8
    requires digits { specs.AreHexDigits digits.now }
    requires place { k < 512 }
    ensures { result ≡ specs.hex_byte digits.now k }
{
    if 2 * k + 1 >= digits.len() {
        return 0;
    }
    (16 * digit_value(digits[2 * k]) + digit_value(digits[2 * k + 1])) as u8
}

/// Fills a block with the bytes that pairs of hex digits stand for, and zeros behind them.
pub(crate) fn put_hex(block: &mut Block, digits: &[u8])
    requires { specs.AreHexDigits digits.now }
    ensures { block.new ≡ specs.hex_block digits.now }
{
    *block = [0; BLOCK_SIZE];
    for k in 0..(digits.len() / 2).min(BLOCK_SIZE) {
        block[k] = hex_byte(digits, k);
    }
}

/// Fills a block with one byte.
#[tactic(auto, unfolding(crate::specs::Fields::filled_block))]
pub(crate) fn put_byte(block: &mut Block, byte: u8)
    ensures { block.new ≡ specs.filled_block byte }
{
    *block = [byte; BLOCK_SIZE];
}
