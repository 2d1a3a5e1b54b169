//! The lanes of vectors: their 1 bits, and their sum.
ghost use Rattle.std.specs.Prelude.{◌≡◌, ◌+◌, ◌*◌, ◌<◌, ℕ, slice_index};
ghost use Rattle.f11_dev.specs.bytes.Words.{word};
ghost use Rattle.f11_bits.specs.Lanes.{ones_of, lane_sum};

use f11_dev::f11_bytes::Block;
use std::simd::prelude::*;

/// How many bytes are looked at at once.
pub const LANES: usize = 64;

/// The 64 bytes from byte `64 * i` on.
pub fn bytes_at(block: &Block, i: usize) -> u8x64
    requires { i < 8 }
    ensures { (k : ℕ) → k < 64 → slice_index result k ≡ slice_index block.now (64 * i + k) }
{
    u8x64::from_slice(&block[LANES * i..])
}

/// The 16 words from word `16 * i` on.
pub fn words_at(block: &Block, i: usize) -> u16x16
    requires { i < 16 }
    ensures { (k : ℕ) → k < 16 → slice_index result k ≡ word block.now (2 * (16 * i + k)) }
{
    words_of(u8x32::from_slice(&block[32 * i..]))
}

/// The words of these bytes.
fn words_of(bytes: u8x32) -> u16x16
    ensures { (k : ℕ) → k < 16 → slice_index result k ≡ word bytes (2 * k) }
{
    u16x16::from_le_bytes(bytes)
}

/// The number of 1 bits in all lanes.
pub fn ones(lanes: u8x64) -> u32
    ensures { result ≡ ones_of lanes }
{
    u32::from(lanes.count_ones().cast::<u16>().reduce_sum())
}

/// The sum of the lanes, modulo 65536.
pub fn sum(lanes: u16x16) -> u16
    ensures { result ≡ lane_sum lanes }
{
    lanes.reduce_sum()
}
