//! The bits of one bitmap block, which are 1 where a block is free (Files-11 On-Disk Structure Level 1, "Storage Bitmap
//! File"). A run of them is cut at 256, which is as long as a retrieval pointer can tell.
ghost use Rattle.std.specs.Prelude.{◌≡◌, ℕ, ◌+◌, ◌*◌, ◌^◌, ◌<◌, ◌≤◌, Bool, true, false, MatchOption};
ghost use Rattle.f11_dev.specs.bytes.Bits.{bit};
ghost use Rattle.f11_dev.specs.bytes.Words.{word_sum as sum_of_words};
ghost use Rattle.f11_bits.specs.Bitmap.{count_below};
ghost use Rattle.f11_bits.specs.Bits.{bit_below, IsFirstSet, IsFirstClear, NoneWithin};
ghost use Rattle.f11_bits.specs.Room.{IsFirstRoom};
ghost use Rattle.f11_bits.specs.Run.{IsFirstRun, NoneFrom};

use crate::lanes::{LANES, bytes_at, ones, sum, words_at};
use byteorder::{ByteOrder, LittleEndian};
use f11_dev::f11_bytes::{BLOCK_BITS, BLOCK_SIZE, Block, is_set, read_word, set_bit};
use std::simd::prelude::*;

/// How many blocks the longest run has.
pub const LONGEST: u32 = 256;

/// The number of 1 bits of a block, 64 bytes at once.
pub fn count_free(block: &Block) -> u32
    ensures { result ≡ count_below (bit block.now) 4096 }
{
    let mut count = 0;
    for i in 0..BLOCK_SIZE / LANES {
        count += ones(bytes_at(block, i));
    }
    count
}

/// The first run of 1 bits at or above bit `from`, at most 256 and at most `most` of them: its first bit and
/// their number. `None` where no bit is 1 there.
pub fn first_run(block: &Block, from: u32, most: u32) -> Option<(u32, u32)>
    requires { 0 < most }
    ensures run { MatchOption result (NoneFrom (bit_below block.now 4096) from)
        (λ run. IsFirstRun (bit_below block.now 4096) from most run.0 run.1) }
{
    match first_set(block, from) {
        Some(k) => Some((k, run_length(block, k, most.min(LONGEST), BLOCK_BITS))),
        None => None,
    }
}

/// The first bit at or above `from` that is 1. 64 bytes of zeros are passed over at once, and then eight.
fn first_set(block: &Block, from: u32) -> Option<u32>
    ensures { MatchOption result (NoneFrom (bit_below block.now 4096) from)
        (λ k. IsFirstSet (bit_below block.now 4096) from 4096 k) }
{
    for part in from / 512..BLOCK_BITS / 512 {
        if has_ones(block, part)
            && let Some(k) = first_set_by_eights(block, from.max(512 * part), 8 * part + 8)
        {
            return Some(k);
        }
    }
    None
}

/// Whether any of the 64 bytes from byte `64 * i` on isn't 0: where none is, none of their bits is 1.
fn has_ones(block: &Block, i: u32) -> bool
    requires { i < 8 }
    ensures { result ≡ false → NoneWithin (bit block.now) (512 * i) (512 * i + 512) }
{
    let lanes = bytes_at(block, i as usize);
    lanes.simd_ne(u8x64::splat(0)).to_bitmask() != 0
}

/// The first bit from `start` on, before bit `64 * end`, that is 1.
fn first_set_by_eights(block: &Block, start: u32, end: u32) -> Option<u32>
    requires { end ≤ 64 }
    ensures { MatchOption result (NoneWithin (bit_below block.now 4096) start (64 * end))
        (λ k. IsFirstSet (bit_below block.now 4096) start (64 * end) k) }
{
    for eight in start / 64..end {
        if eight_bytes(block, eight) != 0
            && let Some(k) = first_set_in(block, start.max(64 * eight), 64 * eight + 64)
        {
            return Some(k);
        }
    }
    None
}

/// The eight bytes with the bits from bit `64 * i` on, as a number, which is 0 where none of them is 1.
fn eight_bytes(block: &Block, i: u32) -> u64
    requires { i < 64 }
    ensures { result ≡ 0 → NoneWithin (bit block.now) (64 * i) (64 * i + 64) }
{
    LittleEndian::read_u64(&block[8 * i as usize..])
}

/// The first bit from `start` on, before `end`, that is 1.
fn first_set_in(block: &Block, start: u32, end: u32) -> Option<u32>
    requires { end ≤ 4096 }
    ensures { MatchOption result (NoneWithin (bit_below block.now 4096) start end)
        (λ k. IsFirstSet (bit_below block.now 4096) start end k) }
{
    for k in start..end {
        if is_set(block, k) {
            return Some(k);
        }
    }
    None
}

/// The sum of the first 255 words, modulo 65536: that of all, 16 at once, less the last.
pub fn word_sum(block: &Block) -> u16
    ensures { result ≡ sum_of_words block.now 255 }
{
    let mut sums = u16x16::splat(0);
    for i in 0..16 {
        sums += words_at(block, i);
    }
    sum(sums).wrapping_sub(read_word(block, BLOCK_SIZE - 2))
}

/// The number of 1 bits below bit `end`: those of a whole block by [`count_free`].
pub fn count_free_to(block: &Block, end: u32) -> u32
    requires { end ≤ 4096 }
    ensures { result ≡ count_below (bit block.now) end }
{
    if end == BLOCK_BITS {
        count_free(block)
    } else {
        count_free_below(block, end)
    }
}

/// The number of 1 bits below bit `end`.
fn count_free_below(block: &Block, end: u32) -> u32
    requires { end ≤ 4096 }
    ensures { result ≡ count_below (bit block.now) end }
{
    let mut count = 0;
    for k in 0..end {
        if is_set(block, k) {
            count += 1;
        }
    }
    count
}

/// [`first_run`] among the bits below bit `end`: the run of the whole block, cut there.
pub fn first_run_to(block: &Block, from: u32, most: u32, end: u32) -> Option<(u32, u32)>
    requires some { 0 < most }
    requires within { end ≤ 4096 }
    ensures run { MatchOption result (NoneFrom (bit_below block.now end) from)
        (λ run. IsFirstRun (bit_below block.now end) from most run.0 run.1) }
{
    match first_run(block, from, most) {
        Some((at, count)) if at < end => Some((at, count.min(end - at))),
        _ => None,
    }
}

/// How many bits from bit `start` on are 1, at most `most` of them and below bit `end`.
pub fn run_length(block: &Block, start: u32, most: u32, end: u32) -> u32
    requires { end ≤ 4096 }
    ensures most { result ≤ most }
    ensures each { (k : ℕ) → start ≤ k → k < start + result → bit_below block.now end k ≡ true }
    ensures ended { result < most → bit_below block.now end (start + result) ≡ false }
{
    let stop = end.min(start.saturating_add(most));
    for k in start..stop {
        if !is_set(block, k) {
            return k - start;
        }
    }
    stop.saturating_sub(start)
}

/// The first bit at or above bit `start`, before bit `end`, that is 0, or `end`. Behind the eight bytes that bit `start` is in, 64 bytes
/// of ones are passed over at once.
fn first_clear(block: &Block, start: u32, end: u32) -> u32
    requires above { start ≤ end }
    requires within { end ≤ 4096 }
    ensures above { start ≤ result }
    ensures within { result ≤ end }
    ensures each { (k : ℕ) → start ≤ k → k < result → bit block.now k ≡ true }
    ensures ended { result < end → bit block.now result ≡ false }
{
    let near = end.min(start / 64 * 64 + 64);
    if let Some(k) = first_clear_in(block, start, near) {
        return k;
    }
    for part in near / 512..end.div_ceil(512) {
        let begin = near.max(512 * part);
        let stop = end.min(512 * part + 512);
        if has_zeros(block, part)
            && let Some(k) = first_clear_in(block, begin, stop)
        {
            return k;
        }
    }
    end
}

/// Whether any of the 64 bytes from byte `64 * i` on isn't 255: where none is, each of their bits is 1.
fn has_zeros(block: &Block, i: u32) -> bool
    requires { i < 8 }
    ensures { result ≡ false
        → (k : ℕ) → 512 * i ≤ k → k < 512 * i + 512 → bit block.now k ≡ true }
{
    let lanes = bytes_at(block, i as usize);
    lanes.simd_ne(u8x64::splat(255)).to_bitmask() != 0
}

/// The first bit from `start` on, before `end`, that is 0.
fn first_clear_in(block: &Block, start: u32, end: u32) -> Option<u32>
    requires { end ≤ 4096 }
    ensures { MatchOption result
        ((k : ℕ) → start ≤ k → k < end → bit block.now k ≡ true)
        (λ k. IsFirstClear (bit block.now) start end k) }
{
    for k in start..end {
        if !is_set(block, k) {
            return Some(k);
        }
    }
    None
}

/// The first bit at or above bit `from`, before bit `end`, that is 1, or `end`: it is sought in the eight bytes that bit `from` is in, and
/// then as by [`first_set`].
fn first_set_to(block: &Block, from: u32, end: u32) -> u32
    requires above { from ≤ end }
    requires within { end ≤ 4096 }
    ensures above { from ≤ result }
    ensures within { result ≤ end }
    ensures none { NoneWithin (bit block.now) from result }
{
    let near = end.min(from / 64 * 64 + 64);
    if let Some(k) = first_set_in(block, from, near) {
        return k;
    }
    match first_set(block, near) {
        Some(k) => k.min(end),
        None => end,
    }
}

/// The first place at or above bit `from` where `n` 1 bits in a row begin, or 1 bits up to bit `end`.
fn first_room(block: &Block, from: u32, n: u32, end: u32) -> u32
    requires some { 0 < n }
    requires above { from ≤ end }
    requires within { end ≤ 4096 }
    ensures room { IsFirstRoom (bit block.now) n from end result }
{
    let mut at = from;
    for _ in from..end {
        let stop = at + n.min(end - at);
        let clear = first_clear(block, at, stop);
        if clear == stop {
            return at;
        }
        at = first_set_to(block, clear + 1, end);
    }
    at
}

/// The first place where `n` free blocks in a row begin, or free blocks up to those of this bitmap block's `end` bits, the first of
/// which is that of block `begin`. Up to there it is `start`.
pub fn next_room(block: &Block, begin: u32, start: u32, n: u32, end: u32) -> u32
    requires above { start ≤ begin }
    requires below { begin < start + n }
    requires within { end ≤ 4096 }
    requires fits { begin + 4096 < 2 ^ 32 }
    ensures above { start ≤ result }
    ensures within { result ≤ begin + end }
    ensures room { (free : ℕ → Bool)
        → ((k : ℕ) → k < end → free (begin + k) ≡ bit block.now k)
        → IsFirstRoom free n 0 begin start → IsFirstRoom free n 0 (begin + end) result }
{
    let rest = end.min(n - (begin - start));
    let clear = first_clear(block, 0, rest);
    if clear == rest {
        return start;
    }
    begin + first_room(block, clear + 1, n, end)
}

/// Makes `count` bits from bit `start` on 1, or 0, and leaves the others. All of a block are made so byte by byte.
pub fn set_bits(block: &mut Block, start: u32, count: u32, free: bool)
    requires { start + count ≤ 4096 }
    ensures inside { (k : ℕ) → start ≤ k → k < start + count → bit block.new k ≡ free }
    ensures before { (k : ℕ) → k < start → bit block.new k ≡ bit block.old k }
    ensures after { (k : ℕ) → start + count ≤ k → k < 4096 → bit block.new k ≡ bit block.old k }
{
    if count == BLOCK_BITS {
        fill(block, free);
        return;
    }
    for k in start..start + count {
        set_bit(block, k, free);
    }
}

/// Makes all bits of a block 1, or 0.
fn fill(block: &mut Block, free: bool)
    ensures { (k : ℕ) → k < 4096 → bit block.new k ≡ free }
{
    let byte = if free { 255 } else { 0 };
    *block = [byte; BLOCK_SIZE];
}
