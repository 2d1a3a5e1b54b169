//! Free slots.
ghost use Rattle.std.specs.Prelude.{◌≡◌, ℕ, ◌+◌, ◌*◌, ◌<◌, ◌≤◌, ◌^◌, ◌==◌, min, max, true, [], length, IsOk, OnOk, MatchOption};
ghost use Rattle.std.specs.Int.{bit_at};
ghost use Rattle.std.specs.List.{slice_get};
ghost use Rattle.f11_bytes.specs.Bits.{bit};

use crate::bits::is_slot_set;
use crate::blocks::push_run;
use crate::index_file::{FIRST_FREE, IndexFile};
use f11_bytes::{BLOCK_BITS, Block, NoMemory, read_word};

/// How many bits a word has.
const WORD: u32 = 16;

/// How many words a block of the index bitmap has.
const WORDS: u32 = 256;

impl IndexFile {
    ghost use Rattle.f11_index.specs.Calls.{with_blocks_behind};
    ghost use Rattle.f11_index.specs.IndexFile.{slots, free_slots_in};
    ghost use Rattle.f11_index.specs.Kept.{index_kept, room};
    ghost use Rattle.f11_index.specs.Slots.{IsLeastFree, free_between};

    /// The number of free slots from 6 on.
    pub fn free_headers(&self) -> u32
        ensures { result ≡ length (free_slots_in (index_kept self.now)) }
    {
        let mut free = 0;
        for word in 0..self.slots().div_ceil(WORD) {
            free += self.free_in(word);
        }
        free
    }

    /// The least free slot from 6 on; `None` where none is free.
    pub fn least_free(&self) -> Option<u16>
        ensures { MatchOption result (free_slots_in (index_kept self.now) ≡ [])
            (λ n. IsLeastFree (index_kept self.now) n) }
    {
        for word in 0..self.slots().div_ceil(WORD) {
            if let Some(n) = self.least_free_in(word) {
                return Some(n);
            }
        }
        None
    }

    /// Makes room for `n` slots more.
    ///
    /// # Errors
    ///
    /// `NoMemory` where there is no memory for them, and then nothing changes.
    pub fn reserve(&mut self, n: u32) -> Result<(), NoMemory>
        ensures kept { index_kept self.new ≡ index_kept self.old }
        ensures room { OnOk result (n ≤ room self.new) }
        ensures enough { n ≤ room self.old → IsOk result }
        ensures no_less { room self.old ≤ room self.new }
    {
        Ok(self.headers.try_reserve(n as usize)?)
    }

    /// Adds `count` blocks from LBN `lbn` on to the index file, behind its others: they are headers, as far as there are
    /// bits and file numbers for them. It takes no memory, and as many places of the room as there are slots more.
    pub fn grow(&mut self, lbn: u32, count: u32)
        requires numbers { lbn + count ≤ 2 ^ 32 }
        requires reserved { count ≤ room self.old }
        ensures grown { index_kept self.new ≡ with_blocks_behind (index_kept self.old) lbn count }
        ensures room { room self.old ≤ room self.new + count }
    {
        let most = (BLOCK_BITS * self.bitmap.len() as u32).min(65535);
        let more = count.min(most - self.slots());
        push_run(&mut self.headers, lbn, more);
    }

    /// The first slot of this word of the index bitmap that a new header may have.
    fn start(word: u32) -> u32
        requires { word < 4096 }
        ensures { result ≡ max 6 (16 * word + 1) }
    {
        FIRST_FREE.max(WORD * word + 1)
    }

    /// The slot behind the last of this word, or behind the last of all.
    fn end(&self, word: u32) -> u32
        requires { word < 4096 }
        ensures { result ≡ min (slots (index_kept self.now) + 1) (16 * word + 17) }
    {
        (self.slots() + 1).min(WORD * (word + 1) + 1)
    }

    /// The number of free slots of this word.
    fn free_in(&self, word: u32) -> u32
        requires { 16 * word < slots (index_kept self.now) }
        ensures { result ≡ length (free_between (index_kept self.now) (max 6 (16 * word + 1))
            (min (slots (index_kept self.now) + 1) (16 * word + 17))) }
    {
        let (start, end) = (IndexFile::start(word), self.end(word));
        if end - start < WORD {
            return self.count_free(start, end);
        }
        let bits = word_of(&self.bitmap[(word / WORDS) as usize], word % WORDS);
        WORD - bits.count_ones()
    }

    /// The least free slot of this word.
    fn least_free_in(&self, word: u32) -> Option<u16>
        requires { 16 * word < slots (index_kept self.now) }
        ensures { result ≡ slice_get (free_between (index_kept self.now) (max 6 (16 * word + 1))
            (min (slots (index_kept self.now) + 1) (16 * word + 17))) 0 }
    {
        if word_of(&self.bitmap[(word / WORDS) as usize], word % WORDS) == u16::MAX {
            return None;
        }
        self.first_free(IndexFile::start(word), self.end(word))
    }

    /// The number of free slots from `start` on, before `end`.
    fn count_free(&self, start: u32, end: u32) -> u32
        requires some { 0 < start }
        requires order { start ≤ end }
        requires within { end ≤ slots (index_kept self.now) + 1 }
        ensures { result ≡ length (free_between (index_kept self.now) start end) }
    {
        let mut free = 0;
        for n in start..end {
            if !is_slot_set(&self.bitmap, n) {
                free += 1;
            }
        }
        free
    }

    /// The least free slot from `start` on, before `end`.
    fn first_free(&self, start: u32, end: u32) -> Option<u16>
        requires some { 0 < start }
        requires within { end ≤ slots (index_kept self.now) + 1 }
        ensures { result ≡ slice_get (free_between (index_kept self.now) start end) 0 }
    {
        for n in start..end {
            if !is_slot_set(&self.bitmap, n) {
                return Some(n as u16);
            }
        }
        None
    }
}

/// Word `i` of a block, from 0.
fn word_of(block: &Block, i: u32) -> u16
    requires { i < 256 }
    ensures all { result ≡ 65535 → (k : ℕ) → 16 * i ≤ k → k < 16 * i + 16 → bit block.now k ≡ true }
    ensures bits { (k : ℕ) → k < 16 → bit block.now (16 * i + k) ≡ (bit_at result k == 1) }
{
    read_word(block, 2 * i as usize)
}
