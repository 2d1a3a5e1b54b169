//! A segment of the directory in hand.
ghost use Rattle.std.specs.Prelude.{◌≡◌, ◌↔◌, ◌+◌, ◌*◌, ◌^◌, ◌<◌, ◌≤◌, [], length, IsTrue, IfOk, OnErr, OnOk, slice_index, slice_index_or, slice_set};
ghost use Rattle.f11_dev.specs.Looked.{Looked};
ghost use Rattle.rt11_volume.specs.Entry.{entry_size, with_words};
ghost use Rattle.rt11_volume.specs.Segment.{segment_lbn, segment_count, next_segment, highest_segment, extra_bytes, first_block, entry_room, entry_place, entries, HasEnd, segment_with, area_start, areas_end};
ghost use Rattle.f11_dev.specs.Went.{Went};
ghost use Rattle.rt11_volume.specs.InHand.{KeepsOthers, ReadsSegment, WritesSegment, SaysEntry};
ghost use Rattle.rt11_volume.specs.Rewriting.Overwriting.{HasBlockOf};

use crate::entry::{END, Entry, has_bit};
use f11_bytes::{BLOCK_SIZE, Block, read_word, write_word};
use f11_dev::{Device, DeviceFault};
use std::marker::Model;

/// How many words a block has.
const BLOCK_WORDS: usize = 256;

/// How many words a segment has.
const WORDS: usize = 512;

/// How many words stand before the entries.
const HEADER_WORDS: usize = 5;

/// A segment in hand: its two blocks, which contracts see as their 512 words.
#[derive(Drop)]
pub(crate) struct Segment {
    low: Block,
    high: Block,
}

impl Model for Segment {
    ghost use Rattle.std.specs.Prelude.{ℕ, List, ◌++◌};
    ghost use Rattle.rt11_volume.specs.Segment.{words_in as words};

    ghost Value = { List ℕ };

    ghost view = { λ s. words (s.low ++ s.high) };
}

impl Segment {
    /// A segment of zeros.
    pub(crate) fn zeros() -> Segment
        ensures { length result ≡ 512 }
    {
        Segment {
            low: [0; BLOCK_SIZE],
            high: [0; BLOCK_SIZE],
        }
    }

    /// The same words once more.
    pub(crate) fn copy(&self) -> Segment
        ensures { result ≡ self.now }
    {
        Segment {
            low: self.low,
            high: self.high,
        }
    }

    /// Reads segment `k`, each of its blocks once.
    ///
    /// # Errors
    ///
    /// `DeviceFault` where a transfer failed.
    pub(crate) fn read<D: Device>(device: &mut D, k: u16) -> Result<Segment, DeviceFault>
        requires { segment_lbn k + 1 < length (D.disk device.old).image }
        ensures reads { IfOk result (λ segment.
            ReadsSegment k segment (D.disk device.old) (D.disk device.new)) }
        ensures failed { OnErr result (Looked (D.disk device.old) (D.disk device.new) 2 1) }
    {
        let lbn = 4 + 2 * u32::from(k);
        let mut low = [0; BLOCK_SIZE];
        let mut high = [0; BLOCK_SIZE];
        device.read(lbn, &mut low)?;
        device.read(lbn + 1, &mut high)?;
        Ok(Segment { low, high })
    }

    /// Writes it as segment `k`, each of its blocks once.
    ///
    /// # Errors
    ///
    /// `DeviceFault` where a transfer failed.
    pub(crate) fn write<D: Device>(&self, device: &mut D, k: u16) -> Result<(), DeviceFault>
        requires { segment_lbn k + 1 < length (D.disk device.old).image }
        ensures written { OnOk result
            (WritesSegment k self.now (D.disk device.old) (D.disk device.new)) }
        ensures failed { OnErr result (Went (KeepsOthers k (D.disk device.old).image)
            (D.disk device.old) (D.disk device.new) 2 1) }
    {
        let lbn = 4 + 2 * u32::from(k);
        device.write(lbn, &self.low)?;
        device.write(lbn + 1, &self.high)?;
        Ok(())
    }

    /// Writes the block of segment `k` in which word `i` stands.
    pub(crate) fn write_block_of<D: Device>(
        &self,
        device: &mut D,
        k: u16,
        i: usize,
    ) -> Result<(), DeviceFault>
        requires on_device { segment_lbn k + 1 < length (D.disk device.old).image }
        requires word { i < 512 }
        ensures written { OnOk result (HasBlockOf i k self.now (D.disk device.old).image
            (D.disk device.new).image) }
        ensures went { OnOk result (Went (HasBlockOf i k self.now (D.disk device.old).image)
            (D.disk device.old) (D.disk device.new) 1 0) }
        ensures failed { OnErr result (Went (HasBlockOf i k self.now (D.disk device.old).image)
            (D.disk device.old) (D.disk device.new) 1 1) }
    {
        let lbn = 4 + 2 * u32::from(k);
        if i < BLOCK_WORDS {
            device.write(lbn, &self.low)?;
            return Ok(());
        }
        device.write(lbn + 1, &self.high)?;
        Ok(())
    }

    /// Word `i` of the segment; 0 past its end.
    pub(crate) fn word(&self, i: usize) -> u16
        ensures { result ≡ slice_index self.now i }
    {
        if i < BLOCK_WORDS {
            return read_word(&self.low, 2 * i);
        }
        if i < WORDS {
            return read_word(&self.high, 2 * (i - BLOCK_WORDS));
        }
        0
    }

    /// Puts word `i`.
    pub(crate) fn set_word(&mut self, i: usize, word: u16)
        requires { i < 512 }
        ensures { self.new ≡ slice_set self.old i word }
    {
        if i < BLOCK_WORDS {
            write_word(&mut self.low, 2 * i, word);
        } else {
            write_word(&mut self.high, 2 * (i - BLOCK_WORDS), word);
        }
    }

    /// Puts words, the first as word `at`.
    pub(crate) fn set_words(&mut self, at: usize, words: &[u16])
        requires { at + length words.now ≤ 512 }
        ensures words { self.new ≡ with_words self.old at words.now }
        ensures long { length self.old ≡ 512 }
    {
        // So that the proof knows of what the words are made.
        let _ = &self.low;
        let mut i = at;
        for word in words {
            self.set_word(i, *word);
            i += 1;
        }
    }

    /// How many segments there are, as segment 1 says.
    pub(crate) fn count(&self) -> u16
        ensures { result ≡ segment_count self.now }
    {
        self.word(0)
    }

    /// The number of the next segment; 0 is none.
    pub(crate) fn next(&self) -> u16
        ensures { result ≡ next_segment self.now }
    {
        self.word(1)
    }

    /// The highest segment in use, as segment 1 says.
    pub(crate) fn highest(&self) -> u16
        ensures { result ≡ highest_segment self.now }
    {
        self.word(2)
    }

    /// The extra bytes of each entry.
    pub(crate) fn extra(&self) -> u16
        ensures { result ≡ extra_bytes self.now }
    {
        self.word(3)
    }

    /// The first block of its areas.
    pub(crate) fn first(&self) -> u16
        ensures { result ≡ first_block self.now }
    {
        self.word(4)
    }

    /// How many words an entry has.
    pub(crate) fn entry_size(&self) -> usize
        ensures size { result ≡ entry_size (extra_bytes self.now) }
        ensures low { result ≤ 32774 }
        ensures words { length self.now ≡ 512 }
    {
        // So that the proof knows of what the words are made.
        let _ = &self.low;
        7 + usize::from(self.extra() / 2)
    }

    /// How many whole entries have room.
    pub(crate) fn entry_room(&self) -> usize
        ensures room { result ≡ entry_room (extra_bytes self.now) }
        ensures few { result ≤ 72 }
    {
        507 / self.entry_size()
    }

    /// Where entry `i` stands, or would.
    #[tactic(auto, using(crate::proofs::Rewriting::Entries::product_small))]
    pub(crate) fn entry_place(&self, i: usize) -> usize
        requires { i ≤ 73 }
        ensures place { result ≡ entry_place (extra_bytes self.now) i }
        ensures low { result < 2 ^ 24 }
    {
        HEADER_WORDS + i * self.entry_size()
    }

    /// How many entries there are before the first end mark.
    pub(crate) fn entry_count(&self) -> usize
        ensures count { result ≡ length (entries (extra_bytes self.now) self.now) }
        ensures few { result ≤ 72 }
    {
        let room = self.entry_room();
        for i in 0..room {
            if has_bit(self.word(self.entry_place(i)), END) {
                return i;
            }
        }
        room
    }

    /// Entry `i`, from 0.
    pub(crate) fn entry(&self, i: usize) -> Entry
        requires { i < length (entries (extra_bytes self.now) self.now) }
        ensures { SaysEntry result
            (slice_index_or (entries (extra_bytes self.now) self.now) i []) }
    {
        let at = self.entry_place(i);
        Entry {
            status: self.word(at),
            name: [self.word(at + 1), self.word(at + 2), self.word(at + 3)],
            length: self.word(at + 4),
            date: self.word(at + 6),
        }
    }

    /// Where area `i` begins, or would behind the last.
    pub(crate) fn area_start(&self, i: usize) -> u32
        requires { i ≤ length (entries (extra_bytes self.now) self.now) }
        ensures start { result ≡ area_start (segment_with 0 self.now) i }
        ensures low { result < 2 ^ 24 }
    {
        let mut start = u32::from(self.first());
        for j in 0..i {
            start += u32::from(self.entry(j).length);
        }
        start
    }

    /// Where the areas end.
    pub(crate) fn areas_end(&self) -> u32
        ensures end { result ≡ areas_end (segment_with 0 self.now) }
        ensures low { result < 2 ^ 24 }
    {
        self.area_start(self.entry_count())
    }

    /// Whether an end mark stands where an entry's status would, if only behind the last whole entry.
    pub(crate) fn has_end(&self) -> bool
        ensures { IsTrue result ↔ HasEnd (extra_bytes self.now) self.now }
    {
        for i in 0..self.entry_room() + 1 {
            let at = self.entry_place(i);
            if at < WORDS && has_bit(self.word(at), END) {
                return true;
            }
        }
        false
    }
}
