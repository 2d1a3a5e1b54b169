//! A segment that is being written, word by word.
ghost use Rattle.std.specs.Prelude.{◌≡◌, ◌+◌, ◌-◌, ◌*◌, ◌<◌, ◌≤◌, [], ◌∷◌, ◌++◌, length, take, replicate, slice_index_or, slice_range};

use crate::segment::Segment;

/// The status of an end mark: octal 4000.
const END_STATUS: u16 = 2048;

/// A segment that is being written: its words up to a place.
#[derive(Drop)]
pub(crate) struct Draft {
    segment: Segment,
    at: usize,
    /// It has 512 words.
    pub ghost long: { length segment ≡ 512 },
}

impl Draft {
    ghost use Rattle.rt11_volume.specs.Rewriting.Draft.{draft_words, words_of_all, Puts};
    ghost use Rattle.rt11_volume.specs.Entry.{entry_size};
    ghost use Rattle.rt11_volume.specs.Segment.{entries, extra_bytes};

    /// A segment without a word.
    pub(crate) fn new() -> Draft
        ensures words { draft_words result ≡ [] }
        ensures at { result.at ≡ 0 }
    {
        Draft {
            segment: Segment::zeros(),
            at: 0,
        }
    }

    /// Puts one word.
    fn put(&mut self, word: u16)
        requires { self.old.at < 512 }
        ensures { Puts self.old self.new (word ∷ []) 1 }
    {
        self.segment.set_word(self.at, word);
        self.at += 1;
    }

    /// Puts some words.
    pub(crate) fn put_all(&mut self, words: &[u16])
        requires { self.old.at + length words.now ≤ 512 }
        ensures { Puts self.old self.new words.now (length words.now) }
    {
        for word in words {
            self.put(*word);
        }
    }

    /// Puts zeros.
    pub(crate) fn put_zeros(&mut self, count: usize)
        requires { self.old.at + count ≤ 512 }
        ensures { Puts self.old self.new (replicate count 0) count }
    {
        for _ in 0..count {
            self.put(0);
        }
    }

    /// Puts the words of an entry of a segment.
    fn put_entry(&mut self, from: &Segment, i: usize)
        requires entry { i < length (entries (extra_bytes from.now) from.now) }
        requires room { self.old.at + entry_size (extra_bytes from.now) ≤ 512 }
        ensures { Puts self.old self.new
            (slice_index_or (entries (extra_bytes from.now) from.now) i [])
            (entry_size (extra_bytes from.now)) }
    {
        let place = from.entry_place(i);
        for k in 0..from.entry_size() {
            self.put(from.word(place + k));
        }
    }

    /// Puts the words of the entries of a segment from one to before another.
    pub(crate) fn put_entries(&mut self, from: &Segment, first: usize, end: usize)
        requires order { first ≤ end }
        requires entries { end ≤ length (entries (extra_bytes from.now) from.now) }
        requires room { self.old.at + (end - first) * entry_size (extra_bytes from.now) ≤ 512 }
        ensures { Puts self.old self.new
            (words_of_all (slice_range (entries (extra_bytes from.now) from.now) first end))
            ((end - first) * entry_size (extra_bytes from.now)) }
    {
        for i in first..end {
            self.put_entry(from, i);
        }
    }

    /// Puts an end mark, behind which nothing counts.
    pub(crate) fn finish(mut self) -> Segment
        requires { self.at < 512 }
        ensures words { take (self.at + 1) result ≡ draft_words self ++ 2048 ∷ [] }
        ensures long { length result ≡ 512 }
    {
        self.put(END_STATUS);
        let Draft { segment, .. } = self;
        segment
    }
}
