//! A segment with other entries.
ghost use Rattle.std.specs.Prelude.{◌≡◌, ◌+◌, ◌-◌, ◌*◌, ◌<◌, ◌≤◌, All, length, map, take, slice_index};
ghost use Rattle.rt11_volume.specs.Rewriting.Draft.{made_entry, words_of_all, IsHead, IsRewritten, assembled, Puts};
ghost use Rattle.rt11_volume.specs.Entry.{entry_size};
ghost use Rattle.rt11_volume.specs.Segment.{entries, extra_bytes};

use crate::rewrite::draft::Draft;
use crate::segment::Segment;
use std::ops::Range;

/// The words before the entries of a segment.
pub(crate) fn header_of(segment: &Segment) -> [u16; 5]
    ensures { result ≡ take 5 segment.now }
{
    // So that the proof knows how many words there are.
    let _ = segment.entry_size();
    [
        segment.word(0),
        segment.word(1),
        segment.word(2),
        segment.word(3),
        segment.word(4),
    ]
}

/// Puts entries that are made, each of its first seven words and so many zeros.
fn put_made(draft: &mut Draft, heads: &[[u16; 7]], extra: u16)
    requires { draft.old.at + length heads.now * entry_size extra ≤ 512 }
    ensures { Puts draft.old draft.new (words_of_all (map (made_entry extra) heads.now))
        (length heads.now * entry_size extra) }
{
    for head in heads {
        draft.put_all(head);
        draft.put_zeros(usize::from(extra / 2));
    }
}

/// A segment with a header: the entries of another one from `a` to before `first`, those that are made, and those from `end` to
/// before `b`.
pub(crate) fn assemble(
    header: [u16; 5],
    from: &Segment,
    before: Range<usize>,
    heads: &[[u16; 7]],
    behind: Range<usize>,
) -> Segment
    requires extra { slice_index header 3 ≡ extra_bytes from.now }
    requires heads { All IsHead heads.now }
    requires before { before.start ≤ before.end }
    requires middle { before.end ≤ behind.start }
    requires behind { behind.start ≤ behind.end }
    requires entries { behind.end ≤ length (entries (extra_bytes from.now) from.now) }
    requires room { 5 + (before.end - before.start + (length heads.now
        + (behind.end - behind.start))) * entry_size (extra_bytes from.now) < 512 }
    ensures { IsRewritten header (assembled (extra_bytes from.now)
        (entries (extra_bytes from.now) from.now) before.start before.end heads.now
        behind.start behind.end) result }
{
    // So that the proof knows how many words there are.
    let _ = from.entry_size();
    let mut draft = Draft::new();
    draft.put_all(&header);
    draft.put_entries(from, before.start, before.end);
    put_made(&mut draft, heads, from.extra());
    draft.put_entries(from, behind.start, behind.end);
    draft.finish()
}
