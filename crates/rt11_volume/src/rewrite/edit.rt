//! A segment without a file, or with one more.
ghost use Rattle.std.specs.Prelude.{◌≡◌, ◌==◌, ◌+◌, ◌-◌, ◌*◌, ◌<◌, ◌≤◌, ◌^◌, true, if◌then◌else◌, length, take, slice_index, slice_range};
ghost use Rattle.rt11_volume.specs.Rewriting.Draft.{IsRewritten};
ghost use Rattle.rt11_volume.specs.Entry.{area_length, entry_size};
ghost use Rattle.rt11_volume.specs.Operations.{entry_at, joined_length, joins_before, joins_behind, with_file, without_file};
ghost use Rattle.rt11_volume.specs.Segment.{entries, extra_bytes, HasEnd, segment_with, areas_end};

use crate::rewrite::assembly::{assemble, header_of};
use crate::segment::Segment;
use std::ops::Range;

/// The status of an empty area: octal 1000.
const EMPTY_STATUS: u16 = 512;

/// The status of a file: octal 2000.
const PERMANENT_STATUS: u16 = 1024;

/// A file that is made.
#[derive(Clone, Copy)]
pub(crate) struct NewFile {
    /// The two words of its name and the one of its type.
    pub(crate) name: [u16; 3],
    /// Its length in blocks.
    pub(crate) blocks: u16,
    /// Its date.
    pub(crate) date: u16,
}

/// Whether the entry before `i` is that of an empty area.
fn joins_before(segment: &Segment, i: usize) -> bool
    requires { i < length (entries (extra_bytes segment.now) segment.now) }
    ensures { result ≡ joins_before (entries (extra_bytes segment.now) segment.now) i }
{
    0 < i && segment.entry(i - 1).is_empty()
}

/// Whether the entry behind `i` is.
fn joins_behind(segment: &Segment, i: usize) -> bool
    requires { i < length (entries (extra_bytes segment.now) segment.now) }
    ensures { result ≡ joins_behind (entries (extra_bytes segment.now) segment.now) i }
{
    i + 1 < segment.entry_count() && segment.entry(i + 1).is_empty()
}

/// The blocks of entry `i`, if it is joined.
fn joined_length(joins: bool, segment: &Segment, i: usize) -> u32
    requires { joins ≡ true → i < length (entries (extra_bytes segment.now) segment.now) }
    ensures length { result ≡
        joined_length joins (entries (extra_bytes segment.now) segment.now) i }
    ensures low { result < 2 ^ 16 }
{
    if joins {
        u32::from(segment.entry(i).length)
    } else {
        0
    }
}

/// The first entry that is joined with entry `i`, or that entry.
fn first_joined(before: bool, i: usize) -> usize
    requires { before ≡ true → 0 < i }
    ensures { result ≡ (if before then i - 1 else i) }
{
    if before { i - 1 } else { i }
}

/// The entry behind the last that is joined.
fn end_joined(behind: bool, i: usize) -> usize
    requires { i ≤ 72 }
    ensures { result ≡ (if behind then i + 2 else i + 1) }
{
    if behind { i + 2 } else { i + 1 }
}

/// The segment with area `i` empty, and joined with one empty neighbour on each side.
pub(crate) fn without_file(segment: &Segment, i: usize) -> Segment
    requires entry { i < length (entries (extra_bytes segment.now) segment.now) }
    requires ends { HasEnd (extra_bytes segment.now) segment.now }
    ensures { areas_end (segment_with 0 segment.now) ≤ 65535
        → IsRewritten (take 5 segment.now) (without_file (extra_bytes segment.now)
        (entries (extra_bytes segment.now) segment.now) i) result }
{
    let count = segment.entry_count();
    let before = joins_before(segment, i);
    let behind = joins_behind(segment, i);
    let blocks = joined_length(before, segment, i.saturating_sub(1))
        + u32::from(segment.entry(i).length)
        + joined_length(behind, segment, i + 1);
    let first = first_joined(before, i);
    let end = end_joined(behind, i);
    let head = [EMPTY_STATUS, 0, 0, 0, blocks.min(65535) as u16, 0, 0];
    assemble(header_of(segment), segment, 0..first, &[head], end..count)
}

/// The segment from entry `a` to before `b`, behind a header, with a file in the front of area `i`, which is as long at least.
pub(crate) fn with_file(
    header: [u16; 5],
    segment: &Segment,
    range: Range<usize>,
    i: usize,
    file: NewFile,
) -> Segment
    requires extra { slice_index header 3 ≡ extra_bytes segment.now }
    requires low { range.start ≤ i }
    requires high { i < range.end }
    requires entries { range.end ≤ length (entries (extra_bytes segment.now) segment.now) }
    requires fits { file.blocks ≤ area_length (entry_at
        (entries (extra_bytes segment.now) segment.now) i) }
    requires room { 5 + (range.end - range.start + (if file.blocks == area_length (entry_at
        (entries (extra_bytes segment.now) segment.now) i) then 0 else 1))
        * entry_size (extra_bytes segment.now) < 512 }
    ensures { IsRewritten header (with_file (extra_bytes segment.now)
        (slice_range (entries (extra_bytes segment.now) segment.now) range.start range.end)
        (i - range.start) file.name file.blocks file.date) result }
{
    let [first, second, kind] = file.name;
    let head = [
        PERMANENT_STATUS,
        first,
        second,
        kind,
        file.blocks,
        0,
        file.date,
    ];
    let area = segment.entry(i).length;
    let before = range.start..i;
    let behind = i + 1..range.end;
    if file.blocks == area {
        return assemble(header, segment, before, &[head], behind);
    }
    let rest = [EMPTY_STATUS, 0, 0, 0, area - file.blocks, 0, 0];
    assemble(header, segment, before, &[head, rest], behind)
}
