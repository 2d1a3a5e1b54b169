//! A segment is split.
ghost use Rattle.std.specs.Prelude.{◌≡◌, ◌+◌, ◌-◌, ◌*◌, ◌<◌, ◌≤◌, length, IfOk, OnErr, OnOk, slice_index};
ghost use Rattle.f11_dev.specs.Looked.{Looked};
ghost use Rattle.f11_dev.specs.Went.{Went};
ghost use Rattle.rt11_volume.specs.Rewriting.Draft.{IsRewritten};
ghost use Rattle.rt11_volume.specs.Entry.{area_length, entry_size};
ghost use Rattle.rt11_volume.specs.InHand.{KeepsOthers};
ghost use Rattle.rt11_volume.specs.Searching.Looking.{found_entry, found_segment, IsOnDevice};
ghost use Rattle.rt11_volume.specs.Operations.{entry_at};
ghost use Rattle.rt11_volume.specs.Segment.{entries, extra_bytes, HasEnd, highest_segment, segment_lbn};
ghost use Rattle.rt11_volume.specs.Rewriting.Split.{back_header, front_header, half_with, HoldsFirst, KeepsSplit, SplitsHere, WritesFirst};

use crate::lookup::entry::Found;
use crate::rewrite::assembly::assemble;
use crate::rewrite::edit::{NewFile, with_file};
use crate::segment::Segment;
use f11_dev::{Device, DeviceFault};
use std::ops::Range;

/// The header of what stays of a segment, which links to the new one.
fn front_header(segment: &Segment, number: u16) -> [u16; 5]
    ensures { result ≡ front_header segment.now number }
{
    [
        segment.word(0),
        number,
        number,
        segment.word(3),
        segment.word(4),
    ]
}

/// The header of the new one, whose areas begin at a block.
fn back_header(segment: &Segment, number: u16, start: u16) -> [u16; 5]
    ensures { result ≡ back_header segment.now number start }
{
    [
        segment.word(0),
        segment.word(1),
        number,
        segment.word(3),
        start,
    ]
}

/// The segment from one entry to before another, behind a header, with a file in the front of area `i` where that is one of them.
fn half(
    header: [u16; 5],
    segment: &Segment,
    range: Range<usize>,
    i: usize,
    file: NewFile,
) -> Segment
    requires extra { slice_index header 3 ≡ extra_bytes segment.now }
    requires order { range.start ≤ range.end }
    requires entries { range.end ≤ length (entries (extra_bytes segment.now) segment.now) }
    requires fits { file.blocks ≤ area_length (entry_at
        (entries (extra_bytes segment.now) segment.now) i) }
    requires room { 5 + (range.end - range.start + 1)
        * entry_size (extra_bytes segment.now) < 512 }
    ensures { IsRewritten header (half_with (extra_bytes segment.now)
        (entries (extra_bytes segment.now) segment.now) range.start range.end
        i file.name file.blocks file.date) result }
{
    if range.start <= i && i < range.end {
        return with_file(header, segment, range, i, file);
    }
    let end = range.end;
    assemble(header, segment, range, &[], end..end)
}

/// Segment 1: the segment that was found, where it is that, and else it is read.
pub(crate) fn read_first<D: Device>(device: &mut D, found: &Found) -> Result<Segment, DeviceFault>
    requires { segment_lbn 1 + 1 < length (D.disk device.old).image }
    ensures reads { IfOk result (λ first.
        HoldsFirst found.now first (D.disk device.old) (D.disk device.new)) }
    ensures failed { OnErr result (Looked (D.disk device.old) (D.disk device.new) 2 1) }
{
    if found.number == 1 {
        return Ok(found.segment.copy());
    }
    let first = Segment::read(device, 1)?;
    Ok(first)
}

/// Writes segment 1, unless it is segment `k`, which is yet to be written.
fn write_first<D: Device>(device: &mut D, k: u16, first: &Segment) -> Result<(), DeviceFault>
    requires { segment_lbn 1 + 1 < length (D.disk device.old).image }
    ensures written { OnOk result
        (WritesFirst k first.now (D.disk device.old) (D.disk device.new)) }
    ensures failed { OnErr result (Went (KeepsOthers 1 (D.disk device.old).image)
        (D.disk device.old) (D.disk device.new) 2 1) }
{
    if k == 1 {
        return Ok(());
    }
    first.write(device, 1)?;
    Ok(())
}

/// Splits the segment of an area, with a file in the front of that: the new segment is written, then segment 1, which is in hand and
/// tells the highest in use, unless it is the one that is split, and then what stays, which links to the new one.
pub(crate) fn split_here<D: Device>(
    device: &mut D,
    found: &Found,
    mut first: Segment,
    file: NewFile,
) -> Result<(), DeviceFault>
    requires fits { file.blocks ≤ area_length (found_entry found.now) }
    requires ends { HasEnd (extra_bytes found.now.segment) found.now.segment }
    requires some { 2 ≤ length (found_segment found.now).entries }
    requires low { highest_segment first < 65535 }
    requires on_device { IsOnDevice found.now.number (length (D.disk device.old).image) }
    requires next { IsOnDevice (highest_segment first + 1)
        (length (D.disk device.old).image) }
    ensures split { OnOk result (SplitsHere found.now first (highest_segment first + 1) file
        (D.disk device.old) (D.disk device.new)) }
    ensures failed { OnErr result (Went
        (KeepsSplit found.now.number (highest_segment first + 1) (D.disk device.old).image)
        (D.disk device.old) (D.disk device.new) 6 1) }
{
    let segment = &found.segment;
    let count = segment.entry_count();
    let kept = count / 2;
    let number = first.highest() + 1;
    let start = segment.area_start(kept).min(65535) as u16;
    let back = half(
        back_header(segment, number, start),
        segment,
        kept..count,
        found.i,
        file,
    );
    back.write(device, number)?;
    first.set_word(2, number);
    write_first(device, found.number, &first)?;
    let front = half(
        front_header(segment, number),
        segment,
        0..kept,
        found.i,
        file,
    );
    front.write(device, found.number)
}
