//! The faults of the segments that were visited.
ghost use Rattle.std.specs.Prelude.{◌≡◌, ◌<◌, ◌^◌, ◌↔◌, ℕ, nat_lt, [], length, IsTrue, OnOk, IfOk};
ghost use Rattle.std.specs.List.{list_any};
ghost use Rattle.f11_dev.specs.Image.{Image};
ghost use Rattle.f11_findings.specs.Finding.{finding};
ghost use Rattle.f11_findings.specs.Found.{Finds, FoundOfEach};
ghost use Rattle.rt11_volume.specs.Directory.{is_extra_wrong, end_before};
ghost use Rattle.rt11_volume.specs.InHand.{visits};
ghost use Rattle.rt11_volume.specs.Segment.{segment_with, entries, extra_bytes};
ghost use Rattle.rt11_volume.specs.Verifying.Faults.{IsWrong, IsDirectoryFault};
ghost use Rattle.rt11_volume.specs.Verifying.Scans.{number_at, EntryFaults, LinkFaults, AreaFaults, SegmentFaults, IsHighestWrong};

use crate::directory::{Visited, are_extra_wrong, has_number, visit_at};
use crate::entry::is_one_kind;
use crate::segment::Segment;
use f11_bytes::NoMemory;
use f11_findings::{Finding, Findings};
use std::alloc::Global;

/// The block behind the last one that a directory may give away.
const MOST_BLOCKS: u32 = 65535;

/// A finding about a segment, and about one of its entries.
pub(crate) fn finding(code: u8, number: u16, i: usize) -> Finding
    requires { i < 2 ^ 32 }
    ensures { result ≡ finding code number i }
{
    Finding {
        code,
        a: u32::from(number),
        b: i as u32,
    }
}

/// Adds the faults of the entries of segment `number`, on a device of so many blocks.
fn add_entry_faults(
    faults: &mut Findings,
    number: u16,
    segment: &Segment,
    blocks: u32,
) -> Result<(), NoMemory>
    ensures { OnOk result (Finds (FoundOfEach (EntryFaults blocks (segment_with number segment.now))
        (length (entries (extra_bytes segment.now) segment.now))) faults.old faults.new) }
{
    let most = blocks.min(MOST_BLOCKS);
    let mut end = u32::from(segment.first());
    for i in 0..segment.entry_count() {
        let entry = segment.entry(i);
        end += u32::from(entry.length);
        faults.add_if(!is_one_kind(entry.status), finding(6, number, i))?;
        faults.add_if(end > most, finding(7, number, i))?;
    }
    Ok(())
}

/// Adds the faults of the link of the segment at place `j`.
fn add_link_faults(faults: &mut Findings, visited: &[Visited], j: usize) -> Result<(), NoMemory>
    requires { j < length visited.now }
    ensures { OnOk result ((image : Image) → visited.now ≡ visits image
        → Finds (LinkFaults image j (number_at image j)) faults.old faults.new) }
{
    let here = visit_at(visited, j);
    let next = here.segment.next();
    let outside = next > visit_at(visited, 0).segment.count();
    faults.add_if(outside, finding(2, here.number, 0))?;
    let back = has_number(&visited[..j + 1], next);
    faults.add_if(back, finding(3, here.number, 0))?;
    Ok(())
}

/// Adds the faults of the areas of the segment at place `j`, on a device of so many blocks.
fn add_area_faults(
    faults: &mut Findings,
    visited: &[Visited],
    j: usize,
    blocks: u32,
) -> Result<(), NoMemory>
    requires { j < length visited.now }
    ensures { OnOk result ((image : Image) → visited.now ≡ visits image → blocks ≡ length image
        → Finds (AreaFaults image j (number_at image j)) faults.old faults.new) }
{
    let here = visit_at(visited, j);
    faults.add_if(!here.segment.has_end(), finding(5, here.number, 0))?;
    let early = u32::from(here.segment.first()) < end_ahead(visited, j);
    faults.add_if(early, finding(8, here.number, 0))?;
    add_entry_faults(faults, here.number, &here.segment, blocks)?;
    Ok(())
}

/// Whether the extra bytes of the segment at place `j` are wrong.
pub(crate) fn is_wrong_at(visited: &[Visited], j: usize) -> bool
    requires { j < length visited.now }
    ensures { (image : Image) → visited.now ≡ visits image
        → result ≡ is_extra_wrong image (number_at image j) }
{
    are_extra_wrong(
        visit_at(visited, 0).segment.extra(),
        visit_at(visited, j).segment.extra(),
    )
}

/// Where the areas of the segment before place `j` end, or the directory.
pub(crate) fn end_ahead(visited: &[Visited], j: usize) -> u32
    requires { j < length visited.now }
    ensures { (image : Image) → visited.now ≡ visits image → result ≡ end_before image j }
{
    if j == 0 {
        6 + 2 * u32::from(visit_at(visited, 0).segment.count())
    } else {
        visit_at(visited, j - 1).segment.areas_end()
    }
}

/// Adds the faults of the segment at place `j`.
fn add_visit_faults(
    faults: &mut Findings,
    visited: &[Visited],
    j: usize,
    blocks: u32,
) -> Result<(), NoMemory>
    requires { j < length visited.now }
    ensures { OnOk result ((image : Image) → visited.now ≡ visits image → blocks ≡ length image
        → Finds (SegmentFaults image j (number_at image j)) faults.old faults.new) }
{
    if is_wrong_at(visited, j) {
        faults.add(finding(4, visit_at(visited, j).number, 0))?;
        return Ok(());
    }
    add_link_faults(faults, visited, j)?;
    add_area_faults(faults, visited, j, blocks)?;
    Ok(())
}

/// Whether the extra bytes of a segment that was visited are wrong.
fn is_any_wrong(visited: &[Visited]) -> bool
    ensures { (image : Image) → visited.now ≡ visits image
        → IsTrue result ↔ ((k : ℕ) × IsWrong image k) }
{
    for j in 0..visited.len() {
        if is_wrong_at(visited, j) {
            return true;
        }
    }
    false
}

/// Whether a segment above this one was visited.
fn is_any_above(visited: &[Visited], highest: u16) -> bool
    ensures { result ≡ list_any (λ v. nat_lt highest v.number) visited.now }
{
    visited.iter().any(|v| highest < v.number)
}

/// Whether the highest segment in use is wrong, where no extra bytes are.
fn is_highest_wrong(visited: &[Visited]) -> bool
    requires { 0 < length visited.now }
    ensures { (image : Image) → visited.now ≡ visits image
        → IsTrue result ↔ IsHighestWrong image }
{
    let first = &visit_at(visited, 0).segment;
    let highest = first.highest();
    !is_any_wrong(visited) && (is_any_above(visited, highest) || first.count() < highest)
}

/// All faults of the segments that were visited, on a device of so many blocks.
pub(crate) fn find_faults(
    alloc: Global,
    visited: &[Visited],
    blocks: u32,
) -> Result<Findings, NoMemory>
    requires { 0 < length visited.now }
    ensures { IfOk result (λ faults. (image : Image) → visited.now ≡ visits image
        → blocks ≡ length image → Finds (IsDirectoryFault image) [] faults) }
{
    let mut faults = Findings::new(alloc);
    for j in 0..visited.len() {
        add_visit_faults(&mut faults, visited, j, blocks)?;
    }
    faults.add_if(is_highest_wrong(visited), finding(9, 0, 0))?;
    Ok(faults)
}
