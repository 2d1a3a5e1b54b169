//! The areas of a volume.
ghost use Rattle.std.specs.Prelude.{◌≡◌, [], ◌∷◌, ◌++◌, IfOk, IfErr, OnOk, IsErrOf};
ghost use Rattle.f11_dev.specs.Looked.{Looked};
ghost use Rattle.rt11_volume.specs.Files.{faults_in};
ghost use Rattle.rt11_volume.specs.InHand.{SaysEntry};
ghost use Rattle.rt11_volume.specs.Listing.{shown_name, shown_entry, shown_segment, ListsAreas, FailsToList};
ghost use Rattle.rt11_volume.specs.Verifying.Verdict.{IsSoundDisk};
ghost use Rattle.rt11_volume.specs.Segment.{segment_with};
ghost use Rattle.rt11_volume.specs.Store.{rt_store_of};

use crate::area::{RtArea, RtKind};
use crate::directory::MOST_SEGMENTS;
use crate::entry::Entry;
use crate::lookup::entry::visit;
use crate::name::RtName;
use crate::refusal::RtRefusal;
use crate::segment::Segment;
use f11_bytes::NoMemory;
use f11_dev::Device;
use std::alloc::Global;

/// The name that is shown of an area: that of a file, where its words are one.
fn shown_name(kind: RtKind, words: [u16; 3]) -> Option<RtName>
    ensures { result ≡ shown_name kind words }
{
    match kind {
        RtKind::Permanent => RtName::from_words(words),
        RtKind::Tentative | RtKind::Empty => None,
    }
}

/// Adds the area of an entry that begins at a block, or at block 65535 where a word can't tell.
fn add_area(areas: &mut Vec<RtArea>, entry: &Entry, start: u32) -> Result<(), NoMemory>
    ensures { OnOk result (areas.new.items ≡
        areas.old.items ++ shown_entry entry.now start ∷ []) }
{
    let kind = entry.kind();
    let name: Option<RtName> = shown_name(kind, entry.name);
    let area = RtArea {
        kind,
        name,
        start: start.min(65535) as u16,
        length: entry.length,
        protected: entry.is_protected(),
    };
    Ok(areas.push(area)?)
}

/// Adds the areas of a segment.
fn add_areas(areas: &mut Vec<RtArea>, segment: &Segment) -> Result<(), NoMemory>
    ensures { OnOk result (areas.new.items ≡
        areas.old.items ++ shown_segment (segment_with 0 segment.now)) }
{
    let mut start = u32::from(segment.first());
    for i in 0..segment.entry_count() {
        let entry = segment.entry(i);
        add_area(areas, &entry, start)?;
        start += u32::from(entry.length);
    }
    Ok(())
}

/// All areas, in link order, from at most 62 reads.
pub(crate) fn list_areas<D: Device>(alloc: Global, device: &mut D) -> Result<Vec<RtArea>, RtRefusal>
    ensures looked { Looked (D.disk device.old) (D.disk device.new) 62 (faults_in result) }
    ensures listed { IfOk result (λ areas. IsSoundDisk (D.disk device.old)
        → ListsAreas (rt_store_of (D.disk device.old).image) areas.items) }
    ensures refused { IfErr result FailsToList }
    ensures judged { ¬ IsErrOf result RtRefusal.Failed }
{
    let mut areas = Vec::new(alloc);
    let mut number = 1;
    for _ in 0..MOST_SEGMENTS {
        let Some(segment) = visit(device, number)? else {
            return Ok(areas);
        };
        add_areas(&mut areas, &segment)?;
        number = segment.next();
    }
    Ok(areas)
}
