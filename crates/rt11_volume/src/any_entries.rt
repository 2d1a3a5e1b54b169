//! The entries of a directory, of a volume with faults or without.
ghost use Rattle.std.specs.Prelude.{◌≡◌, ◌<◌, ◌∷◌, [], ◌++◌, length, OnOk, IfOk};
ghost use Rattle.f11_dev.specs.Image.{Image};
ghost use Rattle.rt11_volume.specs.AnyDirectory.{directory_entries, entries_in, entries_told, entry_in_hand, fits, has_name, is_empty_area, is_file_area, is_sound_file, is_sound_file_named};
ghost use Rattle.rt11_volume.specs.InHand.{SaysEntry, visits};
ghost use Rattle.rt11_volume.specs.Segment.{segment_with};
ghost use Rattle.rt11_volume.specs.Verifying.Scans.{number_at};

use crate::area::RtKind;
use crate::directory::{Visited, visit_at};
use crate::entry::{Entry, is_same_name};
use crate::name::RtName;
use crate::segment::Segment;
use crate::verifier::faults::is_wrong_at;
use f11_bytes::NoMemory;
use std::alloc::Global;

/// An entry of a directory, and where its area lies (RT-11 Volume and File Formats Manual, "Directory Entry").
#[derive(Clone, Copy, PartialEq, Eq, Debug)]
pub struct RtEntry {
    /// The number of its segment, from 1.
    pub segment: u16,
    /// Which entry of it, from 1.
    pub number: u16,
    /// What its area is; `None` where its status says none of the three, or several.
    pub kind: Option<RtKind>,
    /// Its name, where its words are one.
    pub name: Option<RtName>,
    /// The first block of its area, which on a faulty volume may be none of the device.
    pub first: u32,
    /// The length of its area in blocks.
    pub blocks: u16,
    /// Whether it is protected.
    pub protected: bool,
}

impl RtEntry {
    /// Whether a directory may give all blocks of its area away, of which block 65534 is the last that it may.
    pub fn fits(&self) -> bool
        ensures { result ≡ fits self.now }
    {
        u64::from(self.first) + u64::from(self.blocks) <= 65535
    }

    /// Whether its area is a file's.
    pub fn is_file(&self) -> bool
        ensures { result ≡ is_file_area self.now.kind }
    {
        matches!(self.kind, Some(RtKind::Permanent))
    }

    /// Whether its area is an empty one.
    pub fn is_empty_area(&self) -> bool
        ensures { result ≡ is_empty_area self.now.kind }
    {
        matches!(self.kind, Some(RtKind::Empty))
    }

    /// Whether it is that of a file which can be taken out.
    pub fn is_sound_file(&self) -> bool
        ensures { result ≡ is_sound_file self.now }
    {
        self.is_file() && self.fits()
    }

    /// Whether it is that of one with this name.
    pub fn is_sound_file_named(&self, name: &RtName) -> bool
        ensures { result ≡ is_sound_file_named name.now self.now }
    {
        self.is_sound_file() && has_name(name, &self.name)
    }
}

/// Whether a file has this name.
fn has_name(name: &RtName, found: &Option<RtName>) -> bool
    ensures { result ≡ has_name name.now found.now }
{
    match found {
        Some(found) => is_same_name(found.words(), name.words()),
        None => false,
    }
}

/// Adds entry `i` of a segment, whose area begins at a block.
fn add_entry(
    entries: &mut Vec<RtEntry>,
    segment: u16,
    i: usize,
    entry: &Entry,
    start: u32,
) -> Result<(), NoMemory>
    requires { i < 72 }
    ensures { OnOk result (entries.new.items ≡
        entries.old.items ++ entry_in_hand segment i entry.now start ∷ []) }
{
    let kind: Option<RtKind> = entry.only_kind();
    let name: Option<RtName> = RtName::from_words(entry.name);
    let told = RtEntry {
        segment,
        number: i as u16 + 1,
        kind,
        name,
        first: start,
        blocks: entry.length,
        protected: entry.is_protected(),
    };
    Ok(entries.push(told)?)
}

/// Adds the entries of the segment of a number.
fn add_entries(entries: &mut Vec<RtEntry>, number: u16, segment: &Segment) -> Result<(), NoMemory>
    ensures { OnOk result (entries.new.items ≡
        entries.old.items ++ entries_told (segment_with number segment.now)) }
{
    let mut start = u32::from(segment.first());
    for i in 0..segment.entry_count() {
        let entry = segment.entry(i);
        add_entry(entries, number, i, &entry, start)?;
        start += u32::from(entry.length);
    }
    Ok(())
}

/// Adds the entries of the segment at place `j`, where they can be read.
fn add_visited(entries: &mut Vec<RtEntry>, visited: &[Visited], j: usize) -> Result<(), NoMemory>
    requires { j < length visited.now }
    ensures { OnOk result ((image : Image) → visited.now ≡ visits image
        → entries.new.items ≡ entries.old.items ++ entries_in image (number_at image j)) }
{
    if is_wrong_at(visited, j) {
        return Ok(());
    }
    let here = visit_at(visited, j);
    add_entries(entries, here.number, &here.segment)?;
    Ok(())
}

/// All entries that can be read of the segments that were visited, in order.
pub(crate) fn entries_of(alloc: Global, visited: &[Visited]) -> Result<Vec<RtEntry>, NoMemory>
    ensures { IfOk result (λ entries. (image : Image) → visited.now ≡ visits image
        → entries.items ≡ directory_entries image) }
{
    let mut entries = Vec::new(alloc);
    for j in 0..visited.len() {
        add_visited(&mut entries, visited, j)?;
    }
    Ok(entries)
}
