//! What is noted of the segments that were visited.
ghost use Rattle.std.specs.Prelude.{◌≡◌, ◌+◌, ◌<◌, ◌↔◌, List, ℕ, true, [], length, IsTrue, OnOk, IfOk};
ghost use Rattle.f11_dev.specs.Image.{Image};
ghost use Rattle.f11_findings.specs.Found.{Finds, FoundOfEach};
ghost use Rattle.rt11_volume.specs.Directory.{segment_of};
ghost use Rattle.rt11_volume.specs.Entry.{is_permanent, name_words};
ghost use Rattle.rt11_volume.specs.InHand.{SaysEntry, visits};
ghost use Rattle.rt11_volume.specs.RtName.{IsRtName};
ghost use Rattle.rt11_volume.specs.Verifying.Names.{KnowsNames, TakesNames};
ghost use Rattle.rt11_volume.specs.Verifying.Notes.{IsDirectoryNote};
ghost use Rattle.rt11_volume.specs.Verifying.Scans.{number_at, EntryNotes, SegmentNotes, entries_at};

use crate::directory::{Visited, visit_at};
use crate::entry::Entry;
use crate::name::is_name;
use crate::verifier::faults::{end_ahead, finding, is_wrong_at};
use crate::verifier::names::{take_name, take_names};
use f11_bytes::NoMemory;
use f11_findings::Findings;
use std::alloc::Global;
use std::collections::BTreeSet;

/// Whether an entry is that of a file without a name.
fn is_unnamed(entry: &Entry) -> bool
    ensures { (words : List ℕ) → SaysEntry entry.now words
        → IsTrue result ↔ ((is_permanent words ≡ true) × ¬ IsRtName (name_words words)) }
{
    entry.is_permanent() && !is_name(entry.name[0], entry.name[1], entry.name[2])
}

/// Adds the notes of entry `i` of the segment at place `j`, and takes its name.
fn add_entry_notes(
    notes: &mut Findings,
    names: &mut BTreeSet<[u16; 3]>,
    visited: &[Visited],
    j: usize,
    i: usize,
) -> Result<(), NoMemory>
    requires place { j < length visited.now }
    requires entry { i < length (entries_at visited.now j) }
    ensures notes { OnOk result ((image : Image) → visited.now ≡ visits image → KnowsNames image j i names.old
        → Finds (EntryNotes image j (number_at image j) i) notes.old notes.new) }
    ensures names { OnOk result (TakesNames visited.now j i j (i + 1) names.old names.new) }
{
    let here = visit_at(visited, j);
    let entry = here.segment.entry(i);
    let repeated = take_name(names, &entry)?;
    notes.add_if(entry.is_tentative(), finding(1, here.number, i))?;
    notes.add_if(is_unnamed(&entry), finding(2, here.number, i))?;
    notes.add_if(repeated, finding(3, here.number, i))?;
    Ok(())
}

/// Adds the notes of the entries of the segment at place `j`, and takes their names.
fn add_notes_of_entries(
    notes: &mut Findings,
    names: &mut BTreeSet<[u16; 3]>,
    visited: &[Visited],
    j: usize,
) -> Result<(), NoMemory>
    requires { j < length visited.now }
    ensures notes { OnOk result ((image : Image) → visited.now ≡ visits image → KnowsNames image j 0 names.old
        → Finds (FoundOfEach (EntryNotes image j (number_at image j))
        (length (segment_of image (number_at image j)).entries)) notes.old notes.new) }
    ensures names { OnOk result (TakesNames visited.now j 0 (j + 1) 0 names.old names.new) }
{
    let count = visit_at(visited, j).segment.entry_count();
    for i in 0..count {
        add_entry_notes(notes, names, visited, j, i)?;
    }
    Ok(())
}

/// Adds the notes of the segment at place `j`, and takes its names.
fn add_visit_notes(
    notes: &mut Findings,
    names: &mut BTreeSet<[u16; 3]>,
    visited: &[Visited],
    j: usize,
) -> Result<(), NoMemory>
    requires { j < length visited.now }
    ensures notes { OnOk result ((image : Image) → visited.now ≡ visits image → KnowsNames image j 0 names.old
        → Finds (SegmentNotes image j (number_at image j)) notes.old notes.new) }
    ensures names { OnOk result (TakesNames visited.now j 0 (j + 1) 0 names.old names.new) }
{
    if is_wrong_at(visited, j) {
        take_names(names, visited, j)?;
        return Ok(());
    }
    let here = visit_at(visited, j);
    let late = end_ahead(visited, j) < u32::from(here.segment.first());
    notes.add_if(late, finding(4, here.number, 0))?;
    add_notes_of_entries(notes, names, visited, j)?;
    Ok(())
}

/// All notes of the segments that were visited.
pub(crate) fn find_notes(alloc: Global, visited: &[Visited]) -> Result<Findings, NoMemory>
    ensures { IfOk result (λ notes. (image : Image) → visited.now ≡ visits image
        → Finds (IsDirectoryNote image) [] notes) }
{
    let mut notes = Findings::new(alloc);
    let mut names = BTreeSet::new(alloc);
    for j in 0..visited.len() {
        add_visit_notes(&mut notes, &mut names, visited, j)?;
    }
    Ok(notes)
}
