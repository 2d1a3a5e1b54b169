//! The names of a directory's files, to tell which entry repeats one.
ghost use Rattle.std.specs.Prelude.{◌≡◌, ◌<◌, ◌+◌, List, ℕ, length, OnOk, IfOk};
ghost use Rattle.rt11_volume.specs.InHand.{SaysEntry};
ghost use Rattle.rt11_volume.specs.Verifying.Names.{TakesName, TakesNames};

use crate::directory::{Visited, visit_at};
use crate::entry::Entry;
use f11_bytes::NoMemory;
use std::collections::BTreeSet;

/// Takes the name of an entry, if it is that of a file, and tells whether it was taken before.
///
/// # Errors
///
/// `NoMemory` where there is no memory for it.
pub(crate) fn take_name(names: &mut BTreeSet<[u16; 3]>, entry: &Entry) -> Result<bool, NoMemory>
    ensures { IfOk result (λ repeated. (words : List ℕ) → SaysEntry entry.now words
        → TakesName words repeated names.old names.new) }
{
    if !entry.is_permanent() {
        return Ok(false);
    }
    let added = names.insert(entry.name)?;
    Ok(!added)
}

/// Takes the names of the files of the segment at place `j`.
///
/// # Errors
///
/// `NoMemory` where there is no memory for them.
pub(crate) fn take_names(
    names: &mut BTreeSet<[u16; 3]>,
    visited: &[Visited],
    j: usize,
) -> Result<(), NoMemory>
    requires { j < length visited.now }
    ensures { OnOk result (TakesNames visited.now j 0 (j + 1) 0 names.old names.new) }
{
    let segment = &visit_at(visited, j).segment;
    for i in 0..segment.entry_count() {
        take_name(names, &segment.entry(i))?;
    }
    Ok(())
}
