//! Volumes that are served whether they have faults or not.
ghost use Rattle.std.specs.Prelude.{◌≡◌, IsTrue, IfOk, IfErr, find};
ghost use Rattle.f11_dev.specs.Disk.{Disk};
ghost use Rattle.f11_dev.specs.Looked.{Looked};
ghost use Rattle.rt11_volume.specs.AnyDirectory.{is_sound_file_named};
ghost use Rattle.rt11_volume.specs.Calls.{FailsToLook, most_transfers};
ghost use Rattle.rt11_volume.specs.Directory.{IsSized};
ghost use Rattle.rt11_volume.specs.Surveying.{Surveys};

use crate::any_entries::{RtEntry, entries_of};
use crate::any_state::{RtState, state_by};
use crate::directory::{LookFault, visit_all};
use crate::name::RtName;
use crate::segment::Segment;
use crate::verifier::faults::find_faults;
use crate::verifier::verdict::{Faults, Notes, is_sized, wrong_size};
use f11_bytes::NoMemory;
use f11_dev::Device;
use std::alloc::Global;
use std::marker::Model;

/// The entries of a directory in their order. Contracts see it as the list.
#[derive(Drop)]
pub struct RtEntries {
    list: Vec<RtEntry>,
}

impl Model for RtEntries {
    ghost use Rattle.std.specs.Prelude.{List};
    ghost use Rattle.rt11_volume.specs.declared.any_entries.RtEntry.{RtEntry as OneEntry};

    ghost Value = { List OneEntry };

    ghost view = { λ e. e.list.items };
}

impl RtEntries {
    /// They, in their order.
    pub fn as_slice(&self) -> &[RtEntry]
        ensures { result.now ≡ self.now }
    {
        &self.list
    }

    /// The first of a file with this name that can be taken out.
    pub fn find(&self, name: &RtName) -> Option<RtEntry>
        ensures { result ≡ find (is_sound_file_named name.now) self.now }
    {
        self.list
            .iter()
            .copied()
            .find(|entry| entry.is_sound_file_named(name))
    }
}

/// What is found of a volume, whether it has faults or not.
#[derive(Drop)]
pub enum RtSurvey {
    /// How it is, and all entries that can be read of its directory.
    Read(RtState, RtEntries),
    /// Its directory hasn't the size that it should have, so nothing of it is read: its faults, and what is worth a note.
    Unreadable(Faults, Notes),
}

/// That the directory can't be read.
fn unreadable(alloc: Global) -> Result<RtSurvey, NoMemory>
    ensures { IfOk result (λ found. (old new : Disk) → (IsTrue old.honest → ¬ IsSized old.image)
        → Looked old new most_transfers 0 → Surveys found old new) }
{
    let (faults, notes) = wrong_size(alloc)?;
    Ok(RtSurvey::Unreadable(faults, notes))
}

/// Looks for the faults of an RT-11 volume, as [`verify`](crate::verify) does, and reads the entries of its directory: those of segment 1
/// and of the segments that follow it by their links, as far as these lead on and the extra bytes of each are right (profile). It writes
/// nothing, reads each block of the directory once at most, of at most 31 segments, and takes memory for these and for the lists.
///
/// # Errors
///
/// `DeviceFault` where a transfer failed, and `NoMemory` where there was no memory.
pub fn survey<D: Device>(alloc: Global, device: &mut D) -> Result<RtSurvey, LookFault>
    ensures surveys { IfOk result (λ found.
        Surveys found (D.disk device.old) (D.disk device.new)) }
    ensures failed { IfErr result (λ fault.
        FailsToLook fault (D.disk device.old) (D.disk device.new)) }
{
    let blocks = device.blocks();
    if blocks < 8 {
        return Ok(unreadable(alloc)?);
    }
    let first = Segment::read(device, 1)?;
    if !is_sized(&first, blocks) {
        return Ok(unreadable(alloc)?);
    }
    let visited = visit_all(alloc, device, first)?;
    let faults = find_faults(alloc, &visited, blocks)?;
    let list = entries_of(alloc, &visited)?;
    let state = state_by(&faults, &list);
    Ok(RtSurvey::Read(state, RtEntries { list }))
}
