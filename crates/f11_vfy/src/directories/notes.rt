//! The notes of a volume's directories.
ghost use Rattle.std.specs.Prelude.{◌≡◌, ◌↔◌, ◌<◌, ◌+◌, false, true, length, IsTrue, IfOk, IsErrOf, OnOk};
ghost use Rattle.f11_findings.specs.Finding.{finding};
ghost use Rattle.f11_index.specs.Kept.{index_kept, IndexLiesWithin};
ghost use Rattle.f11_vfy.specs.Surveying.Bits.{has, limit_of};
ghost use Rattle.f11_findings.specs.Found.{Finds, FoundAmong};
ghost use Rattle.f11_vfy.specs.Scanning.Scans.{IsFileSlot};
ghost use Rattle.f11_vfy.specs.Surveying.Slot.{kept_slot};

use crate::directories::gathered::Gathered;
use crate::fault::ReadFault;
use crate::findings::reading::Reading;
use crate::findings::scans::add_all;
use crate::survey::bits::Bits;
use crate::survey::slot::Slot;
use f11_bytes::NoMemory;
use f11_dev::Device;
use f11_findings::{Finding, Findings};
use f11_index::IndexFile;
use std::alloc::Global;

/// The code of a file that is in no directory.
const IN_NONE: u8 = 6;

/// Whether a slot's header is a directory's first.
fn is_directory(slot: &Slot) -> bool
    ensures { IsTrue result ↔ (IsFileSlot slot.now × (slot.now.directory ≡ true)) }
{
    slot.is_file() && slot.directory
}

/// Whether slot `k + 1` has a file that no record enters.
fn is_unentered(slots: &[Slot], entered: &Bits, k: usize) -> bool
    requires few { length slots.now < 65536 }
    requires slot { k < length slots.now }
    requires limit { limit_of entered.now ≡ length slots.now + 1 }
    ensures { IsTrue result
        ↔ (IsFileSlot (kept_slot slots.now k) × (has entered.now (k + 1) ≡ false)) }
{
    slots[k].is_file() && !entered.contains(k as u32 + 1)
}

/// Adds the files that no record enters.
///
/// # Errors
///
/// `NoMemory` where there is no memory for a finding.
fn add_unentered(found: &mut Findings, slots: &[Slot], entered: &Bits) -> Result<(), NoMemory>
    requires few { length slots.now < 65536 }
    requires limit { limit_of entered.now ≡ length slots.now + 1 }
    ensures { OnOk result (Finds (FoundAmong
        (λ k. IsFileSlot (kept_slot slots.now k) × (has entered.now (k + 1) ≡ false))
        (λ k. finding 6 (k + 1) 0) (length slots.now)) found.old found.new) }
{
    for k in 0..slots.len() {
        let holds = is_unentered(slots, entered, k);
        let finding = Finding {
            code: IN_NONE,
            a: k as u32 + 1,
            b: 0,
        };
        found.add_if(holds, finding)?;
    }
    Ok(())
}

impl Reading {
    ghost use Rattle.f11_vfy.specs.Directory.Notes.{AddsDirectoryNotes, NotesVolume, LooksThrough, LooksAt, JudgesSlot, JudgesUpTo};

    /// Judges slot `k + 1`: it reads the directory that the slot has, if it has one.
    fn judge_slot<D: Device>(
        &self,
        alloc: Global,
        device: &mut D,
        index: &IndexFile,
        k: usize,
        gathered: &mut Gathered,
    ) -> Result<(), ReadFault>
        requires within { IndexLiesWithin (index_kept index.now) (length (D.disk device.old).image) }
        requires slot { k < length self.now.survey.slots.items }
        requires limit { limit_of gathered.old.entered ≡ length self.now.survey.slots.items + 1 }
        ensures judges { OnOk result (JudgesSlot (index_kept index.now) self.now k gathered.old
            gathered.new
            (D.disk device.old) (D.disk device.new)) }
        ensures failed { IsErrOf result ReadFault.DeviceFault
            → LooksAt (index_kept index.now) self.now k (D.disk device.old) (D.disk device.new) 1 }
        ensures no_memory { IsErrOf result ReadFault.NoMemory
            → LooksAt (index_kept index.now) self.now k (D.disk device.old) (D.disk device.new) 0 }
    {
        let d = k as u16 + 1;
        if !is_directory(&self.survey.slots[k]) {
            return Ok(());
        }
        let nexts = &self.chains.nexts;
        gathered.take_directory(alloc, device, index, &self.survey.slots, nexts, d)?;
        Ok(())
    }

    /// Judges the directories, in ascending order.
    fn judge_directories<D: Device>(
        &self,
        alloc: Global,
        device: &mut D,
        index: &IndexFile,
    ) -> Result<Gathered, ReadFault>
        requires within { IndexLiesWithin (index_kept index.now) (length (D.disk device.old).image) }
        ensures judges { IfOk result (λ gathered. JudgesUpTo (index_kept index.now) self.now
            (length self.now.survey.slots.items) gathered (D.disk device.old) (D.disk device.new)) }
        ensures failed { IsErrOf result ReadFault.DeviceFault
            → LooksThrough (index_kept index.now) self.now (D.disk device.old)
            (D.disk device.new) 1 }
        ensures no_memory { IsErrOf result ReadFault.NoMemory
            → LooksThrough (index_kept index.now) self.now (D.disk device.old)
            (D.disk device.new) 0 }
    {
        let mut gathered = Gathered::new(alloc, self.survey.slots.len() as u32, device.blocks())?;
        for k in 0..self.survey.slots.len() {
            self.judge_slot(alloc, device, index, k, &mut gathered)?;
        }
        Ok(gathered)
    }

    /// Adds the notes of directories, those of the codes 6 to 9, to those of the codes 1 to 5. For each directory it reads each of its
    /// headers once, 256 at most, and each block once that has a place before the end, but none that an earlier read found without a
    /// record.
    ///
    /// # Errors
    ///
    /// `DeviceFault` where a transfer failed; `NoMemory` where there was no memory for a directory's names or for a note.
    pub(crate) fn add_directory_notes<D: Device>(
        &self,
        alloc: Global,
        device: &mut D,
        index: &IndexFile,
        found: &mut Findings,
    ) -> Result<(), ReadFault>
        requires within { IndexLiesWithin (index_kept index.now) (length (D.disk device.old).image) }
        ensures adds { OnOk result (AddsDirectoryNotes (index_kept index.now) self.now
            found.old found.new (D.disk device.old) (D.disk device.new)) }
        ensures failed { IsErrOf result ReadFault.DeviceFault
            → LooksThrough (index_kept index.now) self.now (D.disk device.old)
            (D.disk device.new) 1 }
        ensures no_memory { IsErrOf result ReadFault.NoMemory
            → LooksThrough (index_kept index.now) self.now (D.disk device.old)
            (D.disk device.new) 0 }
    {
        let gathered = self.judge_directories(alloc, device, index)?;
        add_unentered(found, &self.survey.slots, &gathered.entered)?;
        let Gathered {
            no_file,
            repeated,
            no_name,
            ..
        } = gathered;
        add_all(found, no_file)?;
        add_all(found, repeated)?;
        add_all(found, no_name)?;
        Ok(())
    }

    /// All notes of the volume, in the order of their codes and numbers. It reads the directories.
    ///
    /// # Errors
    ///
    /// `DeviceFault` where a transfer failed; `NoMemory` where there was no memory for a directory's names or for a note.
    pub(crate) fn all_notes<D: Device>(
        &self,
        alloc: Global,
        device: &mut D,
        index: &IndexFile,
    ) -> Result<Findings, ReadFault>
        requires within { IndexLiesWithin (index_kept index.now) (length (D.disk device.old).image) }
        ensures notes { IfOk result (λ notes. NotesVolume (index_kept index.now) self.now notes
            (D.disk device.old) (D.disk device.new)) }
        ensures failed { IsErrOf result ReadFault.DeviceFault
            → LooksThrough (index_kept index.now) self.now (D.disk device.old)
            (D.disk device.new) 1 }
        ensures no_memory { IsErrOf result ReadFault.NoMemory
            → LooksThrough (index_kept index.now) self.now (D.disk device.old)
            (D.disk device.new) 0 }
    {
        let mut notes = self.notes(alloc)?;
        self.add_directory_notes(alloc, device, index, &mut notes)?;
        self.add_last_notes(&mut notes)?;
        Ok(notes)
    }
}
