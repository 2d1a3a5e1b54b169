//! Files that are marked contiguous, and aren't.
ghost use Rattle.std.specs.Prelude.{◌≡◌, ◌<◌, ◌+◌, ◌↔◌, length, IsTrue, OnOk};
ghost use Rattle.f11_findings.specs.Finding.{finding};
ghost use Rattle.f11_index.specs.Table.{Table, IsLive};
ghost use Rattle.f11_vfy.specs.Chain.{KeepsTable, KnowsNexts};
ghost use Rattle.f11_vfy.specs.Scanning.Contiguous.{IsMarkedContiguous, IsApart};
ghost use Rattle.f11_findings.specs.Found.{Finds, FoundAmong};
ghost use Rattle.f11_vfy.specs.Surveying.Extent.{LieAs};
ghost use Rattle.f11_volume.specs.Contents.{blocks_reached};

use crate::findings::reading::Reading;
use crate::findings::scans::has_bit;
use crate::survey::extent::Extent;
use crate::survey::slot::Slot;
use f11_bytes::NoMemory;
use f11_chain::MOST_HEADERS;
use f11_findings::{Finding, Findings};

/// The code of a file that is marked contiguous, and isn't.
const NOT_CONTIGUOUS: u8 = 10;

/// The bit of the contiguous mark among the characteristics (UC.CON).
const CONTIGUOUS: u32 = 7;

/// Where the blocks lie of the file whose first header is that of slot `first`, with the next header of each slot as it is kept: those of
/// its headers, 256 at most, one after another.
fn extent_of_file(slots: &[Slot], nexts: &[u16], first: usize) -> Extent
    requires count { length nexts.now ≡ length slots.now }
    ensures { (t : Table) → KeepsTable t slots.now → KnowsNexts t nexts.now → IsLive t first
        → LieAs (blocks_reached t first) result }
{
    let mut extent = Extent::Empty;
    let mut n = first;
    for _ in 0..MOST_HEADERS {
        if n == 0 || n > slots.len() {
            return extent;
        }
        extent = extent.join(slots[n - 1].extent);
        n = usize::from(nexts[n - 1]);
    }
    extent
}

/// Whether a slot's header is the first of a file that is marked contiguous.
fn is_marked_contiguous(slot: &Slot) -> bool
    ensures { IsTrue result ↔ IsMarkedContiguous slot.now }
{
    slot.is_file() && has_bit(slot.characteristics, CONTIGUOUS)
}

/// Whether slot `k + 1` has a file that is marked contiguous, and isn't.
fn is_apart(slots: &[Slot], nexts: &[u16], k: usize) -> bool
    requires slot { k < length slots.now }
    requires count { length nexts.now ≡ length slots.now }
    ensures { (t : Table) → KeepsTable t slots.now → KnowsNexts t nexts.now
        → IsTrue result ↔ IsApart t (k + 1) }
{
    is_marked_contiguous(&slots[k]) && extent_of_file(slots, nexts, k + 1).is_scattered()
}

/// Adds the files that are marked contiguous, and aren't. It takes a step for each header of those that are marked.
///
/// # Errors
///
/// `NoMemory` where there is no memory for a finding.
fn add_apart(found: &mut Findings, slots: &[Slot], nexts: &[u16]) -> Result<(), NoMemory>
    requires few { length slots.now < 65536 }
    requires count { length nexts.now ≡ length slots.now }
    ensures { OnOk result ((t : Table) → KeepsTable t slots.now → KnowsNexts t nexts.now
        → Finds (FoundAmong (λ k. IsApart t (k + 1)) (λ k. finding 10 (k + 1) 0)
        (length slots.now)) found.old found.new) }
{
    for k in 0..slots.len() {
        let holds = is_apart(slots, nexts, k);
        let finding = Finding {
            code: NOT_CONTIGUOUS,
            a: k as u32 + 1,
            b: 0,
        };
        found.add_if(holds, finding)?;
    }
    Ok(())
}

impl Reading {
    ghost use Rattle.f11_dev.specs.Image.{Image};
    ghost use Rattle.f11_volume.specs.Volume.{Volume};
    ghost use Rattle.f11_vfy.specs.Scanning.Contiguous.{IsLastNote};
    ghost use Rattle.f11_vfy.specs.Scanning.Reading.{ShowsVolume};

    /// Adds the notes of the code 10 to those of lower codes: the files that are marked contiguous, and aren't.
    ///
    /// # Errors
    ///
    /// `NoMemory` where there is no memory for a note.
    pub(crate) fn add_last_notes(&self, found: &mut Findings) -> Result<(), NoMemory>
        ensures { OnOk result ((image : Image) → (v : Volume) → ShowsVolume v self.now
            → Finds (IsLastNote image v) found.old found.new) }
    {
        add_apart(found, &self.survey.slots, &self.chains.nexts)
    }
}
