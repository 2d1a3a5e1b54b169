//! What is read of a volume, and what is found of it without another transfer: all faults, and the notes of blocks and headers.
ghost use Rattle.std.specs.Prelude.{◌≡◌, ◌↔◌, ◌<◌, ◌≤◌, ◌*◌, length, IfOk, IsErrOf, IsTrue, OnOk};
ghost use Rattle.f11_bits.specs.Bitmap.{LiesWithin as BitmapLiesWithin};
ghost use Rattle.f11_index.specs.Kept.{index_kept, IndexLiesWithin};
ghost use Rattle.f11_vfy.specs.Scanning.Parts.{IsReading};
ghost use Rattle.f11_vfy.specs.Surveying.Bits.{has};

use crate::chains::{Chains, find_chains};
use crate::fault::ReadFault;
use crate::findings::kept::Kept;
use crate::findings::scans::{Kind, add_each, add_headers, add_lost, add_marked};
use crate::survey::bits::Bits;
use crate::survey::headers::{Survey, survey_headers};
use crate::survey::space::free_blocks;
use f11_bytes::NoMemory;
use f11_dev::Device;
use f11_findings::Findings;
use f11_index::IndexFile;
use std::alloc::Global;

/// The code of a block that is named twice.
const NAMED_TWICE: u8 = 9;

/// The code of a block that is named and free.
const NAMED_FREE: u8 = 10;

/// The code of a header that is linked twice.
const LINKED_TWICE: u8 = 12;

/// What was read of a volume.
#[derive(Drop)]
pub struct Reading {
    pub(crate) survey: Survey,
    pub(crate) chains: Chains,
    /// The free blocks.
    pub(crate) free: Bits,
    /// Its parts are of one size.
    pub ghost whole: { IsReading survey chains free },
}

impl Reading {
    ghost use Rattle.f11_dev.specs.Image.{Image};
    ghost use Rattle.f11_findings.specs.Finding.{IsExactly};
    ghost use Rattle.f11_volume.specs.Faults.{IsVolumeFault};
    ghost use Rattle.f11_vfy.specs.Scanning.Kept.{KeepsBlocks};
    ghost use Rattle.f11_vfy.specs.Scanning.Reading.{bitmap_at, ReadsVolume, FailsToScan, LacksMemoryToScan, ShowsVolume, IsFirstNote};
    ghost use Rattle.f11_volume.specs.Volume.{Volume};

    /// Reads a volume of `size` blocks whose bitmap blocks are at these places: at most 126 places, with a bit for each block; one
    /// may be there more than once. It reads each of them once at most, and then each header whose slot is in use, once. What is to be
    /// kept of these blocks is put into `kept`.
    ///
    /// It takes three bits for each block of the volume, two for each that a pointer can name where one names a block outside, and some 30
    /// bytes a slot, besides what is put into `kept`.
    ///
    /// # Errors
    ///
    /// `DeviceFault` where a transfer failed; `NoMemory` where there was no memory for what is kept.
    pub fn read<D: Device>(
        alloc: Global,
        device: &mut D,
        index: &IndexFile,
        places: &[u32],
        size: u32,
        kept: &mut Kept,
    ) -> Result<Reading, ReadFault>
        requires within { IndexLiesWithin (index_kept index.now) (length (D.disk device.old).image) }
        requires few { length places.now ≤ 126 }
        requires covered { size ≤ 4096 * length places.now }
        requires bitmap { BitmapLiesWithin (bitmap_at places.now size)
            (length (D.disk device.old).image) }
        ensures reads { IfOk result (λ reading.
            ReadsVolume (index_kept index.now) (bitmap_at places.now size) reading
            (D.disk device.old) (D.disk device.new)) }
        ensures keeps { OnOk result (KeepsBlocks (index_kept index.now) (bitmap_at places.now size)
            (D.disk device.old) kept.old kept.new) }
        ensures failed { IsErrOf result ReadFault.DeviceFault
            → FailsToScan (index_kept index.now) (bitmap_at places.now size)
            (D.disk device.old) (D.disk device.new) }
        ensures no_memory { IsErrOf result ReadFault.NoMemory
            → LacksMemoryToScan (index_kept index.now) (bitmap_at places.now size)
            (D.disk device.old) (D.disk device.new) }
    {
        let free = free_blocks(alloc, device, places, size, &mut kept.last)?;
        let survey = survey_headers(alloc, device, index, size, &mut kept.extensions)?;
        let chains = find_chains(alloc, &survey.slots)?;
        Ok(Reading {
            survey,
            chains,
            free,
        })
    }

    /// The faults of the volume, in the order of their codes and numbers.
    ///
    /// # Errors
    ///
    /// `NoMemory` where there is no memory for them.
    pub fn faults(&self, alloc: Global) -> Result<Findings, NoMemory>
        ensures exact { IfOk result (λ found. (v : Volume) → ShowsVolume v self.now
            → IsExactly (IsVolumeFault v) found) }
    {
        let Survey {
            tally,
            outside,
            slots,
        } = &self.survey;
        let chains = &self.chains;
        let named_free = tally.once.common(alloc, &self.free)?;
        let mut found = Findings::new(alloc);
        add_headers(&mut found, Kind::BadHeader, slots, chains)?;
        add_each(&mut found, outside)?;
        add_marked(&mut found, NAMED_TWICE, &tally.twice)?;
        add_marked(&mut found, NAMED_FREE, &named_free)?;
        add_headers(&mut found, Kind::WrongLink, slots, chains)?;
        add_marked(&mut found, LINKED_TWICE, &chains.linked.twice)?;
        add_headers(&mut found, Kind::LinkPastLast, slots, chains)?;
        add_headers(&mut found, Kind::LinkToVolume, slots, chains)?;
        Ok(found)
    }

    /// The notes of blocks and of headers, those of the codes 1 to 5, in the order of their codes and numbers.
    ///
    /// # Errors
    ///
    /// `NoMemory` where there is no memory for them.
    pub fn notes(&self, alloc: Global) -> Result<Findings, NoMemory>
        ensures exact { IfOk result (λ found. (image : Image) → (v : Volume)
            → ShowsVolume v self.now → IsExactly (IsFirstNote image v) found) }
    {
        let slots = &self.survey.slots;
        let mut found = Findings::new(alloc);
        add_lost(&mut found, &self.survey.tally.once, &self.free)?;
        add_headers(&mut found, Kind::DeadHeader, slots, &self.chains)?;
        add_headers(&mut found, Kind::Orphan, slots, &self.chains)?;
        add_headers(&mut found, Kind::Marked, slots, &self.chains)?;
        add_headers(&mut found, Kind::NotClosed, slots, &self.chains)?;
        Ok(found)
    }
}

impl Reading {
    ghost use Rattle.f11_volume.specs.Volume.{Volume};
    ghost use Rattle.f11_vfy.specs.Scanning.Reading.{ShowsVolume};
    ghost use Rattle.f11_vfy.specs.Surveying.Extensions.{IsExtension};

    /// Whether header `n`, of one of the slots, is one of a file.
    pub(crate) fn in_file(&self, n: u16) -> bool
        requires { n ≤ length self.now.survey.slots.items }
        ensures { result ≡ has self.now.chains.in_file n }
    {
        self.chains.in_file.contains(u32::from(n))
    }

    /// Whether header `n`, of one of the slots, is valid and has another segment number than 0.
    pub(crate) fn is_extension(&self, n: u16) -> bool
        requires { (0 < n) × (n ≤ length self.now.survey.slots.items) }
        ensures { (v : Volume) → ShowsVolume v self.now → IsTrue result ↔ IsExtension v.table n }
    {
        self.survey.slots[usize::from(n) - 1].is_extension()
    }
}
