//! What is found of a volume's directories, one record after another.
ghost use Rattle.f11_store.specs.File.{most_blocks};
ghost use Rattle.std.specs.Prelude.{◌≡◌, ◌+◌, ◌<◌, length, slice_index_or, [], IfOk, OnOk};
ghost use Rattle.f11_dir.specs.Records.{record_of_bytes};
ghost use Rattle.f11_store.specs.Directory.{record_at};

use crate::directories::contents::Directory;
use crate::directories::flaws::{Flaw, enter, is_name};
use crate::survey::bits::Bits;
use crate::survey::slot::Slot;
use f11_bytes::{Block, NoMemory};
use f11_dir::{Record, record_at};
use f11_findings::Findings;
use std::alloc::Global;
use std::collections::BTreeSet;

/// What is found of the directories so far: a list a flaw, so that none is put before many others.
#[derive(Drop)]
pub(crate) struct Gathered {
    /// The files that a record names.
    pub(crate) entered: Bits,
    /// The records that name no file.
    pub(crate) no_file: Findings,
    /// The records that repeat a name.
    pub(crate) repeated: Findings,
    /// The records that have no name.
    pub(crate) no_name: Findings,
    /// The blocks that were read and hold no record, before a directory's end or behind it.
    pub(crate) blank: Bits,
    /// The names of the records so far of the directory in hand.
    names: BTreeSet<[u16; 5]>,
}

impl Gathered {
    ghost use Rattle.f11_vfy.specs.Surveying.Bits.{limit_of};
    ghost use Rattle.f11_vfy.specs.Directory.Reading.{until};
    ghost use Rattle.f11_vfy.specs.Directory.Gathered.{Begins, HasGatheredNothing, TakesOn};

    /// Nothing is found yet, of a volume of so many slots, on a device of so many blocks.
    ///
    /// # Errors
    ///
    /// `NoMemory` where there is no memory for a bit a slot and a bit a block.
    pub(crate) fn new(alloc: Global, slots: u32, blocks: u32) -> Result<Gathered, NoMemory>
        requires { slots < 65536 }
        ensures new { IfOk result (λ gathered. HasGatheredNothing gathered) }
        ensures limit { IfOk result (λ gathered. limit_of gathered.entered ≡ slots + 1) }
        ensures room { IfOk result (λ gathered. limit_of gathered.blank ≡ blocks) }
    {
        Ok(Gathered {
            entered: Bits::new(alloc, slots + 1)?,
            no_file: Findings::new(alloc),
            repeated: Findings::new(alloc),
            no_name: Findings::new(alloc),
            blank: Bits::new(alloc, blocks)?,
            names: BTreeSet::new(alloc),
        })
    }

    /// Takes the next directory in hand, of which no name is known yet.
    pub(crate) fn begin(&mut self, alloc: Global)
        ensures { Begins self.old self.new }
    {
        self.names = BTreeSet::new(alloc);
    }

    /// Takes record `i` of directory `d`, where those before it are taken.
    ///
    /// # Errors
    ///
    /// `NoMemory` where there is no memory for its name or for a finding.
    fn take_record(
        &mut self,
        slots: &[Slot],
        d: u16,
        i: u32,
        record: &Record,
    ) -> Result<(), NoMemory>
        requires { limit_of self.old.entered ≡ length slots.now + 1 }
        ensures { OnOk result (TakesOn slots.now d
            (λ _ blocks. record.now ≡ record_of_bytes (record_at blocks i)) i (i + 1)
            self.old self.new) }
    {
        if record.is_empty() {
            return Ok(());
        }
        let added = self.names.insert(record.words)?;
        let file = enter(slots, record.id, &mut self.entered);
        self.no_file.add_if(!file, Flaw::NoFile.of(d, i))?;
        self.repeated.add_if(!added, Flaw::Repeated.of(d, i))?;
        self.no_name
            .add_if(!is_name(record.words), Flaw::NoName.of(d, i))?;
        Ok(())
    }

    /// Takes the records before the end in block `at`, from 0, of a directory, where those before it are taken.
    ///
    /// # Errors
    ///
    /// `NoMemory` where there is no memory for their names or for a finding.
    pub(crate) fn take_block(
        &mut self,
        slots: &[Slot],
        dir: Directory,
        at: u32,
        block: &Block,
    ) -> Result<(), NoMemory>
        requires limit { limit_of self.old.entered ≡ length slots.now + 1 }
        requires few { at < most_blocks }
        ensures { OnOk result (TakesOn slots.now dir.d
            (λ _ blocks. slice_index_or blocks at [] ≡ block.now)
            (until dir.end at) (until dir.end (at + 1)) self.old self.new) }
    {
        for k in 0..dir.end.saturating_sub(u64::from(32 * at)).min(32) as u32 {
            let record = record_at(block, k as usize);
            self.take_record(slots, dir.d, 32 * at + k, &record)?;
        }
        Ok(())
    }
}
