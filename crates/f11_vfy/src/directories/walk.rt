//! A directory, header by header along the links that are kept, and each header's blocks one after another.
ghost use Rattle.f11_store.specs.File.{most_blocks};
ghost use Rattle.std.specs.Prelude.{◌≡◌, ◌+◌, ◌-◌, ◌<◌, ◌≤◌, ◌/◌, ◌^◌, length, IfOk, IsErrOf, IsTrue, OnOk};
ghost use Rattle.std.specs.List.{range_with_len};
ghost use Rattle.f11_dev.specs.Looked.{Looked};
ghost use Rattle.f11_header.specs.Header.{holds_header};
ghost use Rattle.f11_map.specs.HeaderBlock.{blocks_named};
ghost use Rattle.f11_index.specs.Kept.{index_kept, IndexLiesWithin};

use crate::directories::blank::{add_blank, are_in, is_in};
use crate::directories::contents::{Directory, is_live, record_end};
use crate::directories::gathered::Gathered;
use crate::fault::ReadFault;
use crate::survey::headers::read_slot;
use crate::survey::slot::Slot;
use f11_bytes::{BLOCK_SIZE, Block};
use f11_chain::MOST_HEADERS;
use f11_dev::Device;
use f11_index::IndexFile;
use f11_map::in_hand::map;
use std::alloc::Global;

impl Gathered {
    ghost use Rattle.f11_vfy.specs.Surveying.Bits.{limit_of};
    ghost use Rattle.f11_vfy.specs.Directory.Gathered.{TakesOn};
    ghost use Rattle.f11_vfy.specs.Directory.Reading.{until, wanted, HoldsDirectoryBlock, TakesBlocks, TakesHeader, TakesHeaders, TakesDirectory};
    ghost use Rattle.f11_vfy.specs.Directory.Reading.{LooksAtHeader, LooksAtHeaders, LooksFor};

    /// Takes the block at an LBN, which is block `at` of a directory, where those before it are taken. It reads it into `into`, unless an
    /// earlier read found no record in it.
    ///
    /// # Errors
    ///
    /// `DeviceFault` where the transfer failed; `NoMemory` where there was no memory for a name or for a finding.
    fn take_at<D: Device>(
        &mut self,
        device: &mut D,
        slots: &[Slot],
        dir: Directory,
        at: u32,
        lbn: u32,
        into: &mut Block,
    ) -> Result<(), ReadFault>
        requires limit { limit_of self.old.entered ≡ length slots.now + 1 }
        requires few { at < most_blocks }
        requires within { lbn < length (D.disk device.old).image }
        ensures takes { OnOk result (TakesOn slots.now dir.d (HoldsDirectoryBlock (D.disk device.old) lbn at)
            (until dir.end at) (until dir.end (at + 1)) self.old self.new) }
        ensures looked { OnOk result (Looked (D.disk device.old) (D.disk device.new) 1 0) }
        ensures failed { IsErrOf result ReadFault.DeviceFault
            → Looked (D.disk device.old) (D.disk device.new) 1 1 }
        ensures no_memory { IsErrOf result ReadFault.NoMemory
            → Looked (D.disk device.old) (D.disk device.new) 1 0 }
    {
        if is_in(&self.blank, lbn) {
            return Ok(());
        }
        device.read(lbn, into)?;
        self.take_block(slots, dir, at, into)?;
        add_blank(&mut self.blank, lbn, into);
        Ok(())
    }

    /// Takes the blocks from an LBN on, so many, which are those of a directory from its block `at` on. It reads those that have a place
    /// before the end, each into `into`, unless an earlier read found no record in it; a block past the device's end counts as zeros, and
    /// takes no step. Where no block has to be read, 64 of them take a step.
    ///
    /// # Errors
    ///
    /// `DeviceFault` where a transfer failed; `NoMemory` where there was no memory for a name or for a finding.
    fn take_pointer<D: Device>(
        &mut self,
        device: &mut D,
        slots: &[Slot],
        dir: Directory,
        at: u32,
        run: (u32, u32),
        into: &mut Block,
    ) -> Result<(), ReadFault>
        requires limit { limit_of self.old.entered ≡ length slots.now + 1 }
        requires few { at + run.1 ≤ most_blocks }
        requires lbn { run.0 < 2 ^ 24 }
        ensures takes { OnOk result (TakesBlocks slots.now dir at (range_with_len run.0 run.1)
            self.old self.new (D.disk device.old) (D.disk device.new)) }
        ensures failed { IsErrOf result ReadFault.DeviceFault
            → Looked (D.disk device.old) (D.disk device.new) (wanted dir.end at run.1) 1 }
        ensures no_memory { IsErrOf result ReadFault.NoMemory
            → Looked (D.disk device.old) (D.disk device.new) (wanted dir.end at run.1) 0 }
    {
        let (lbn, count) = run;
        let there = device.blocks().saturating_sub(lbn);
        let left = dir.wanted(at, count).min(there);
        if are_in(&self.blank, lbn, lbn + left) {
            return Ok(());
        }
        for k in 0..left {
            self.take_at(device, slots, dir, at + k, lbn + k, into)?;
        }
        Ok(())
    }

    /// Takes the blocks that a header of a directory names, which are those from its block `at` on, and gives how many there are.
    ///
    /// # Errors
    ///
    /// `DeviceFault` where a transfer failed; `NoMemory` where there was no memory for a name or for a finding.
    fn take_pointers<D: Device>(
        &mut self,
        device: &mut D,
        slots: &[Slot],
        dir: Directory,
        at: u32,
        block: &Block,
    ) -> Result<u32, ReadFault>
        requires header { IsTrue (holds_header block.now) }
        requires limit { limit_of self.old.entered ≡ length slots.now + 1 }
        requires few { at + 32512 ≤ most_blocks }
        ensures count { IfOk result (λ count. count ≡ length (blocks_named block.now)) }
        ensures few { IfOk result (λ count. count ≤ 32512) }
        ensures takes { OnOk result (TakesBlocks slots.now dir at (blocks_named block.now)
            self.old self.new (D.disk device.old) (D.disk device.new)) }
        ensures failed { IsErrOf result ReadFault.DeviceFault
            → Looked (D.disk device.old) (D.disk device.new)
            (wanted dir.end at (length (blocks_named block.now))) 1 }
        ensures no_memory { IsErrOf result ReadFault.NoMemory
            → Looked (D.disk device.old) (D.disk device.new)
            (wanted dir.end at (length (blocks_named block.now))) 0 }
    {
        let map = map(block);
        let mut into = [0; BLOCK_SIZE];
        let mut behind = at;
        for i in 0..map.runs() {
            let run = map.run(i);
            self.take_pointer(device, slots, dir, behind, run, &mut into)?;
            behind += run.1;
        }
        Ok(behind - at)
    }

    /// Takes the blocks that header `n` of a directory names, which are those from its block `at` on, and gives how many there are. It
    /// reads the header once.
    ///
    /// # Errors
    ///
    /// `DeviceFault` where a transfer failed; `NoMemory` where there was no memory for a name or for a finding.
    fn take_header<D: Device>(
        &mut self,
        device: &mut D,
        index: &IndexFile,
        slots: &[Slot],
        dir: Directory,
        at: u32,
        n: u16,
    ) -> Result<u32, ReadFault>
        requires within { IndexLiesWithin (index_kept index.now) (length (D.disk device.old).image) }
        requires limit { limit_of self.old.entered ≡ length slots.now + 1 }
        requires few { at + 32512 ≤ most_blocks }
        ensures takes { IfOk result (λ count.
            TakesHeader (index_kept index.now) slots.now dir at n count
            self.old self.new (D.disk device.old) (D.disk device.new)) }
        ensures failed { IsErrOf result ReadFault.DeviceFault → LooksAtHeader (index_kept index.now)
            dir.end at n (D.disk device.old) (D.disk device.new) 1 }
        ensures no_memory { IsErrOf result ReadFault.NoMemory → LooksAtHeader (index_kept index.now)
            dir.end at n (D.disk device.old) (D.disk device.new) 0 }
    {
        let mut block = [0; BLOCK_SIZE];
        let state = read_slot(device, index, n, &mut block)?;
        if !is_live(state) {
            return Ok(0);
        }
        let count = self.take_pointers(device, slots, dir, at, &block)?;
        Ok(count)
    }

    /// Takes the headers of a directory from its second one on, which is `second` (0 for none), with the next header of each slot as it is
    /// kept, where the blocks before block `at` are taken.
    ///
    /// # Errors
    ///
    /// `DeviceFault` where a transfer failed; `NoMemory` where there was no memory for a name or for a finding.
    fn take_headers<D: Device>(
        &mut self,
        device: &mut D,
        index: &IndexFile,
        slots: &[Slot],
        nexts: &[u16],
        dir: Directory,
        at: u32,
        second: u16,
    ) -> Result<(), ReadFault>
        requires within { IndexLiesWithin (index_kept index.now) (length (D.disk device.old).image) }
        requires limit { limit_of self.old.entered ≡ length slots.now + 1 }
        requires few { at ≤ 32512 }
        ensures takes { OnOk result
            (TakesHeaders (index_kept index.now) slots.now nexts.now dir at second 255
            self.old self.new (D.disk device.old) (D.disk device.new)) }
        ensures failed { IsErrOf result ReadFault.DeviceFault
            → LooksAtHeaders (index_kept index.now) nexts.now dir at second 255
            (D.disk device.old) (D.disk device.new) 1 }
        ensures no_memory { IsErrOf result ReadFault.NoMemory
            → LooksAtHeaders (index_kept index.now) nexts.now dir at second 255
            (D.disk device.old) (D.disk device.new) 0 }
    {
        let mut behind = at;
        let mut n = second;
        for _ in 1..MOST_HEADERS {
            if n == 0 {
                return Ok(());
            }
            if usize::from(n) > nexts.len() || dir.wanted(behind, 1) == 0 {
                return Ok(());
            }
            behind += self.take_header(device, index, slots, dir, behind, n)?;
            n = nexts[usize::from(n) - 1];
        }
        Ok(())
    }

    /// Takes the directory whose first header is that of slot `d`, with the next header of each slot as it is kept. It reads each of its
    /// headers once, 256 at most, and each block once that has a place before the end, but none that an earlier read found without a
    /// record.
    ///
    /// # Errors
    ///
    /// `DeviceFault` where a transfer failed; `NoMemory` where there was no memory for a name or for a finding.
    pub(crate) fn take_directory<D: Device>(
        &mut self,
        alloc: Global,
        device: &mut D,
        index: &IndexFile,
        slots: &[Slot],
        nexts: &[u16],
        d: u16,
    ) -> Result<(), ReadFault>
        requires within { IndexLiesWithin (index_kept index.now) (length (D.disk device.old).image) }
        requires limit { limit_of self.old.entered ≡ length slots.now + 1 }
        requires slot { (0 < d) × (d ≤ length nexts.now) }
        ensures takes { OnOk result (TakesDirectory (index_kept index.now) slots.now nexts.now d
            self.old self.new (D.disk device.old) (D.disk device.new)) }
        ensures failed { IsErrOf result ReadFault.DeviceFault
            → LooksFor (index_kept index.now) nexts.now d
            (D.disk device.old) (D.disk device.new) 1 }
        ensures no_memory { IsErrOf result ReadFault.NoMemory
            → LooksFor (index_kept index.now) nexts.now d
            (D.disk device.old) (D.disk device.new) 0 }
    {
        let mut block = [0; BLOCK_SIZE];
        let state = read_slot(device, index, d, &mut block)?;
        if !is_live(state) {
            return Ok(());
        }
        let end = record_end(&block);
        let dir = Directory { d, end };
        self.begin(alloc);
        let at = self.take_pointers(device, slots, dir, 0, &block)?;
        self.take_headers(
            device,
            index,
            slots,
            nexts,
            dir,
            at,
            nexts[usize::from(d) - 1],
        )
    }
}
