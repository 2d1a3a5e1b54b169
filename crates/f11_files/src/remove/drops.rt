//! Headers that go: each is killed, its slot leaves use, and its blocks are marked free.
ghost use Rattle.std.specs.Prelude.{◌≡◌, ◌<◌, ◌≤◌, ◌*◌, ◌^◌, IfErr, IsTrue, None, OnOk, drop, length};
ghost use Rattle.f11_chain.specs.Calls.{HoldsHeader};
ghost use Rattle.f11_files.specs.Answers.{is_fatal, is_refused};
ghost use Rattle.f11_image_store.specs.Confines.{no_header, only_header};
ghost use Rattle.f11_files.specs.Removing.Drops.{AreAllUnreferenced, BreaksOff, FreesSlot, DropsBehind, DropsHeader, GivesBlocks, GivesRun, HangsBehind, MayDrop, drop_cost, headers_behind, tail_cost};
ghost use Rattle.f11_image_store.specs.FileLaws.{pointers_in};
ghost use Rattle.f11_files.specs.Structure.{home_of, index_in, store_on, IsStructureFor, StandsAlike, StaysFor, WritesParts};
ghost use Rattle.f11_header.specs.Header.{holds_header};
ghost use Rattle.f11_map.specs.HeaderBlock.{blocks_named};
ghost use Rattle.f11_index.specs.Table.{table_of};
ghost use Rattle.f11_store.specs.Changes.{is_in, with_file};
ghost use Rattle.f11_volume.specs.Volume.{volume_of};
ghost use Rattle.f11_writes.specs.NameLaws.{AreUnreferenced};

use crate::answer::refusal_for;
use crate::structure::Structure;
use f11_bytes::Block;
use f11_chain::{MOST_HEADERS, next};
use f11_dev::Device;
use f11_header::kill;
use f11_map::in_hand;
use f11_store::Refusal;

impl Structure {
    /// Marks `count` blocks from LBN `lbn` on free, 256 at most: two bitmap blocks at most are read and written.
    ///
    /// # Errors
    ///
    /// `DeviceFault` where a transfer failed, `Damaged` where they aren't all in the volume.
    fn give_run<D: Device>(&mut self, device: &mut D, lbn: u32, count: u32) -> Result<(), Refusal>
        requires is_for { IsStructureFor self.old (D.disk device.old) }
        requires lbn { lbn < 2 ^ 25 }
        requires few { count ≤ 256 }
        requires unreferenced { IsTrue (D.disk device.old).honest → 0 < count
            → AreUnreferenced (volume_of (D.disk device.old).image (home_of self.old)) lbn count }
        ensures given { OnOk result
            (GivesRun (home_of self.old) lbn count (D.disk device.old) (D.disk device.new)) }
        ensures refused { IfErr result (λ refusal. BreaksOff (home_of self.old)
            (store_on self.old (D.disk device.old)) 4 refusal (D.disk device.old)
            (D.disk device.new)) }
        ensures stays { StaysFor (is_refused is_fatal result) self.old self.new
            (D.disk device.new) }
        ensures confined { WritesParts self.old no_header (D.disk device.old) (D.disk device.new) }
        ensures places { OnOk result (StandsAlike self.old self.new) }
    {
        if count == 0 {
            return Ok(());
        }
        if lbn + count > self.storage.size() {
            return Err(Refusal::Damaged);
        }
        match self.storage.give(device, lbn, count) {
            Ok(()) => Ok(()),
            Err(_) => Err(Refusal::DeviceFault),
        }
    }

    /// Marks the blocks of a header free but for the first so many: those of a pointer together.
    ///
    /// # Errors
    ///
    /// As those of [`Structure::give_run`].
    pub(crate) fn give_from<D: Device>(
        &mut self,
        device: &mut D,
        block: &Block,
        keep: u32,
    ) -> Result<(), Refusal>
        requires is_for { IsStructureFor self.old (D.disk device.old) }
        requires header { IsTrue (holds_header block.now) }
        requires unreferenced { IsTrue (D.disk device.old).honest
            → AreAllUnreferenced (volume_of (D.disk device.old).image (home_of self.old))
            (drop keep (blocks_named block.now)) }
        ensures given { OnOk result (GivesBlocks (home_of self.old)
            (drop keep (blocks_named block.now)) (pointers_in block.now)
            (D.disk device.old) (D.disk device.new)) }
        ensures refused { IfErr result (λ refusal. BreaksOff (home_of self.old)
            (store_on self.old (D.disk device.old)) (4 * pointers_in block.now) refusal
            (D.disk device.old) (D.disk device.new)) }
        ensures stays { StaysFor (is_refused is_fatal result) self.old self.new
            (D.disk device.new) }
        ensures confined { WritesParts self.old no_header (D.disk device.old) (D.disk device.new) }
        ensures places { OnOk result (StandsAlike self.old self.new) }
    {
        let map = in_hand::map(block);
        let mut left = keep;
        for i in 0..map.runs() {
            let (lbn, count) = map.run(i);
            let kept = left.min(count);
            self.give_run(device, lbn + kept, count - kept)?;
            left -= kept;
        }
        Ok(())
    }

    /// Kills header `n`, which the block holds, and takes its slot out of use: two writes.
    ///
    /// # Errors
    ///
    /// `DeviceFault` where a transfer failed.
    fn free_slot<D: Device>(&mut self, device: &mut D, n: u16, block: &Block) -> Result<(), Refusal>
        requires is_for { IsStructureFor self.old (D.disk device.old) }
        requires holds { HoldsHeader (index_in self.old) n block.now (D.disk device.old) }
        requires may { IsTrue (D.disk device.old).honest
            → MayDrop (table_of (D.disk device.old).image (home_of self.old)) n }
        ensures freed { OnOk result
            (FreesSlot (home_of self.old) n block.now (D.disk device.old) (D.disk device.new)) }
        ensures refused { IfErr result (λ refusal. BreaksOff (home_of self.old)
            (with_file (store_on self.old (D.disk device.old)) n None) 2 refusal
            (D.disk device.old) (D.disk device.new)) }
        ensures stays { StaysFor (is_refused is_fatal result) self.old self.new
            (D.disk device.new) }
        ensures confined { WritesParts self.old (only_header n) (D.disk device.old)
            (D.disk device.new) }
        ensures places { OnOk result (StandsAlike self.old self.new) }
    {
        let mut dead = *block;
        kill(&mut dead);
        match device.write(self.index.lbn_of_header(n), &dead) {
            Ok(()) => {}
            Err(_) => return Err(Refusal::DeviceFault),
        }
        match self.index.clear(device, n) {
            Ok(()) => Ok(()),
            Err(_) => Err(Refusal::DeviceFault),
        }
    }

    /// Drops header `n`, which the block holds: it is killed, its slot leaves use, and its blocks are marked free.
    ///
    /// # Errors
    ///
    /// As those of [`Structure::give_run`].
    pub(crate) fn drop_header<D: Device>(
        &mut self,
        device: &mut D,
        n: u16,
        block: &Block,
    ) -> Result<(), Refusal>
        requires is_for { IsStructureFor self.old (D.disk device.old) }
        requires holds { HoldsHeader (index_in self.old) n block.now (D.disk device.old) }
        requires may { IsTrue (D.disk device.old).honest
            → MayDrop (table_of (D.disk device.old).image (home_of self.old)) n }
        ensures dropped { OnOk result
            (DropsHeader (home_of self.old) n block.now (D.disk device.old) (D.disk device.new)) }
        ensures refused { IfErr result (λ refusal. BreaksOff (home_of self.old)
            (with_file (store_on self.old (D.disk device.old)) n None) (drop_cost block.now) refusal
            (D.disk device.old) (D.disk device.new)) }
        ensures stays { StaysFor (is_refused is_fatal result) self.old self.new
            (D.disk device.new) }
        ensures confined { WritesParts self.old (only_header n) (D.disk device.old)
            (D.disk device.new) }
        ensures places { OnOk result (StandsAlike self.old self.new) }
    {
        self.free_slot(device, n, block)?;
        self.give_from(device, block, 0)
    }

    /// Drops the headers behind the one that the block holds, in order; none of them is one of a file.
    ///
    /// # Errors
    ///
    /// `DeviceFault` where a transfer failed, `Damaged` where a header, a link or a block isn't as it should be.
    pub(crate) fn drop_behind<D: Device>(
        &mut self,
        device: &mut D,
        block: &mut Block,
    ) -> Result<(), Refusal>
        requires is_for { IsStructureFor self.old (D.disk device.old) }
        requires header { IsTrue (holds_header block.old) }
        requires hangs { IsTrue (D.disk device.old).honest
            → HangsBehind (table_of (D.disk device.old).image (home_of self.old)) block.old
            (headers_behind (table_of (D.disk device.old).image (home_of self.old)) block.old) }
        ensures dropped { OnOk result
            (DropsBehind (home_of self.old) block.old (D.disk device.old) (D.disk device.new)) }
        ensures refused { IfErr result (λ refusal. BreaksOff (home_of self.old)
            (store_on self.old (D.disk device.old))
            (tail_cost (table_of (D.disk device.old).image (home_of self.old))
            (headers_behind (table_of (D.disk device.old).image (home_of self.old)) block.old))
            refusal (D.disk device.old) (D.disk device.new)) }
        ensures stays { StaysFor (is_refused is_fatal result) self.old self.new
            (D.disk device.new) }
        ensures confined { let t = table_of (D.disk device.old).image (home_of self.old) in
            IsTrue (D.disk device.old).honest → WritesParts self.old
            (is_in (headers_behind t block.old)) (D.disk device.old) (D.disk device.new) }
        ensures places { OnOk result (StandsAlike self.old self.new) }
    {
        for _ in 0..MOST_HEADERS {
            let n = match next(device, &self.index, block) {
                Ok(Some(n)) => n,
                Ok(None) => return Ok(()),
                Err(fault) => return Err(refusal_for(fault)),
            };
            self.drop_header(device, n, block)?;
        }
        Err(Refusal::Damaged)
    }
}
