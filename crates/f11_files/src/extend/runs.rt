//! A file that grows: it gets more blocks, run by run, which are zeros.
ghost use Rattle.std.specs.Prelude.{◌≡◌, ◌+◌, ◌-◌, ◌*◌, ◌/◌, ◌<◌, ◌≤◌, ◌==◌, false, IfErr, IfOk, IsTrue, OnOk, true};
ghost use Rattle.f11_bits.specs.Transfers.{blocks_from};
ghost use Rattle.std.specs.List.{range_with_len};
ghost use Rattle.f11_image_store.specs.Allocation.{free_list};
ghost use Rattle.f11_files.specs.Answers.{is_fatal, is_clean, is_refused, Breaks, WritesMoreOf};
ghost use Rattle.f11_image_store.specs.Confines.{either, new_header};
ghost use Rattle.f11_store.specs.Pieces.{with_more_free, file_numbered, MayGrowAs};
ghost use Rattle.f11_files.specs.Extending.Room.{HoldsRoom};
ghost use Rattle.f11_files.specs.Extending.Runs.{AddsRun, ExtendsFile, ExtendsInHand, GrowingByRuns, GrowsByRuns};
ghost use Rattle.f11_files.specs.Extending.Runs.{headers_for, FailsToExtend, FailsToExtendHeld, IsLengthAfter, IsTailOf};
ghost use Rattle.f11_files.specs.Extending.Header.{AppendingRun, AppendsRun};
ghost use Rattle.f11_files.specs.Extending.Growing.{GrowingBy};
ghost use Rattle.f11_files.specs.Extending.Slots.{GetsBlocks};
ghost use Rattle.f11_index.specs.Kept.{room};
ghost use Rattle.f11_files.specs.Structure.{counts_of, bitmap_in, home_of, store_on, index_in, IsStructureFor, StaysFor, ConfinesTo};
ghost use Rattle.f11_files.specs.Extending.Tail.{GrowthStandsWithin, HoldsLast, ConfinesGrowth, ownership_of, places_next};
ghost use Rattle.f11_files.specs.Extending.Take.{NoneFreeBelow};
ghost use Rattle.f11_files.specs.GrowingIndex.Headroom.{WritesAfterSlots};
ghost use Rattle.f11_header.specs.Header.{holds_header};
ghost use Rattle.f11_index.specs.Headers.{headers_of};
ghost use Rattle.f11_index.specs.Table.{table_of};
ghost use Rattle.f11_store.specs.Changes.{is_in};
ghost use Rattle.f11_store.specs.File.{need, run_pointers};
ghost use Rattle.f11_volume.specs.Volume.{volume_of};
ghost use Rattle.f11_writes.specs.NameLaws.{AreUnreferenced};

use crate::answer::is_fatal;
use crate::extend::room::{is_too_long, need, room_of};
use crate::extend::tail::Tail;
use crate::files::Files;
use crate::structure::Structure;
use f11_bytes::{BLOCK_SIZE, Block};
use f11_chain::FileEnd;
use f11_dev::Device;
use f11_header::Header;
use f11_map::in_hand::link;
use f11_store::{FileId, Refusal};

/// A file's last header in hand: the first, where that links to none, or else this one.
pub(crate) fn tail_of(file: FileId, first: &Block, number: u16, last: &Block) -> Tail
    requires { IsTrue (holds_header first.now) }
    ensures tail { IsTailOf file first.now number last.now result }
{
    let header = Header::new(first);
    let alone = link(first).number == 0;
    Tail {
        file,
        owner: header.owner(),
        protection: header.protection(),
        number: if alone { file.number } else { number },
        block: if alone { *first } else { *last },
    }
}

impl Structure {
    /// Gives a file `count` blocks from `lbn` on, which are in use and named by no header: they are made zeros, and its last header names
    /// them, or a new one that it links to then. Where it is the index file they are slots.
    ///
    /// # Errors
    ///
    /// `DeviceFault` where a transfer failed, `Damaged` where no header is free, or the file has 256, though there should be room.
    pub(crate) fn append_run<D: Device>(
        &mut self,
        device: &mut D,
        tail: &mut Tail,
        lbn: u32,
        count: u32,
    ) -> Result<(), Refusal>
        requires is_for { IsStructureFor self.old (D.disk device.old) }
        requires last { HoldsLast self.old tail.old (D.disk device.old) }
        requires gets { GetsBlocks tail.old.file.number }
        requires within { lbn + count ≤ (bitmap_in self.old).size }
        requires some { 0 < count }
        requires fits { run_pointers count ≤ places_next tail.old.block }
        requires unreferenced { IsTrue (D.disk device.old).honest
            → AreUnreferenced (volume_of (D.disk device.old).image (home_of self.old)) lbn count }
        requires reserved { IsTrue (tail.old.file.number == 1) → count ≤ room self.old.index }
        requires may { let free = with_more_free (store_on self.old (D.disk device.old)) count in
            IsTrue (D.disk device.old).honest
            → MayGrowAs free tail.old.file.number count (run_pointers count) }
        ensures appended { OnOk result (AppendsRun self.old self.new tail.old tail.new lbn count
            (count + 1) (D.disk device.old) (D.disk device.new)) }
        ensures refused { IfErr result (λ refusal. Breaks
            (AppendingRun self.old tail.old count (D.disk device.old)) (count + 4) refusal
            (D.disk device.old) (D.disk device.new)) }
        ensures stays { StaysFor (is_refused is_fatal result) self.old self.new
            (D.disk device.new) }
        ensures confined { ConfinesGrowth self.old tail.old (range_with_len lbn count)
            (D.disk device.old) (D.disk device.new) }
        ensures places { OnOk result
            (GrowthStandsWithin self.old tail.old (range_with_len lbn count) self.new tail.new) }
    {
        match self.zero_run(device, lbn, count) {
            Ok(()) => {}
            Err(_) => return Err(Refusal::DeviceFault),
        }
        let named = match self.name_run(device, tail, lbn, count) {
            Ok(named) => named,
            Err(_) => return Err(Refusal::DeviceFault),
        };
        if named {
            return Ok(());
        }
        self.add_header(device, tail, lbn, count)
    }

    /// Gives a file the lowest run of free blocks, 256 at most and `most` at most: they are marked used, made zeros, and named. None below
    /// `from` is free. Gives the number of the block behind the run, and how many blocks it has.
    ///
    /// # Errors
    ///
    /// `DeviceFault` where a transfer failed, `Damaged` where no block or no header is free, though there should be room.
    fn add_run<D: Device>(
        &mut self,
        device: &mut D,
        tail: &mut Tail,
        from: u32,
        most: u32,
    ) -> Result<(u32, u32), Refusal>
        requires is_for { IsStructureFor self.old (D.disk device.old) }
        requires last { HoldsLast self.old tail.old (D.disk device.old) }
        requires gets { GetsBlocks tail.old.file.number }
        requires some { 0 < most }
        requires reserved { IsTrue (tail.old.file.number == 1) → most ≤ room self.old.index }
        requires may { IsTrue (D.disk device.old).honest
            → MayGrowAs (store_on self.old (D.disk device.old)) tail.old.file.number most most }
        requires none_below { IsTrue (D.disk device.old).honest
            → NoneFreeBelow (D.disk device.old).image (bitmap_in self.old) from }
        ensures added { IfOk result (λ run. AddsRun self.old self.new tail.old tail.new from most
            run.0 run.1 (D.disk device.old) (D.disk device.new)) }
        ensures refused { let s = store_on self.old (D.disk device.old) in
            IfErr result (λ refusal. Breaks
            (GrowingBy (home_of self.old) s tail.old.file.number most most (D.disk device.old))
            (blocks_from (bitmap_in self.old) from + 5 * most + 3) refusal
            (D.disk device.old) (D.disk device.new)) }
        ensures stays { StaysFor (is_refused is_fatal result) self.old self.new
            (D.disk device.new) }
        ensures confined { IsTrue (D.disk device.old).honest → ConfinesGrowth self.old tail.old
            (free_list (volume_of (D.disk device.old).image (home_of self.old)))
            (D.disk device.old) (D.disk device.new) }
        ensures places { let free = free_list (volume_of (D.disk device.old).image
            (home_of self.old)) in
            OnOk result (IsTrue (D.disk device.old).honest
            → GrowthStandsWithin self.old tail.old free self.new tail.new) }
    {
        let (lbn, count) = self.take_next_run(device, from, most)?;
        self.append_run(device, tail, lbn, count)?;
        Ok((lbn + count, count))
    }

    /// Gives a file `n` blocks of zeros more, the lowest that are free, where there is room for them: as slots where it is
    /// the index file. Its characteristics stay.
    ///
    /// # Errors
    ///
    /// Those of [`Structure::add_run`].
    pub(crate) fn grow_by<D: Device>(
        &mut self,
        device: &mut D,
        tail: &mut Tail,
        n: u32,
    ) -> Result<(), Refusal>
        requires is_for { IsStructureFor self.old (D.disk device.old) }
        requires last { HoldsLast self.old tail.old (D.disk device.old) }
        requires gets { GetsBlocks tail.old.file.number }
        requires reserved { IsTrue (tail.old.file.number == 1) → n ≤ room self.old.index }
        requires may { IsTrue (D.disk device.old).honest
            → MayGrowAs (store_on self.old (D.disk device.old)) tail.old.file.number n n }
        ensures grown { OnOk result (GrowsByRuns self.old tail.old.file.number
            (ownership_of tail.old) n (D.disk device.old) (D.disk device.new)) }
        ensures refused { let s = store_on self.old (D.disk device.old) in
            let k = tail.old.file.number in
            IfErr result (λ refusal. Breaks
            (GrowingByRuns self.old k n (D.disk device.old))
            (s.bitmap_blocks + 5 * n + 3 * need (file_numbered s k).room n + 3) refusal
            (D.disk device.old) (D.disk device.new)) }
        ensures stays { StaysFor (is_refused is_fatal result) self.old self.new
            (D.disk device.new) }
        ensures confined { IsTrue (D.disk device.old).honest → ConfinesGrowth self.old tail.old
            (free_list (volume_of (D.disk device.old).image (home_of self.old)))
            (D.disk device.old) (D.disk device.new) }
    {
        let mut from = 0;
        let mut left = n;
        while left > 0 {
            let (end, count) = self.add_run(device, tail, from, left)?;
            from = end;
            left -= count;
        }
        Ok(())
    }

    /// Extends a file whose first and last header are in hand by `n` blocks of zeros, for which there is room.
    ///
    /// # Errors
    ///
    /// `DeviceFault` where a transfer failed, and those of [`Structure::grow_by`].
    fn extend_held<D: Device>(
        &mut self,
        device: &mut D,
        f: FileId,
        n: u32,
        end: FileEnd,
        first: &mut Block,
        last: &Block,
    ) -> Result<(), Refusal>
        requires is_for { IsStructureFor self.old (D.disk device.old) }
        requires own { 4 ≤ f.number }
        requires room { HoldsRoom self.old f n end first.old last.now (D.disk device.old) }
        ensures extended { OnOk result
            (ExtendsInHand (home_of self.old) f n (D.disk device.old) (D.disk device.new)) }
        ensures refused { IfErr result (λ refusal. FailsToExtendHeld (home_of self.old) f n refusal
            (D.disk device.old) (D.disk device.new)) }
        ensures stays { StaysFor (is_refused is_fatal result) self.old self.new
            (D.disk device.new) }
        ensures confined { let t = table_of (D.disk device.old).image (home_of self.old) in
            IsTrue (D.disk device.old).honest → ConfinesTo self.old
            (either (is_in (headers_of t f.number)) (new_header (index_in self.old)))
            (free_list (volume_of (D.disk device.old).image (home_of self.old)))
            (D.disk device.old) (D.disk device.new) }
    {
        match self.clear_mark(device, f, first) {
            Ok(()) => {}
            Err(_) => return Err(Refusal::DeviceFault),
        }
        let mut tail = tail_of(f, first, end.number, last);
        self.grow_by(device, &mut tail, n)
    }

    /// Extends a file by `n` blocks of zeros.
    ///
    /// # Errors
    ///
    /// Those of [`Structure::find_end`], `TooManySegments` where it would have over 256 headers, and those of
    /// [`Structure::ready_headers`], [`Structure::find_still`] and [`Structure::extend_held`].
    pub(crate) fn extend<D: Device>(
        &mut self,
        device: &mut D,
        f: FileId,
        n: u32,
    ) -> Result<u32, Refusal>
        requires is_for { IsStructureFor self.old (D.disk device.old) }
        requires own { 4 ≤ f.number }
        ensures extended { IfOk result (λ blocks. IsLengthAfter (home_of self.old) f n
            (D.disk device.old) blocks
            × ExtendsFile (home_of self.old) f n (D.disk device.old) (D.disk device.new)) }
        ensures refused { IfErr result (λ refusal. FailsToExtend false (home_of self.old) f n
            refusal (D.disk device.old) (D.disk device.new)) }
        ensures stays { StaysFor (is_refused is_fatal result) self.old self.new
            (D.disk device.new) }
        ensures counts { is_refused is_clean result ≡ true → counts_of self.new ≡ counts_of
            self.old }
        ensures confined { let home = home_of self.old in
            WritesAfterSlots (headers_for home f n (D.disk device.old))
            (WritesMoreOf f.number home) home (D.disk device.old) (D.disk device.new) }
    {
        let mut first = [0; BLOCK_SIZE];
        let mut last = [0; BLOCK_SIZE];
        let end = self.find_end(device, f, &mut first, &mut last)?;
        let room = room_of(&last);
        if is_too_long(end.headers, room, n) {
            return Err(Refusal::TooManySegments);
        }
        self.ready_headers(device, need(room, n), n)?;
        self.find_still(f, end)?;
        self.extend_held(device, f, n, end, &mut first, &last)?;
        Ok(end.blocks + n)
    }
}

impl<D: Device> Files<D> {
    ghost use Rattle.f11_files.specs.Open.{disk_in, has_failed, home_in, AnswersCall, IsIdFrom, CallSparesLost};

    /// Extends a file by `n` blocks of zeros, and answers how many it has then. Where fewer headers are free than it may need, the index file
    /// first gets a slot for each that lacks, as [`Files::grow_index`] says, in its last header. Then the contiguous mark is cleared where
    /// it is set. Then the lowest free blocks are taken, a run of 256 at most after another: each is marked used, made zeros, and named
    /// by the file's last header; where that has no place, by a new header in the least free slot, which is written before its bit, and
    /// that before the link to it. Where it is refused, but for `DeviceFault` and `Damaged`, nothing is written.
    ///
    /// # Errors
    ///
    /// `VolumeFailed` where an earlier call answered `DeviceFault` or `Damaged`, `NoSuchFile` where no file has this identification,
    /// `TooManySegments` where it would have over 256 headers, `DeviceFull` where fewer blocks are free than those and those of the slots,
    /// `NoHeader` where fewer headers are free than it may need and the index file may not get slots for them (its last header has no
    /// room, or there would be more than there may be), `NoMemory` for want of memory for the slots, `DeviceFault` where a transfer
    /// failed, `Damaged` where a header or a link isn't as it should be, or no block or header is found free though one should be: on
    /// no honest device.
    pub fn extend(&mut self, f: FileId, n: u32) -> Result<u32, Refusal>
        requires id { IsIdFrom 4 f }
        requires some { 0 < n }
        ensures answers { AnswersCall result self.old self.new }
        ensures extended { IfOk result (λ blocks. IsLengthAfter (home_in self.old) f n
            (disk_in self.old) blocks
            × ExtendsFile (home_in self.old) f n (disk_in self.old) (disk_in self.new)) }
        ensures refused { IfErr result (λ refusal. FailsToExtend (has_failed self.old)
            (home_in self.old) f n refusal (disk_in self.old) (disk_in self.new)) }
        ensures confined { let home = home_in self.old in
            WritesAfterSlots (headers_for home f n (disk_in self.old)) (WritesMoreOf f.number home)
            home (disk_in self.old) (disk_in self.new) }
        ensures lost { CallSparesLost self.old self.new }
    {
        if self.failed {
            return Err(Refusal::VolumeFailed);
        }
        self.seen = None;
        let answer = self.structure.extend(&mut self.device, f, n);
        self.failed = is_fatal(&answer);
        answer
    }
}
