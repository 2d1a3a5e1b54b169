//! A file that is laid out in one run of blocks.
ghost use Rattle.std.specs.Prelude.{◌≡◌, ◌+◌, ◌<◌, ◌≤◌, false, IfErr, IfOk, IsTrue, OnOk, true};
ghost use Rattle.std.specs.List.{range_with_len};
ghost use Rattle.f11_image_store.specs.Allocation.{free_list};
ghost use Rattle.f11_files.specs.Answers.{is_clean, is_fatal, is_refused, Breaks, WritesMoreOf};
ghost use Rattle.f11_image_store.specs.Confines.{either, new_header};
ghost use Rattle.f11_files.specs.LayingOut.Lay.{laying_cost, run_free, LayingRun, LaysRun};
ghost use Rattle.f11_files.specs.Extending.Tail.{GrowthStandsWithin, HoldsLast, ConfinesGrowth};
ghost use Rattle.f11_files.specs.LayingOut.Whole.{lost, FailsToLayOut, FailsToLayOutHeld, HoldsRunRoom, LaysOutFile, LaysOutHeld};
ghost use Rattle.f11_files.specs.Structure.{bitmap_in, counts_of, home_of, index_in, store_on, ConfinesTo, IsStructureFor, StaysFor};
ghost use Rattle.f11_header.specs.Header.{holds_header};
ghost use Rattle.f11_image_store.specs.FileLaws.{room_in};
ghost use Rattle.f11_index.specs.Headers.{headers_of};
ghost use Rattle.f11_index.specs.Table.{table_of};
ghost use Rattle.f11_store.specs.Changes.{is_in};
ghost use Rattle.f11_store.specs.Contiguous.{next_blocks};
ghost use Rattle.f11_store.specs.File.{run_pointers};
ghost use Rattle.f11_store.specs.Pieces.{file_numbered, MayGrowAs};
ghost use Rattle.f11_volume.specs.Volume.{volume_of};
ghost use Rattle.f11_writes.specs.NameLaws.{AreUnreferenced};

use crate::answer::{is_fatal, is_no_file};
use crate::change::fields::Alteration;
use crate::extend::room::{PLACES, need, room_of};
use crate::extend::runs::tail_of;
use crate::extend::tail::Tail;
use crate::files::Files;
use crate::lay_out::room::judge_run;
use crate::structure::Structure;
use f11_bytes::{BLOCK_SIZE, Block};
use f11_chain::FileEnd;
use f11_dev::Device;
use f11_map::{POINTER_BLOCKS, run_pointers};
use f11_store::{FileId, Refusal};

/// How many of so many blocks come next: those for which the last header has places, or else a new one.
fn next_blocks(block: &Block, left: u32) -> u32
    requires { IsTrue (holds_header block.now) }
    ensures { result ≡ next_blocks (room_in block.now) left }
{
    let room = room_of(block) as u32;
    left.min(POINTER_BLOCKS * if room == 0 { PLACES } else { room })
}

/// What a refusal is for a file that was found before: it isn't as it should be where it isn't found any more.
fn when_found(refusal: Refusal) -> Refusal
    ensures { result ≡ lost refusal }
{
    if is_no_file(refusal) {
        Refusal::Damaged
    } else {
        refusal
    }
}

impl Structure {
    /// Gives a file without blocks `n` from `lbn` on, which are in use and named by no header, header by header: those that its last one has
    /// places for, and then those of a new one after another.
    ///
    /// # Errors
    ///
    /// Those of [`Structure::append_run`].
    fn lay_run<D: Device>(
        &mut self,
        device: &mut D,
        tail: &mut Tail,
        lbn: u32,
        n: u32,
    ) -> Result<(), Refusal>
        requires is_for { IsStructureFor self.old (D.disk device.old) }
        requires last { HoldsLast self.old tail.old (D.disk device.old) }
        requires own { 4 ≤ tail.old.file.number }
        requires within { lbn + n ≤ (bitmap_in self.old).size }
        requires some { 0 < n }
        requires unreferenced { IsTrue (D.disk device.old).honest
            → AreUnreferenced (volume_of (D.disk device.old).image (home_of self.old)) lbn n }
        requires empty { let f = file_numbered (store_on self.old (D.disk device.old))
            tail.old.file.number in
            IsTrue (D.disk device.old).honest → f.pointers ≡ 0 }
        requires may { IsTrue (D.disk device.old).honest → MayGrowAs
            (run_free self.old n (D.disk device.old)) tail.old.file.number n (run_pointers n) }
        ensures laid { OnOk result (LaysRun self.old self.new tail.old lbn n
            (D.disk device.old) (D.disk device.new)) }
        ensures refused { let k = tail.old.file.number in IfErr result (λ refusal. Breaks
            (LayingRun self.old k n (D.disk device.old))
            (laying_cost self.old k n (D.disk device.old) + 4) refusal
            (D.disk device.old) (D.disk device.new)) }
        ensures stays { StaysFor (is_refused is_fatal result) self.old self.new
            (D.disk device.new) }
        ensures confined { ConfinesGrowth self.old tail.old (range_with_len lbn n)
            (D.disk device.old) (D.disk device.new) }
        ensures places { OnOk result
            (GrowthStandsWithin self.old tail.old (range_with_len lbn n) self.new tail.new) }
        ensures last { OnOk result (HoldsLast self.new tail.new (D.disk device.new)) }
    {
        let mut left = n;
        while left > 0 {
            let count = next_blocks(&tail.block, left);
            self.append_run(device, tail, lbn + (n - left), count)?;
            left -= count;
        }
        Ok(())
    }

    /// Lays a file without blocks out in one run, whose first and last header are in hand, and for which there is room.
    ///
    /// # Errors
    ///
    /// `NoRun` where nowhere `n` blocks are free in a row, `DeviceFault` where a transfer failed, and those of [`Structure::lay_run`].
    fn lay_out_held<D: Device>(
        &mut self,
        device: &mut D,
        f: FileId,
        n: u32,
        end: FileEnd,
        first: &Block,
        last: &Block,
    ) -> Result<(), Refusal>
        requires is_for { IsStructureFor self.old (D.disk device.old) }
        requires own { 4 ≤ f.number }
        requires some { 0 < n }
        requires room { HoldsRunRoom self.old f n end first.now last.now (D.disk device.old) }
        ensures laid { OnOk result
            (LaysOutHeld (home_of self.old) f n (D.disk device.old) (D.disk device.new)) }
        ensures refused { IfErr result (λ refusal. FailsToLayOutHeld self.old f n refusal
            (D.disk device.old) (D.disk device.new)) }
        ensures stays { StaysFor (is_refused is_fatal result) self.old self.new
            (D.disk device.new) }
        ensures counts { is_refused is_clean result ≡ true → counts_of self.new ≡ counts_of
            self.old }
        ensures confined { let t = table_of (D.disk device.old).image (home_of self.old) in
            IsTrue (D.disk device.old).honest → ConfinesTo self.old
            (either (is_in (headers_of t f.number)) (new_header (index_in self.old)))
            (free_list (volume_of (D.disk device.old).image (home_of self.old)))
            (D.disk device.old) (D.disk device.new) }
    {
        let lbn = match self.take_whole_run(device, n) {
            Ok(Some(lbn)) => lbn,
            Ok(None) => return Err(Refusal::NoRun),
            Err(_) => return Err(Refusal::DeviceFault),
        };
        let mut tail = tail_of(f, first, end.number, last);
        self.lay_run(device, &mut tail, lbn, n)?;
        match self.alter(device, f, Some(&tail), Alteration::MarkContiguous) {
            Ok(()) => Ok(()),
            Err(refusal) => Err(when_found(refusal)),
        }
    }

    /// Lays a file without blocks out in one run of `n` blocks of zeros.
    ///
    /// # Errors
    ///
    /// Those of [`Structure::find_end`], [`judge_run`] and [`Structure::lay_out_held`].
    pub(crate) fn contiguous<D: Device>(
        &mut self,
        device: &mut D,
        f: FileId,
        n: u32,
    ) -> Result<u32, Refusal>
        requires is_for { IsStructureFor self.old (D.disk device.old) }
        requires own { 4 ≤ f.number }
        requires some { 0 < n }
        ensures laid { IfOk result (λ blocks. (blocks ≡ n)
            × LaysOutFile (home_of self.old) f n (D.disk device.old) (D.disk device.new)) }
        ensures refused { IfErr result (λ refusal. FailsToLayOut false (home_of self.old) f n
            refusal (D.disk device.old) (D.disk device.new)) }
        ensures stays { StaysFor (is_refused is_fatal result) self.old self.new
            (D.disk device.new) }
        ensures counts { is_refused is_clean result ≡ true → counts_of self.new ≡ counts_of
            self.old }
        ensures confined { WritesMoreOf f.number (home_of self.old) (D.disk device.old)
            (D.disk device.new) }
    {
        let mut first = [0; BLOCK_SIZE];
        let mut last = [0; BLOCK_SIZE];
        let end = self.find_end(device, f, &mut first, &mut last)?;
        let room = room_of(&last);
        let (free, more) = (self.storage.free(), need(room, run_pointers(n)));
        judge_run(
            end.blocks,
            end.headers,
            room,
            free,
            self.headers_for(more),
            n,
        )?;
        self.lay_out_held(device, f, n, end, &first, &last)?;
        Ok(n)
    }
}

impl<D: Device> Files<D> {
    ghost use Rattle.f11_files.specs.Open.{disk_in, has_failed, home_in, AnswersCall, IsIdFrom, CallSparesLost};

    /// Lays a file without blocks out in one run of `n` blocks of zeros, and answers how many it has then. The run is the lowest place that has
    /// `n` free blocks in a row. Its blocks are marked used, all of them; then, header by header, they are made zeros and named, in pointers of
    /// 256 blocks and one for the rest: by the file's last header, as far as that has places, and then by new ones in the least free slots, each
    /// of which is written before its bit, and that before the link to it. Last the contiguous mark (UC.CON) is set. The index file gets no slots
    /// first, and no memory is taken. Where it is refused, but for `DeviceFault` and `Damaged`, nothing is written.
    ///
    /// # Errors
    ///
    /// `VolumeFailed` where an earlier call answered `DeviceFault` or `Damaged`, `NoSuchFile` where no file has this identification,
    /// `NotEmpty` where it has a block, `TooManySegments` where it would have over 256 headers, `DeviceFull` where fewer blocks are free,
    /// `NoHeader` where fewer headers are free than it needs, `NoRun` where nowhere `n` blocks are free in a row, `DeviceFault` where a transfer
    /// failed, `Damaged` where a header or a link isn't as it should be, or no header is found free though one should be: on no honest device.
    pub fn contiguous(&mut self, f: FileId, n: u32) -> Result<u32, Refusal>
        requires id { IsIdFrom 4 f }
        requires some { 0 < n }
        ensures answers { AnswersCall result self.old self.new }
        ensures laid { IfOk result (λ blocks. (blocks ≡ n)
            × LaysOutFile (home_in self.old) f n (disk_in self.old) (disk_in self.new)) }
        ensures refused { IfErr result (λ refusal. FailsToLayOut (has_failed self.old)
            (home_in self.old) f n refusal (disk_in self.old) (disk_in self.new)) }
        ensures confined { WritesMoreOf f.number (home_in self.old) (disk_in self.old)
            (disk_in self.new) }
        ensures lost { CallSparesLost self.old self.new }
    {
        if self.failed {
            return Err(Refusal::VolumeFailed);
        }
        self.seen = None;
        let answer = self.structure.contiguous(&mut self.device, f, n);
        self.failed = is_fatal(&answer);
        answer
    }
}
