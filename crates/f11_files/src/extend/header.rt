//! A new last header of a file.
ghost use Rattle.std.specs.Prelude.{◌≡◌, ◌+◌, ◌<◌, ◌≤◌, ◌==◌, ◌^◌, IfErr, IfOk, IsTrue, OnOk, []};
ghost use Rattle.std.specs.List.{range_with_len};
ghost use Rattle.f11_files.specs.Answers.{is_fatal, is_refused, Breaks};
ghost use Rattle.f11_image_store.specs.Confines.{new_header};
ghost use Rattle.f11_store.specs.Pieces.{with_more_free, MayGrowAs};
ghost use Rattle.f11_files.specs.Extending.Header.{AppendingRun, AppendsRun, EntersHeader, IsExtension, TakesSlot};
ghost use Rattle.f11_image_store.specs.FileLaws.{room_in};
ghost use Rattle.f11_files.specs.Extending.Growing.{WhileTaking};
ghost use Rattle.f11_files.specs.Extending.Slots.{GetsBlocks};
ghost use Rattle.f11_index.specs.Kept.{room};
ghost use Rattle.f11_files.specs.Structure.{bitmap_in, home_of, index_in, store_on, IsStructureFor, StaysFor, WritesParts};
ghost use Rattle.f11_files.specs.Extending.Tail.{GrowthStandsWithin, HoldsLast, MayBeGiven, ConfinesGrowth};
ghost use Rattle.f11_header.specs.Header.{holds_header};
ghost use Rattle.f11_map.specs.HeaderBlock.{segment_number};
ghost use Rattle.f11_store.specs.File.{run_pointers};
ghost use Rattle.f11_store.specs.Store.{free_headers};

use crate::create::next_sequence;
use crate::extend::tail::Tail;
use crate::structure::Structure;
use f11_bytes::{BLOCK_SIZE, Block};
use f11_dev::Device;
use f11_header::blank;
use f11_map::in_hand;
use f11_store::{FileId, Refusal};

/// The segment number that the last header of a file has at most (profile: 256 headers).
const LAST_SEGMENT: u8 = 255;

/// Makes a block the header of a file behind its last one, with these blocks alone.
fn fill_extension(block: &mut Block, id: FileId, tail: &Tail, lbn: u32, count: u32)
    requires number { 0 < id.number }
    requires sequence { 0 < id.sequence }
    requires held { IsTrue (holds_header tail.now.block) }
    requires early { segment_number tail.now.block < 255 }
    requires low { lbn + count ≤ 2 ^ 24 }
    requires some { 0 < count }
    requires fits { run_pointers count ≤ 102 }
    ensures { IsExtension tail.now id lbn count block.new }
{
    let segment = in_hand::map(&tail.block).segment();
    blank(block, id, tail.owner, tail.protection, segment + 1);
    // it has no pointer yet, and places for 102
    let _ = in_hand::append_runs(block, lbn, count);
}

impl Structure {
    /// Makes a header for `count` blocks of zeros from `lbn` on, which no header names, in the least free slot: it is written, and then
    /// the slot's bit. It follows a file's last header, but none links to it yet. Gives its identification, and its block: one read
    /// and two writes.
    ///
    /// # Errors
    ///
    /// `DeviceFault` where a transfer failed, `Damaged` where no slot is free, though one should be.
    pub(crate) fn enter_header<D: Device>(
        &mut self,
        device: &mut D,
        tail: &Tail,
        lbn: u32,
        count: u32,
        block: &mut Block,
    ) -> Result<FileId, Refusal>
        requires is_for { IsStructureFor self.old (D.disk device.old) }
        requires last { HoldsLast self.old tail.now (D.disk device.old) }
        requires early { segment_number tail.now.block < 255 }
        requires given { MayBeGiven (home_of self.old) lbn count (D.disk device.old) }
        requires fits { run_pointers count ≤ 102 }
        requires free { IsTrue (D.disk device.old).honest
            → 0 < free_headers (store_on self.old (D.disk device.old)) }
        ensures entered { IfOk result (λ id. EntersHeader self.old self.new tail.now lbn count id
            block.new (D.disk device.old) (D.disk device.new)) }
        ensures refused { IfErr result (λ refusal. Breaks
            (WhileTaking (home_of self.old) 0 1 (store_on self.old (D.disk device.old))
            (D.disk device.old))
            3 refusal (D.disk device.old) (D.disk device.new)) }
        ensures stays { StaysFor (is_refused is_fatal result) self.old self.new
            (D.disk device.new) }
        ensures confined { WritesParts self.old (new_header (index_in self.old)) (D.disk device.old)
            (D.disk device.new) }
        ensures places { IfOk result (λ id. TakesSlot self.old self.new id.number) }
    {
        let Some(number) = self.index.least_free() else {
            return Err(Refusal::Damaged);
        };
        let at = self.index.lbn_of_header(number);
        match device.read(at, block) {
            Ok(()) => {}
            Err(_) => return Err(Refusal::DeviceFault),
        }
        let id = FileId {
            number,
            sequence: next_sequence(block),
            volume: 0,
        };
        fill_extension(block, id, tail, lbn, count);
        match device.write(at, block) {
            Ok(()) => {}
            Err(_) => return Err(Refusal::DeviceFault),
        }
        match self.index.set(device, number) {
            Ok(()) => Ok(id),
            Err(_) => Err(Refusal::DeviceFault),
        }
    }

    /// Gives a file a header more, behind its last one, which has no place left, with `count` blocks of zeros from `lbn` on, which no
    /// header names: the header is written, its slot's bit, and then the link to it. It is the last one then, and where the file is
    /// the index file, the blocks are slots. One read and three writes.
    ///
    /// # Errors
    ///
    /// Those of [`Structure::enter_header`], and `Damaged` where the file has 256 headers, though it shouldn't.
    pub(crate) fn add_header<D: Device>(
        &mut self,
        device: &mut D,
        tail: &mut Tail,
        lbn: u32,
        count: u32,
    ) -> Result<(), Refusal>
        requires is_for { IsStructureFor self.old (D.disk device.old) }
        requires last { HoldsLast self.old tail.old (D.disk device.old) }
        requires gets { GetsBlocks tail.old.file.number }
        requires given { MayBeGiven (home_of self.old) lbn count (D.disk device.old) }
        requires within { lbn + count ≤ (bitmap_in self.old).size }
        requires full { room_in tail.old.block ≡ 0 }
        requires fits { run_pointers count ≤ 102 }
        requires reserved { IsTrue (tail.old.file.number == 1) → count ≤ room self.old.index }
        requires may { let free = with_more_free (store_on self.old (D.disk device.old)) count in
            IsTrue (D.disk device.old).honest
            → MayGrowAs free tail.old.file.number count (run_pointers count) }
        ensures appended { OnOk result (AppendsRun self.old self.new tail.old tail.new lbn count 1
            (D.disk device.old) (D.disk device.new)) }
        ensures refused { IfErr result (λ refusal. Breaks
            (AppendingRun self.old tail.old count (D.disk device.old)) 4 refusal
            (D.disk device.old) (D.disk device.new)) }
        ensures stays { StaysFor (is_refused is_fatal result) self.old self.new
            (D.disk device.new) }
        ensures confined { ConfinesGrowth self.old tail.old [] (D.disk device.old)
            (D.disk device.new) }
        ensures places { OnOk result
            (GrowthStandsWithin self.old tail.old (range_with_len lbn count) self.new tail.new) }
    {
        if in_hand::map(&tail.block).segment() == LAST_SEGMENT {
            return Err(Refusal::Damaged);
        }
        let mut block = [0; BLOCK_SIZE];
        let id = self.enter_header(device, tail, lbn, count, &mut block)?;
        match self.link_tail(device, tail, id, lbn, count) {
            Ok(()) => {}
            Err(_) => return Err(Refusal::DeviceFault),
        }
        tail.number = id.number;
        tail.block = block;
        Ok(())
    }
}
