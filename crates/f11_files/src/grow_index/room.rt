//! More slots for the index file.
ghost use Rattle.std.specs.Prelude.{◌≡◌, ◌-◌, ◌≤◌, ◌<◌, [], false, IfErr, IfOk, OnOk, true, IsTrue};
ghost use Rattle.f11_image_store.specs.Allocation.{free_list};
ghost use Rattle.f11_image_store.specs.Confines.{either, new_header};
ghost use Rattle.f11_index.specs.Headers.{headers_of};
ghost use Rattle.f11_index.specs.Table.{table_of};
ghost use Rattle.f11_store.specs.Changes.{is_in};
ghost use Rattle.f11_volume.specs.Volume.{volume_of};
ghost use Rattle.f11_files.specs.Answers.{is_fatal, is_clean, is_refused, FailsToRead, WritesMoreOf};
ghost use Rattle.f11_files.specs.GrowingIndex.Runs.{index_id, FailsToGrow, FailsToGrowHeld, GrowsHeld, GrowsIndexFile, HoldsIndexRoom, IsSlotsAfter};
ghost use Rattle.f11_files.specs.Extending.Room.{FindsFileEnd};
ghost use Rattle.f11_image_store.specs.StoreOf.{slot_limit};
ghost use Rattle.f11_files.specs.Structure.{counts_of, home_of, store_on, index_in, ConfinesTo, IsStructureFor, StaysFor};
ghost use Rattle.f11_index.specs.IndexFile.{slots};
ghost use Rattle.f11_store.specs.Cost.{header_count};
ghost use Rattle.f11_store.specs.Store.{index_file};

use crate::answer::{is_fatal, is_no_file};
use crate::extend::room::{judge, need, room_of};
use crate::extend::runs::tail_of;
use crate::files::Files;
use crate::structure::Structure;
use f11_bytes::{BLOCK_BITS, BLOCK_SIZE, Block};
use f11_chain::FileEnd;
use f11_dev::Device;
use f11_store::{FileId, Refusal};

/// The highest file number.
const LAST_NUMBER: u32 = 65535;

/// The identification of the index file.
pub(crate) fn index_id() -> FileId
    ensures { result ≡ index_id }
{
    FileId {
        number: 1,
        sequence: 1,
        volume: 0,
    }
}

impl Structure {
    /// The most slots that the volume may have: what its home block says (H.FMAX), a bit of the index bitmap for each, and a file number.
    fn most_slots(&self) -> u32
        ensures { result ≡ slot_limit (home_of self.now) }
    {
        let bits = BLOCK_BITS * u32::from(self.home.index_blocks());
        u32::from(self.home.max_files()).min(bits.min(LAST_NUMBER))
    }

    /// How many more it may have.
    pub(crate) fn slots_left(&self) -> u32
        ensures { result ≡ slot_limit (home_of self.now) - slots (index_in self.now) }
    {
        self.most_slots().saturating_sub(self.index.slots())
    }

    /// Reads the first header of the index file, and the last.
    ///
    /// # Errors
    ///
    /// `DeviceFault` where a transfer failed, `Damaged` where a header or a link isn't as it should be.
    pub(crate) fn find_index_end<D: Device>(
        &self,
        device: &mut D,
        first: &mut Block,
        last: &mut Block,
    ) -> Result<FileEnd, Refusal>
        requires is_for { IsStructureFor self.now (D.disk device.old) }
        ensures end { IfOk result (λ end. FindsFileEnd self.now index_id end first.new last.new
            (D.disk device.old) (D.disk device.new)) }
        ensures refused { IfErr result (λ refusal. FailsToRead false []
            (header_count (index_file (store_on self.now (D.disk device.old)))) refusal
            (D.disk device.old) (D.disk device.new)) }
    {
        match self.find_end(device, index_id(), first, last) {
            Ok(end) => Ok(end),
            Err(refusal) => {
                // it is there on every accepted volume
                if is_no_file(refusal) {
                    return Err(Refusal::Damaged);
                }
                Err(refusal)
            }
        }
    }

    /// Gives the index file `n` slots more, where its first and last header are in hand, and there is room for them.
    ///
    /// # Errors
    ///
    /// `NoMemory`, and those of [`Structure::grow_by`].
    pub(crate) fn grow_held<D: Device>(
        &mut self,
        device: &mut D,
        n: u32,
        end: FileEnd,
        first: &mut Block,
        last: &Block,
    ) -> Result<(), Refusal>
        requires is_for { IsStructureFor self.old (D.disk device.old) }
        requires some { 0 < n }
        requires room { HoldsIndexRoom self.old n end first.old last.now (D.disk device.old) }
        ensures grown { OnOk result
            (GrowsHeld (home_of self.old) n (D.disk device.old) (D.disk device.new)) }
        ensures refused { IfErr result (λ refusal. FailsToGrowHeld (home_of self.old) n refusal
            (D.disk device.old) (D.disk device.new)) }
        ensures stays { StaysFor (is_refused is_fatal result) self.old self.new
            (D.disk device.new) }
        ensures counts { is_refused is_clean result ≡ true → counts_of self.new ≡ counts_of
            self.old }
        ensures confined { let t = table_of (D.disk device.old).image (home_of self.old) in
            IsTrue (D.disk device.old).honest → ConfinesTo self.old
            (either (is_in (headers_of t 1)) (new_header (index_in self.old)))
            (free_list (volume_of (D.disk device.old).image (home_of self.old)))
            (D.disk device.old) (D.disk device.new) }
    {
        match self.index.reserve(n) {
            Ok(()) => {}
            Err(_) => return Err(Refusal::NoMemory),
        }
        match self.clear_mark(device, index_id(), first) {
            Ok(()) => {}
            Err(_) => return Err(Refusal::DeviceFault),
        }
        let mut tail = tail_of(index_id(), first, end.number, last);
        self.grow_by(device, &mut tail, n)
    }

    /// Gives the index file `n` slots more.
    ///
    /// # Errors
    ///
    /// `IndexLimit` where there would be more slots than there may be, `TooManySegments` where the index file would have over 256 headers,
    /// `DeviceFull` where fewer blocks are free, `NoHeader` where fewer headers are free than it may need, and those of
    /// [`Structure::find_index_end`] and [`Structure::grow_held`].
    pub(crate) fn grow_index<D: Device>(&mut self, device: &mut D, n: u32) -> Result<u32, Refusal>
        requires is_for { IsStructureFor self.old (D.disk device.old) }
        requires some { 0 < n }
        ensures grown { IfOk result (λ slots. IsSlotsAfter (home_of self.old) n (D.disk device.old)
            slots
            × GrowsIndexFile (home_of self.old) n (D.disk device.old) (D.disk device.new)) }
        ensures refused { IfErr result (λ refusal. FailsToGrow false (home_of self.old) n refusal
            (D.disk device.old) (D.disk device.new)) }
        ensures stays { StaysFor (is_refused is_fatal result) self.old self.new
            (D.disk device.new) }
        ensures counts { is_refused is_clean result ≡ true → counts_of self.new ≡ counts_of
            self.old }
        ensures confined { WritesMoreOf 1 (home_of self.old) (D.disk device.old)
            (D.disk device.new) }
    {
        if n > self.slots_left() {
            return Err(Refusal::IndexLimit);
        }
        let mut first = [0; BLOCK_SIZE];
        let mut last = [0; BLOCK_SIZE];
        let end = self.find_index_end(device, &mut first, &mut last)?;
        let room = room_of(&last);
        let (free, free_headers) = (self.storage.free(), self.headers_for(need(room, n)));
        judge(end.headers, room, free, free_headers, n)?;
        self.grow_held(device, n, end, &mut first, &last)?;
        Ok(self.index.slots())
    }
}

impl<D: Device> Files<D> {
    ghost use Rattle.f11_files.specs.Open.{disk_in, has_failed, home_in, AnswersCall, CallSparesLost};

    /// Gives the index file `n` slots more, and answers how many there are then. First all memory is taken, and the contiguous mark cleared
    /// where it is set. Then the index file grows as [`Files::extend`] says of a file; its new blocks are zeros, so none of the slots was
    /// given a sequence number. Where it is refused, but for `DeviceFault` and `Damaged`, nothing is written.
    ///
    /// # Errors
    ///
    /// `VolumeFailed` where an earlier call answered `DeviceFault` or `Damaged`, `IndexLimit` where there would be more slots than there
    /// may be (H.FMAX, the bits of the index bitmap, 65,535), `TooManySegments` where the index file would have over 256 headers,
    /// `DeviceFull` where fewer blocks are free, `NoHeader` where fewer headers are free than it may need, `NoMemory` for want of memory,
    /// `DeviceFault` where a transfer failed, `Damaged` where a header or a link isn't as it should be, or no block or header is found
    /// free though one should be: on no honest device.
    pub fn grow_index(&mut self, n: u32) -> Result<u32, Refusal>
        requires some { 0 < n }
        ensures answers { AnswersCall result self.old self.new }
        ensures grown { IfOk result (λ slots. IsSlotsAfter (home_in self.old) n (disk_in self.old)
            slots
            × GrowsIndexFile (home_in self.old) n (disk_in self.old) (disk_in self.new)) }
        ensures refused { IfErr result (λ refusal. FailsToGrow (has_failed self.old)
            (home_in self.old) n refusal (disk_in self.old) (disk_in self.new)) }
        ensures confined { WritesMoreOf 1 (home_in self.old) (disk_in self.old) (disk_in self.new) }
        ensures lost { CallSparesLost self.old self.new }
    {
        if self.failed {
            return Err(Refusal::VolumeFailed);
        }
        self.seen = None;
        let answer = self.structure.grow_index(&mut self.device, n);
        self.failed = is_fatal(&answer);
        answer
    }
}
