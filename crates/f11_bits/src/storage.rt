//! The bitmap of a volume's free blocks.
ghost use Rattle.std.specs.Prelude.{◌≡◌, ◌+◌, ◌*◌, ◌-◌, ◌/◌, ◌^◌, ◌<◌, ◌≤◌, ℕ, false, length, take, max, min, slice_index, slice_set, IsTrue, IfOk, OnOk, OnErr, IfSome, IfNone, MatchOption};
ghost use Rattle.f11_bits.specs.Bitmap.{IsBitmap, IsBitmapBlock, LiesWithin, is_free};
ghost use Rattle.f11_bits.specs.Calls.{Counts, FailsToCount};

use crate::bits::{LONGEST, count_free_to, first_run_to, run_length, set_bits};
use f11_dev::f11_bytes::{BLOCK_BITS, BLOCK_SIZE, Block};
use f11_dev::{Device, DeviceFault};

mod take_run;

/// The most blocks that a bitmap has (Files-11 On-Disk Structure Level 1, "Storage Bitmap File").
pub const MAX_PLACES: usize = 126;

/// The bitmap of a volume's free blocks (Files-11 On-Disk Structure Level 1, "Storage Bitmap File"): where its blocks
/// are, and how many blocks of the volume are free. One bitmap block is kept, so that it isn't read again.
///
/// After a call has answered `DeviceFault` nothing is known of what it keeps: the number of free blocks and that block.
#[derive(Drop)]
pub struct Storage {
    /// The LBNs of the bitmap's blocks, in order; the first `used` of them.
    places: [u32; MAX_PLACES],
    used: usize,
    /// The number of blocks of the volume.
    size: u32,
    /// The number of free ones.
    free: u32,
    /// Where free blocks are looked for from: none below is free.
    low: u32,
    /// Which bitmap block is kept, counted from 0, and that block.
    kept: u32,
    block: Block,
    /// The blocks at its places are different, and have a bit for each block of the volume.
    pub ghost valid: { IsBitmap (record { places = take used places; size = size }) },
    pub ghost near: { low ≤ size },
}

/// A run of free blocks, in two parts: the second has its bits in the next bitmap block.
#[derive(Clone, Copy)]
struct Run {
    lbn: u32,
    here: u32,
    beyond: u32,
}

impl Storage {
    ghost use Rattle.std.specs.Prelude.{true};
    ghost use Rattle.f11_dev.specs.Image.{Image};
    ghost use Rattle.f11_dev.specs.Looked.{Looked};
    ghost use Rattle.f11_bits.specs.Bitmap.{free_blocks, KeepsFrom};
    ghost use Rattle.f11_bits.specs.Calls.{MarksOnDisk, FailsToMark, Gives, FailsToGive, FindsNone, FailsToTake};
    ghost use Rattle.f11_bits.specs.Parts.{IsPart, HasBitOf, HasBits, FindsPart, FindsRest, FindsRun, FailsToFindPart, FailsToFindRest};
    ghost use Rattle.f11_bits.specs.Storage.{bitmap_of, count_of, kept_at, low_of, Keeps, IsOn, IsFor, LoadsBitmap, StandsAlike, UsesKept, FindsNoneFrom, TakesFrom};
    ghost use Rattle.f11_bits.specs.Transfers.{blocks_to, blocks_touched, giving_transfers, MakesFewer};

    /// Counts the free blocks of a volume of `size` blocks whose bitmap blocks are at `places`, in order. It reads each of
    /// them once at most, keeps the last, and takes no memory.
    ///
    /// # Errors
    ///
    /// `DeviceFault` where a transfer failed.
    pub fn load<D: Device>(
        device: &mut D,
        places: &[u32],
        size: u32,
    ) -> Result<Storage, DeviceFault>
        requires bitmap { IsBitmap (record { places = places.now; size = size }) }
        requires within { LiesWithin (record { places = places.now; size = size })
            (length (D.disk device.old).image) }
        ensures loads { IfOk result (λ storage.
            LoadsBitmap (record { places = places.now; size = size }) storage
            (D.disk device.old) (D.disk device.new)) }
        ensures keeps { IfOk result (λ storage. kept_at storage ≡ (size - 1) / 4096) }
        ensures low { IfOk result (λ storage. low_of storage ≡ 0) }
        ensures failed { OnErr result (FailsToCount (record { places = places.now; size = size })
            (D.disk device.old) (D.disk device.new)) }
    {
        let mut block = [0; BLOCK_SIZE];
        let free = count_blocks(device, places, size, &mut block)?;
        Ok(Storage {
            places: in_front(places),
            used: places.len(),
            size,
            free,
            low: 0,
            kept: (size - 1) / BLOCK_BITS,
            block,
        })
    }

    /// The number of blocks of the volume.
    pub fn size(&self) -> u32
        ensures { result ≡ (bitmap_of self.now).size }
    {
        self.size
    }

    /// The number of free blocks.
    pub fn free(&self) -> u32
        ensures told { result ≡ count_of self.now }
        ensures free { (image : Image) → Keeps self.now image
            → result ≡ free_blocks image (bitmap_of self.now) }
    {
        self.free
    }

    /// Gives `count` used blocks from `lbn` on back: they are free after it. It reads and writes each bitmap block that
    /// has their bits once; where the run begins in the one that is kept, that isn't read again. The last of them is kept.
    ///
    /// # Errors
    ///
    /// `DeviceFault` where a transfer failed.
    pub fn give<D: Device>(
        &mut self,
        device: &mut D,
        lbn: u32,
        count: u32,
    ) -> Result<(), DeviceFault>
        requires storage { IsFor self.old (D.disk device.old) }
        requires some { 0 < count }
        requires within { lbn + count ≤ (bitmap_of self.old).size }
        requires used { IsTrue (D.disk device.old).honest → (k : ℕ) → lbn ≤ k → k < lbn + count
            → is_free (D.disk device.old).image (bitmap_of self.old) k ≡ false }
        ensures same { bitmap_of self.new ≡ bitmap_of self.old }
        ensures storage { OnOk result (IsFor self.new (D.disk device.new)) }
        ensures gives { OnOk result
            (Gives (bitmap_of self.old) lbn count (D.disk device.old) (D.disk device.new)) }
        ensures kept { OnOk result (UsesKept (giving_transfers lbn count) lbn count
            self.old self.new (D.disk device.old) (D.disk device.new)) }
        ensures low { OnOk result (low_of self.new ≡ min (low_of self.old) lbn) }
        ensures failed { OnErr result
            (FailsToGive (bitmap_of self.old) lbn count (D.disk device.old) (D.disk device.new)) }
    {
        self.mark(device, lbn, count, true)?;
        self.free = self.free.saturating_add(count);
        self.low = self.low.min(lbn);
        Ok(())
    }

    /// Takes the first run of free blocks at or above `from`, at most 256 and at most `most` of them: its first block and
    /// their number, which are used after it. `None` where no block is free there.
    ///
    /// It reads each bitmap block from that of `from` to that of the block after the run, and where there is none to the
    /// last, once at most, and writes each block that changes once. Those in front in which nothing is free, as far as that is
    /// known, aren't read. Where the run begins in the bitmap block that is kept, that isn't read again. The last that was
    /// written is kept.
    ///
    /// # Errors
    ///
    /// `DeviceFault` where a transfer failed.
    pub fn take<D: Device>(
        &mut self,
        device: &mut D,
        from: u32,
        most: u32,
    ) -> Result<Option<(u32, u32)>, DeviceFault>
        requires storage { IsFor self.old (D.disk device.old) }
        requires some { 0 < most }
        ensures same { bitmap_of self.new ≡ bitmap_of self.old }
        ensures storage { OnOk result (IsFor self.new (D.disk device.new)) }
        ensures found { IfOk result (λ answer. MatchOption answer
            (FindsNoneFrom from self.old self.new (D.disk device.old) (D.disk device.new))
            (λ run. TakesFrom from most run.0 run.1
            self.old self.new (D.disk device.old) (D.disk device.new))) }
        ensures failed { OnErr result
            (FailsToTake (bitmap_of self.old) from most (D.disk device.old) (D.disk device.new)) }
    {
        let mut block = [0; BLOCK_SIZE];
        let mut next = [0; BLOCK_SIZE];
        let Some(run) = self.find_from_low(device, from, most, &mut block, &mut next)? else {
            return Ok(None);
        };
        self.mark_used(device, run, &mut block, &mut next)?;
        let count = run.here + run.beyond;
        self.free = self.free.saturating_sub(count);
        self.low = self.low_behind(from, run.lbn + count);
        Ok(Some((run.lbn, count)))
    }

    /// Where free blocks are looked for from once those from `from` on were looked at up to `end`, and none is free before that.
    fn low_behind(&self, from: u32, end: u32) -> u32
        requires { end ≤ (bitmap_of self.now).size }
        ensures first { from ≤ low_of self.now → result ≡ end }
        ensures later { low_of self.now < from → result ≡ low_of self.now }
        ensures near { result ≤ (bitmap_of self.now).size }
    {
        if from <= self.low { end } else { self.low }
    }

    /// The first run of free blocks, and the bitmap blocks that have its bits: it is looked for from the first block on that may be
    /// free.
    fn find_from_low<D: Device>(
        &self,
        device: &mut D,
        from: u32,
        most: u32,
        block: &mut Block,
        next: &mut Block,
    ) -> Result<Option<Run>, DeviceFault>
        requires storage { IsFor self.now (D.disk device.old) }
        requires some { 0 < most }
        ensures finds { IfOk result (λ answer. IfSome answer (λ run.
            FindsRun (bitmap_of self.now) from most run.lbn run.here run.beyond block.new next.new
            (D.disk device.old) (D.disk device.new))) }
        ensures few { IfOk result (λ answer. IfSome answer (λ run.
            Looked (D.disk device.old) (D.disk device.new)
            (blocks_to (bitmap_of self.now) (max from (low_of self.now))
            (run.lbn + run.here + run.beyond)) 0)) }
        ensures saves { IfOk result (λ answer. IfSome answer (λ run.
            kept_at self.now ≡ run.lbn / 4096
            → MakesFewer (blocks_to (bitmap_of self.now) from (run.lbn + run.here + run.beyond))
            (D.disk device.old) (D.disk device.new))) }
        ensures none { IfOk result (λ answer. IfNone answer
            (FindsNone (bitmap_of self.now) from (D.disk device.old) (D.disk device.new))) }
        ensures failed { OnErr result
            (FailsToFindPart (bitmap_of self.now) from (D.disk device.old) (D.disk device.new)) }
    {
        self.find_run(device, from.max(self.low), most, block, next)
    }

    /// The first run of free blocks, and the bitmap blocks that have its bits.
    fn find_run<D: Device>(
        &self,
        device: &mut D,
        from: u32,
        most: u32,
        block: &mut Block,
        next: &mut Block,
    ) -> Result<Option<Run>, DeviceFault>
        requires on { IsOn self.now (D.disk device.old) }
        requires some { 0 < most }
        ensures finds { IfOk result (λ answer. IfSome answer (λ run.
            FindsRun (bitmap_of self.now) from most run.lbn run.here run.beyond block.new next.new
            (D.disk device.old) (D.disk device.new))) }
        ensures saves { IfOk result (λ answer. IfSome answer (λ run.
            kept_at self.now ≡ run.lbn / 4096
            → MakesFewer (blocks_to (bitmap_of self.now) from (run.lbn + run.here + run.beyond))
            (D.disk device.old) (D.disk device.new))) }
        ensures none { IfOk result (λ answer. IfNone answer
            (FindsNone (bitmap_of self.now) from (D.disk device.old) (D.disk device.new))) }
        ensures failed { OnErr result
            (FailsToFindPart (bitmap_of self.now) from (D.disk device.old) (D.disk device.new)) }
    {
        let most = most.min(LONGEST);
        let Some((lbn, here)) = self.find_part(device, from, most, block)? else {
            return Ok(None);
        };
        let beyond = self.length_beyond(device, lbn + here, most - here, next)?;
        Ok(Some(Run { lbn, here, beyond }))
    }

    /// The first run of free blocks as far as one bitmap block has it, and that bitmap block.
    fn find_part<D: Device>(
        &self,
        device: &mut D,
        from: u32,
        most: u32,
        block: &mut Block,
    ) -> Result<Option<(u32, u32)>, DeviceFault>
        requires on { IsOn self.now (D.disk device.old) }
        requires some { 0 < most }
        requires few { most ≤ 256 }
        ensures finds { IfOk result (λ answer. IfSome answer (λ part.
            FindsPart (bitmap_of self.now) from most part.0 part.1 block.new
            (D.disk device.old) (D.disk device.new))) }
        ensures saves { IfOk result (λ answer. IfSome answer (λ part.
            kept_at self.now ≡ part.0 / 4096 → MakesFewer (part.0 / 4096 - from / 4096 + 1)
            (D.disk device.old) (D.disk device.new))) }
        ensures none { IfOk result (λ answer. IfNone answer
            (FindsNone (bitmap_of self.now) from (D.disk device.old) (D.disk device.new))) }
        ensures failed { OnErr result
            (FailsToFindPart (bitmap_of self.now) from (D.disk device.old) (D.disk device.new)) }
    {
        for index in from / BLOCK_BITS..self.size.div_ceil(BLOCK_BITS) {
            self.read_block(device, index, block)?;
            let start = from.saturating_sub(index * BLOCK_BITS);
            let end = bits_in(self.size, index);
            if let Some((at, count)) = first_run_to(block, start, most, end) {
                return Ok(Some((index * BLOCK_BITS + at, count)));
            }
        }
        Ok(None)
    }

    /// How many blocks from `end` on are free, at most `most`, as far as the bitmap block that begins there has them, and
    /// that bitmap block. None where no bitmap block begins there.
    fn length_beyond<D: Device>(
        &self,
        device: &mut D,
        end: u32,
        most: u32,
        next: &mut Block,
    ) -> Result<u32, DeviceFault>
        requires on { IsOn self.now (D.disk device.old) }
        requires some { 0 < end }
        requires within { end ≤ (bitmap_of self.now).size }
        requires few { most ≤ 256 }
        ensures finds { IfOk result (λ count. FindsRest (bitmap_of self.now) most end count next.new
            (D.disk device.old) (D.disk device.new)) }
        ensures failed { OnErr result (FailsToFindRest (bitmap_of self.now) end
            (D.disk device.old) (D.disk device.new)) }
    {
        if end % BLOCK_BITS != 0 || most == 0 || end >= self.size {
            return Ok(0);
        }
        let index = end / BLOCK_BITS;
        self.read_block(device, index, next)?;
        Ok(run_length(next, 0, most, bits_in(self.size, index)))
    }

    /// Marks a run of blocks used, whose bits are in these bitmap blocks.
    fn mark_used<D: Device>(
        &mut self,
        device: &mut D,
        run: Run,
        block: &mut Block,
        next: &mut Block,
    ) -> Result<(), DeviceFault>
        requires within { LiesWithin (bitmap_of self.old) (length (D.disk device.old).image) }
        requires bits { HasBits (bitmap_of self.old) run.lbn run.here run.beyond block.old next.old
            (D.disk device.old) }
        ensures stands { StandsAlike self.old self.new }
        ensures on { OnOk result (IsOn self.new (D.disk device.new)) }
        ensures marks { let count = run.here + run.beyond in
            OnOk result (MarksOnDisk false (bitmap_of self.old) run.lbn count
            (blocks_touched run.lbn count) (D.disk device.old) (D.disk device.new)) }
        ensures keeps { OnOk result
            (kept_at self.new ≡ (run.lbn + run.here + run.beyond - 1) / 4096) }
        ensures failed { let count = run.here + run.beyond in
            OnErr result (FailsToMark false (bitmap_of self.old) run.lbn count
            2 (D.disk device.old) (D.disk device.new)) }
    {
        self.write_bits(device, run.lbn, run.here, false, block)?;
        if run.beyond > 0 {
            self.write_bits(device, run.lbn + run.here, run.beyond, false, next)?;
        }
        Ok(())
    }

    /// Marks `count` blocks from `lbn` on free, or used. It reads and writes each bitmap block that has their bits once, in order; where
    /// the run begins in the one that is kept, that isn't read again. The last of them is kept.
    fn mark<D: Device>(
        &mut self,
        device: &mut D,
        lbn: u32,
        count: u32,
        free: bool,
    ) -> Result<(), DeviceFault>
        requires on { IsOn self.old (D.disk device.old) }
        requires some { 0 < count }
        requires within { lbn + count ≤ (bitmap_of self.old).size }
        ensures stands { StandsAlike self.old self.new }
        ensures on { OnOk result (IsOn self.new (D.disk device.new)) }
        ensures marks { OnOk result (MarksOnDisk free (bitmap_of self.old) lbn count
            (giving_transfers lbn count) (D.disk device.old) (D.disk device.new)) }
        ensures kept { OnOk result (UsesKept (giving_transfers lbn count) lbn count
            self.old self.new (D.disk device.old) (D.disk device.new)) }
        ensures later { OnOk result (KeepsFrom (bitmap_of self.old) ((lbn + count + 4095) / 4096)
            (D.disk device.old).image (D.disk device.new).image) }
        ensures failed { OnErr result (FailsToMark free (bitmap_of self.old) lbn count
            (giving_transfers lbn count) (D.disk device.old) (D.disk device.new)) }
    {
        let end = lbn + count;
        for index in lbn / BLOCK_BITS..end.div_ceil(BLOCK_BITS) {
            let start = lbn.max(index * BLOCK_BITS);
            let stop = end.min((index + 1) * BLOCK_BITS);
            self.mark_part(device, start, stop - start, free)?;
        }
        Ok(())
    }

    /// Marks blocks free, or used, whose bits are in one bitmap block.
    fn mark_part<D: Device>(
        &mut self,
        device: &mut D,
        lbn: u32,
        count: u32,
        free: bool,
    ) -> Result<(), DeviceFault>
        requires on { IsOn self.old (D.disk device.old) }
        requires part { IsPart (bitmap_of self.old).size 0 4096 lbn count }
        ensures stands { StandsAlike self.old self.new }
        ensures on { OnOk result (IsOn self.new (D.disk device.new)) }
        ensures marks { OnOk result (MarksOnDisk free (bitmap_of self.old) lbn count
            2 (D.disk device.old) (D.disk device.new)) }
        ensures saves { kept_at self.old ≡ lbn / 4096 → OnOk result
            (MakesFewer 2 (D.disk device.old) (D.disk device.new)) }
        ensures keeps { OnOk result (kept_at self.new ≡ lbn / 4096) }
        ensures later { OnOk result (KeepsFrom (bitmap_of self.old) (lbn / 4096 + 1)
            (D.disk device.old).image (D.disk device.new).image) }
        ensures failed { OnErr result (FailsToMark free (bitmap_of self.old) lbn count
            2 (D.disk device.old) (D.disk device.new)) }
    {
        let mut block = [0; BLOCK_SIZE];
        self.read_block(device, lbn / BLOCK_BITS, &mut block)?;
        self.write_bits(device, lbn, count, free, &mut block)
    }

    /// Marks blocks free, or used, whose bits are in this bitmap block, writes it and keeps it.
    fn write_bits<D: Device>(
        &mut self,
        device: &mut D,
        lbn: u32,
        count: u32,
        free: bool,
        block: &mut Block,
    ) -> Result<(), DeviceFault>
        requires within { LiesWithin (bitmap_of self.old) (length (D.disk device.old).image) }
        requires part { IsPart (bitmap_of self.old).size 0 4096 lbn count }
        requires block { IsTrue (D.disk device.old).honest
            → HasBitOf (D.disk device.old).image (bitmap_of self.old) lbn block.old }
        ensures stands { StandsAlike self.old self.new }
        ensures on { OnOk result (IsOn self.new (D.disk device.new)) }
        ensures keeps { kept_at self.new ≡ lbn / 4096 }
        ensures writes { let place = slice_index (bitmap_of self.old).places (lbn / 4096) in
            OnOk result ((D.disk device.new).image
            ≡ slice_set (D.disk device.old).image place block.new) }
        ensures marks { OnOk result (MarksOnDisk free (bitmap_of self.old) lbn count
            1 (D.disk device.old) (D.disk device.new)) }
        ensures failed { OnErr result (FailsToMark free (bitmap_of self.old) lbn count
            1 (D.disk device.old) (D.disk device.new)) }
    {
        set_bits(block, lbn % BLOCK_BITS, count, free);
        self.kept = lbn / BLOCK_BITS;
        self.block = *block;
        device.write(self.place(lbn / BLOCK_BITS), block)
    }

    /// A bitmap block: the kept one where it is that, and else as it is read.
    fn read_block<D: Device>(
        &self,
        device: &mut D,
        index: u32,
        block: &mut Block,
    ) -> Result<(), DeviceFault>
        requires on { IsOn self.now (D.disk device.old) }
        requires index { index < length (bitmap_of self.now).places }
        ensures block { OnOk result (IsTrue (D.disk device.old).honest
            → IsBitmapBlock (D.disk device.old).image (bitmap_of self.now) index block.new) }
        ensures looked { OnOk result (Looked (D.disk device.old) (D.disk device.new) 1 0) }
        ensures saves { kept_at self.now ≡ index
            → (D.disk device.new).transfers ≡ (D.disk device.old).transfers }
        ensures failed { OnErr result (Looked (D.disk device.old) (D.disk device.new) 1 1) }
    {
        if index == self.kept {
            *block = self.block;
            return Ok(());
        }
        device.read(self.place(index), block)
    }

    /// The LBN of a bitmap block.
    fn place(&self, index: u32) -> u32
        requires { index < length (bitmap_of self.now).places }
        ensures { result ≡ slice_index (bitmap_of self.now).places index }
    {
        self.places[index as usize]
    }
}

/// The number of free blocks of a volume of this size whose bitmap blocks are at these places, and the last of them.
fn count_blocks<D: Device>(
    device: &mut D,
    places: &[u32],
    size: u32,
    block: &mut Block,
) -> Result<u32, DeviceFault>
    requires bitmap { IsBitmap (record { places = places.now; size = size }) }
    requires within { LiesWithin (record { places = places.now; size = size })
        (length (D.disk device.old).image) }
    ensures counts { IfOk result (λ count.
        Counts (record { places = places.now; size = size }) count
        (D.disk device.old) (D.disk device.new)) }
    ensures last { let last = (size - 1) / 4096 in
        OnOk result (IsTrue (D.disk device.old).honest → IsBitmapBlock (D.disk device.old).image
        (record { places = places.now; size = size }) last block.new) }
    ensures failed { OnErr result (FailsToCount (record { places = places.now; size = size })
        (D.disk device.old) (D.disk device.new)) }
{
    let mut count = 0;
    for index in 0..size.div_ceil(BLOCK_BITS) {
        device.read(places[index as usize], block)?;
        count += count_free_to(block, bits_in(size, index));
    }
    Ok(count)
}

/// Room for the most places, with these at the front.
fn in_front(places: &[u32]) -> [u32; MAX_PLACES]
    requires { length places.now ≤ 126 }
    ensures { take (length places.now) result ≡ places.now }
{
    let mut room = [0; MAX_PLACES];
    room[..places.len()].copy_from_slice(places);
    room
}

/// How many bits of a bitmap block are those of blocks of a volume of this size.
pub(crate) fn bits_in(size: u32, index: u32) -> u32
    requires { 4096 * index < 2 ^ 32 }
    ensures { result ≡ min (size - 4096 * index) 4096 }
{
    size.saturating_sub(index * BLOCK_BITS).min(BLOCK_BITS)
}
