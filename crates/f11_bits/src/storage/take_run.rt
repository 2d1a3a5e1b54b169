//! Runs of free blocks that are as long as they are asked for.
use super::{Storage, bits_in};
use crate::bits::next_room;
use f11_dev::f11_bytes::{BLOCK_BITS, BLOCK_SIZE, Block};
use f11_dev::{Device, DeviceFault};

impl Storage {
    ghost use Rattle.std.specs.Prelude.{◌≡◌, ◌+◌, ◌-◌, ◌*◌, ◌/◌, ◌<◌, ◌≤◌, false, length, IsTrue, IfOk, OnOk, OnErr, IfSome, IfNone, MatchOption};
    ghost use Rattle.f11_dev.specs.Looked.{Looked};
    ghost use Rattle.f11_bits.specs.Calls.{MarksOnDisk, FailsToMark, FindsNoRun, FailsToTakeRun};
    ghost use Rattle.f11_bits.specs.Parts.{HasBitOf};
    ghost use Rattle.f11_bits.specs.Room.{FindsRunOf};
    ghost use Rattle.f11_bits.specs.Storage.{bitmap_of, count_of, kept_at, low_of, IsOn, IsFor, StandsAlike, FindsNoRunOf, TakesRunOf};
    ghost use Rattle.f11_bits.specs.Transfers.{blocks_touched, giving_transfers, MakesFewer};

    /// Takes the first `n` free blocks in a row, which are used after it: the first of them. `None` where nowhere so many are
    /// free in a row, and then nothing is written.
    ///
    /// It reads each bitmap block up to that of the last of them, and where there are none to the last, once at most, but none in
    /// front in which nothing is free, as far as that is known; none where fewer than `n` blocks are free. Each that has their
    /// bits is then read once, but for the last, which is in hand, and written once, in order. The bitmap block that is kept isn't
    /// read as they are sought. The last that was written is kept.
    ///
    /// # Errors
    ///
    /// `DeviceFault` where a transfer failed.
    pub fn take_run<D: Device>(
        &mut self,
        device: &mut D,
        n: u32,
    ) -> Result<Option<u32>, DeviceFault>
        requires storage { IsFor self.old (D.disk device.old) }
        requires some { 0 < n }
        ensures same { bitmap_of self.new ≡ bitmap_of self.old }
        ensures storage { OnOk result (IsFor self.new (D.disk device.new)) }
        ensures found { IfOk result (λ answer. MatchOption answer
            (FindsNoRunOf n self.old self.new (D.disk device.old) (D.disk device.new))
            (λ lbn. TakesRunOf n lbn self.old self.new (D.disk device.old) (D.disk device.new))) }
        ensures spared { count_of self.old < n
            → (D.disk device.new).transfers ≡ (D.disk device.old).transfers }
        ensures failed { OnErr result
            (FailsToTakeRun (bitmap_of self.old) n (D.disk device.old) (D.disk device.new)) }
    {
        if n > self.free {
            return Ok(None);
        }
        let mut block = [0; BLOCK_SIZE];
        let Some(lbn) = self.find_room(device, n, &mut block)? else {
            return Ok(None);
        };
        self.mark_run(device, lbn, n, &mut block)?;
        self.free = self.free.saturating_sub(n);
        Ok(Some(lbn))
    }

    /// The first `n` free blocks in a row, and the bitmap block that has the bit of the last of them.
    fn find_room<D: Device>(
        &self,
        device: &mut D,
        n: u32,
        block: &mut Block,
    ) -> Result<Option<u32>, DeviceFault>
        requires storage { IsFor self.now (D.disk device.old) }
        requires some { 0 < n }
        ensures finds { IfOk result (λ answer. IfSome answer (λ lbn.
            FindsRunOf (bitmap_of self.now) n lbn block.new
            (D.disk device.old) (D.disk device.new))) }
        ensures above { IfOk result (λ answer. IfSome answer (λ lbn.
            low_of self.now / 4096 * 4096 ≤ lbn)) }
        ensures few { IfOk result (λ answer. IfSome answer (λ lbn.
            (D.disk device.new).transfers ≤ (D.disk device.old).transfers
            + (blocks_touched 0 (lbn + n) - low_of self.now / 4096))) }
        ensures saves { IfOk result (λ answer. IfSome answer (λ lbn.
            kept_at self.now ≤ (lbn + n - 1) / 4096 → MakesFewer (blocks_touched 0 (lbn + n))
            (D.disk device.old) (D.disk device.new))) }
        ensures none { IfOk result (λ answer. IfNone answer
            (FindsNoRun (bitmap_of self.now) n (D.disk device.old) (D.disk device.new))) }
        ensures failed { OnErr result (Looked (D.disk device.old) (D.disk device.new)
            (length (bitmap_of self.now).places) 1) }
    {
        let first = self.low / BLOCK_BITS;
        let mut start = first * BLOCK_BITS;
        for index in first..self.size.div_ceil(BLOCK_BITS) {
            if n > self.size - start {
                return Ok(None);
            }
            self.read_block(device, index, block)?;
            let end = bits_in(self.size, index);
            start = next_room(block, index * BLOCK_BITS, start, n, end);
            if start + n <= index * BLOCK_BITS + end {
                return Ok(Some(start));
            }
        }
        Ok(None)
    }

    /// Marks `n` blocks from `lbn` on used, where this bitmap block has the bit of the last of them.
    fn mark_run<D: Device>(
        &mut self,
        device: &mut D,
        lbn: u32,
        n: u32,
        block: &mut Block,
    ) -> Result<(), DeviceFault>
        requires on { IsOn self.old (D.disk device.old) }
        requires some { 0 < n }
        requires within { lbn + n ≤ (bitmap_of self.old).size }
        requires block { IsTrue (D.disk device.old).honest
            → HasBitOf (D.disk device.old).image (bitmap_of self.old) (lbn + n - 1) block.old }
        ensures stands { StandsAlike self.old self.new }
        ensures on { OnOk result (IsOn self.new (D.disk device.new)) }
        ensures marks { OnOk result (MarksOnDisk false (bitmap_of self.old) lbn n
            (giving_transfers lbn n - 1) (D.disk device.old) (D.disk device.new)) }
        ensures keeps { OnOk result (kept_at self.new ≡ (lbn + n - 1) / 4096) }
        ensures failed { OnErr result (FailsToMark false (bitmap_of self.old) lbn n
            (giving_transfers lbn n - 1) (D.disk device.old) (D.disk device.new)) }
    {
        let last = (lbn + n - 1) / BLOCK_BITS * BLOCK_BITS;
        if last <= lbn {
            self.write_bits(device, lbn, n, false, block)?;
            return Ok(());
        }
        self.mark(device, lbn, last - lbn, false)?;
        self.write_bits(device, last, lbn + n - last, false, block)?;
        Ok(())
    }
}
