//! The bits of slots, kept and written.
ghost use Rattle.std.specs.Prelude.{◌≡◌, ◌*◌, ◌<◌, ◌≤◌, true, false, length, OnOk, OnErr};
ghost use Rattle.f11_index.specs.IndexFile.{slots, bit_of_slot};
ghost use Rattle.f11_index.specs.Kept.{index_kept, room, IndexLiesWithin};

use crate::index_file::IndexFile;
use f11_bytes::{BLOCK_BITS, Block, is_set, set_bit};
use f11_dev::{Device, DeviceFault};

/// The bit of slot `n` in the blocks of an index bitmap, which have it.
#[tactic(auto, unfolding(crate::specs::IndexFile::bit_of_slot))]
pub(crate) fn is_slot_set(bitmap: &[Block], n: u32) -> bool
    requires some { 0 < n }
    requires within { n ≤ 4096 * length bitmap.now }
    ensures { result ≡ bit_of_slot bitmap.now n }
{
    is_set(
        &bitmap[((n - 1) / BLOCK_BITS) as usize],
        (n - 1) % BLOCK_BITS,
    )
}

impl IndexFile {
    ghost use Rattle.f11_index.specs.Calls.{SetsBit, WritesBit, FailsToWriteBit};

    /// Brings slot `n` into use: makes its bit 1, on the device too, by one write.
    ///
    /// # Errors
    ///
    /// `DeviceFault` where the write failed.
    pub fn set<D: Device>(&mut self, device: &mut D, n: u16) -> Result<(), DeviceFault>
        requires slot { (0 < n) × (n ≤ slots (index_kept self.old)) }
        requires within { IndexLiesWithin (index_kept self.old) (length (D.disk device.old).image) }
        ensures done { OnOk result (WritesBit true n (index_kept self.old) (index_kept self.new)
            (D.disk device.old) (D.disk device.new)) }
        ensures failed { OnErr result (FailsToWriteBit true n (index_kept self.old)
            (D.disk device.old) (D.disk device.new)) }
        ensures room { room self.new ≡ room self.old }
    {
        self.write_bit(device, n, true)
    }

    /// Takes slot `n` out of use: makes its bit 0, on the device too, by one write.
    ///
    /// # Errors
    ///
    /// `DeviceFault` where the write failed.
    pub fn clear<D: Device>(&mut self, device: &mut D, n: u16) -> Result<(), DeviceFault>
        requires slot { (0 < n) × (n ≤ slots (index_kept self.old)) }
        requires within { IndexLiesWithin (index_kept self.old) (length (D.disk device.old).image) }
        ensures done { OnOk result (WritesBit false n (index_kept self.old) (index_kept self.new)
            (D.disk device.old) (D.disk device.new)) }
        ensures failed { OnErr result (FailsToWriteBit false n (index_kept self.old)
            (D.disk device.old) (D.disk device.new)) }
        ensures room { room self.new ≡ room self.old }
    {
        self.write_bit(device, n, false)
    }

    /// Makes the bit of slot `n` this, and writes the bitmap block that has it.
    fn write_bit<D: Device>(
        &mut self,
        device: &mut D,
        n: u16,
        value: bool,
    ) -> Result<(), DeviceFault>
        requires slot { (0 < n) × (n ≤ slots (index_kept self.old)) }
        requires within { IndexLiesWithin (index_kept self.old) (length (D.disk device.old).image) }
        ensures done { OnOk result (WritesBit value n (index_kept self.old) (index_kept self.new)
            (D.disk device.old) (D.disk device.new)) }
        ensures failed { OnErr result (FailsToWriteBit value n (index_kept self.old)
            (D.disk device.old) (D.disk device.new)) }
        ensures room { room self.new ≡ room self.old }
    {
        let place = (u32::from(n) - 1) / BLOCK_BITS;
        self.keep_bit(n, value);
        device.write(self.bitmap_lbn + place, &self.bitmap[place as usize])
    }

    /// Makes the bit of slot `n` this where it is kept.
    fn keep_bit(&mut self, n: u16, value: bool)
        requires slot { (0 < n) × (n ≤ slots (index_kept self.old)) }
        ensures bit { SetsBit value n (index_kept self.old) (index_kept self.new) }
        ensures room { room self.new ≡ room self.old }
    {
        let bit = u32::from(n) - 1;
        set_bit(
            &mut self.bitmap[(bit / BLOCK_BITS) as usize],
            bit % BLOCK_BITS,
            value,
        );
    }
}
