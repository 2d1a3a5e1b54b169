//! The free blocks of a volume, read off its storage bitmap (Files-11 On-Disk Structure Level 1, "Storage Bitmap File").
ghost use Rattle.std.specs.Prelude.{◌≡◌, ◌+◌, ◌-◌, ◌*◌, ◌%◌, ◌<◌, ◌≤◌, ◌^◌, ◌||◌, ◌&&◌, ℕ, nat_le, nat_lt, min, length, IfOk, IsErrOf};
ghost use Rattle.f11_bits.specs.Bitmap.{LiesWithin};
ghost use Rattle.f11_bytes.specs.Bits.{bit};
ghost use Rattle.f11_dev.specs.Looked.{Looked};
ghost use Rattle.f11_vfy.specs.Surveying.Bits.{has, limit_of};
ghost use Rattle.f11_vfy.specs.Surveying.Free.{ReadsFree, has_bit};

use crate::fault::ReadFault;
use crate::survey::bits::Bits;
use f11_bytes::{BLOCK_BITS, Block, is_set, read_word};
use f11_dev::Device;
use std::alloc::Global;

/// The set of the free blocks of a volume of `size` blocks whose bitmap blocks are at these places, in order: at most 126 places, on
/// the device, with a bit for each block; one may be there more than once. Each place is read once at most, into `block`, where the last
/// one that has a bit of the volume stays.
///
/// # Errors
///
/// `DeviceFault` where a transfer failed; `NoMemory` where there was no memory for a bit a block.
pub fn free_blocks<D: Device>(
    alloc: Global,
    device: &mut D,
    places: &[u32],
    size: u32,
    block: &mut Block,
) -> Result<Bits, ReadFault>
    requires few { length places.now ≤ 126 }
    requires covered { size ≤ 4096 * length places.now }
    requires within { LiesWithin (record { places = places.now; size = size })
        (length (D.disk device.old).image) }
    ensures reads { IfOk result (λ free.
        ReadsFree (record { places = places.now; size = size }) free block.new
        (D.disk device.old) (D.disk device.new)) }
    ensures failed { IsErrOf result ReadFault.DeviceFault
        → Looked (D.disk device.old) (D.disk device.new) (length places.now) 1 }
    ensures no_memory { IsErrOf result ReadFault.NoMemory
        → Looked (D.disk device.old) (D.disk device.new) 0 0 }
{
    let mut free = Bits::new(alloc, size)?;
    for index in 0..size.div_ceil(BLOCK_BITS) {
        device.read(places[index as usize], block)?;
        let count = (size - index * BLOCK_BITS).min(BLOCK_BITS);
        add_bits(&mut free, index * BLOCK_BITS, block, count);
    }
    Ok(free)
}

/// Adds the numbers from `first` on, a multiple of 16, `count` of them, whose bits in the block are 1.
fn add_bits(set: &mut Bits, first: u32, block: &Block, count: u32)
    requires word { first % 16 ≡ 0 }
    requires bits { count ≤ 4096 }
    requires within { first + count ≤ limit_of set.old }
    ensures adds { (j : ℕ) → has set.new j ≡ (has set.old j || has_bit block.now first count j) }
    ensures limit { limit_of set.new ≡ limit_of set.old }
{
    let words = count / 16;
    add_words(set, first, block, words);
    for k in 16 * words..count {
        if is_set(block, k) {
            set.insert(first + k);
        }
    }
}

/// Adds those of the block's first words, so many.
fn add_words(set: &mut Bits, first: u32, block: &Block, words: u32)
    requires word { first % 16 ≡ 0 }
    requires words { words ≤ 256 }
    requires within { first + 16 * words ≤ limit_of set.old }
    ensures adds { (j : ℕ) → has set.new j
        ≡ (has set.old j || has_bit block.now first (16 * words) j) }
    ensures limit { limit_of set.new ≡ limit_of set.old }
{
    for i in 0..words {
        let at = first + 16 * i;
        let word = read_word(block, 2 * i as usize);
        set.add_word(at / 64, u64::from(word) << (at % 64));
    }
}
