//! The storage bitmap.
ghost use Rattle.std.specs.Prelude.{◌≡◌, ◌<◌, ◌≤◌, ◌+◌, ℕ, [], ◌∷◌, false, length, slice_index, IsTrue, IfOk, OnOk};
ghost use Rattle.f11_bits.specs.Bitmap.{is_free};
ghost use Rattle.f11_bits.specs.Storage.{IsFor, bitmap_of};

use f11_bits::{Storage, count_free, first_run, ones, sum, word_sum};
use f11_bytes::{BLOCK_SIZE, Block, set_bit};
use f11_dev::{Device, DeviceFault, FailOnce, Fuse, Liar, Memory};
use f11_fixtures::{ZEROS, put};
use std::alloc::Global;
use std::simd::prelude::*;
use std::test::Fail;

const ONES: Block = [255; BLOCK_SIZE];

/// What the calls of [`small_volume`] answer: what was taken, and the number of free blocks before and after.
type Answers = ([Option<(u32, u32)>; 4], u32, u32);

/// A bitmap block with blocks 0 to 21 used. The bits past the volume's end are 1, which counts for nothing.
fn block_with_22_used() -> Block {
    let mut block = ONES;
    block[0] = 0;
    block[1] = 0;
    block[2] = 0b1100_0000;
    block
}

/// A device with these bitmap blocks at 1 and 2.
fn device_with(alloc: Global, first: &Block, second: &Block) -> Result<Memory, Fail> {
    let mut device = Memory::new(alloc, 3)?;
    put(&mut device, 1, first)?;
    put(&mut device, 2, second)?;
    Ok(device)
}

/// Loads the bitmap through a device that isn't honest to contracts, though it never begins to lie: so the calls below
/// require nothing of the image.
fn load<D: Device>(device: &mut Liar<D>, size: u32) -> Result<Storage, DeviceFault>
    requires some { 0 < size }
    requires few { size ≤ 8192 }
    ensures { IfOk result (λ storage. bitmap_of storage ≡ record {
      places = 1 ∷ 2 ∷ [];
      size =
          size;
    }) }
{
    if device.blocks() < 3 {
        return Err(DeviceFault);
    }
    Storage::load(device, &[1, 2], size)
}

fn take<D: Device>(
    storage: &mut Storage,
    device: &mut Liar<D>,
    size: u32,
    from: u32,
    most: u32,
) -> Result<Option<(u32, u32)>, DeviceFault>
    requires some { 0 < size }
    requires few { size ≤ 8192 }
    requires bitmap { bitmap_of storage.old ≡ record { places = 1 ∷ 2 ∷ []; size = size } }
    requires most { 0 < most }
    ensures { bitmap_of storage.new ≡ bitmap_of storage.old }
{
    if device.blocks() < 3 {
        return Err(DeviceFault);
    }
    storage.take(device, from, most)
}

fn give<D: Device>(
    storage: &mut Storage,
    device: &mut Liar<D>,
    size: u32,
    lbn: u32,
    count: u32,
) -> Result<(), DeviceFault>
    requires within { lbn + count ≤ size }
    requires few { size ≤ 8192 }
    requires bitmap { bitmap_of storage.old ≡ record { places = 1 ∷ 2 ∷ []; size = size } }
    requires count { 0 < count }
    ensures { bitmap_of storage.new ≡ bitmap_of storage.old }
{
    if device.blocks() < 3 {
        return Err(DeviceFault);
    }
    storage.give(device, lbn, count)
}

/// Calls on a volume of 400 blocks.
fn small_volume<D: Device>(device: &mut Liar<D>) -> Result<Answers, DeviceFault> {
    let mut storage = load(device, 400)?;
    let before = storage.free();
    let first = take(&mut storage, device, 400, 0, 300)?;
    let second = take(&mut storage, device, 400, 0, 300)?;
    let none = take(&mut storage, device, 400, 0, 1)?;
    give(&mut storage, device, 400, 30, 4)?;
    let last = take(&mut storage, device, 400, 31, 9)?;
    Ok(([first, second, none, last], before, storage.free()))
}

/// What they are to answer.
fn answers() -> Answers {
    (
        [Some((22, 256)), Some((278, 122)), None, Some((31, 3))],
        378,
        1,
    )
}

/// From where a run is sought in a block with 22 bits 0, how long it is to be at most, and the run.
const RUNS: [(u32, u32, Option<(u32, u32)>); 4] = [
    (0, 300, Some((22, 256))),
    (0, 4, Some((22, 4))),
    (4000, 300, Some((4000, 96))),
    (4096, 300, None),
];

/// A block with these bits 1 alone.
fn block_with(bits: &[(usize, u8)]) -> Block {
    let mut block = ZEROS;
    for &(at, byte) in bits {
        if at < BLOCK_SIZE {
            block[at] = byte;
        }
    }
    block
}

/// Bits 7, 8, 9 and 4095.
const FEW: [(usize, u8); 3] = [(0, 128), (1, 3), (511, 128)];

/// From where a run is sought among them, how long it is to be at most, and the run.
const FEW_RUNS: [(u32, u32, Option<(u32, u32)>); 3] = [
    (0, 9, Some((7, 3))),
    (8, 1, Some((8, 1))),
    (10, 256, Some((4095, 1))),
];

/// The first run of a block.
fn run_of(block: &Block, from: u32, most: u32) -> Option<(u32, u32)> {
    if most == 0 {
        return None;
    }
    first_run(block, from, most)
}

#[test]
fn bits_of_a_block(rt: HostRuntime) {
    let block = block_with_22_used();
    for (from, most, run) in RUNS {
        assert_eq!(rt; run_of(&block, from, most), run, "from {from}");
    }
    let counts = (count_free(&block), count_free(&ZEROS), word_sum(&ONES));
    assert_eq!(rt; counts, (4074, 0, 65281));
    assert_eq!(rt; run_of(&ZEROS, 0, 300), None);
}

#[test]
fn lanes(rt: HostRuntime) {
    assert_eq!(rt;
        (ones(u8x64::splat(255)), sum(u16x16::splat(65535))),
        (512, 65520)
    );
    let few = block_with(&FEW);
    assert_eq!(rt; (count_free(&few), count_free(&ONES)), (4, 4096));
    for (from, most, run) in FEW_RUNS {
        assert_eq!(rt; run_of(&few, from, most), run, "from {from}");
    }
    let mut long = ZEROS;
    for byte in 32..64 {
        long[byte] = 255;
    }
    long[31] = 128;
    assert_eq!(rt; run_of(&long, 0, 256), Some((255, 256)));
}

#[test]
fn a_small_volume(rt: HostRuntime) -> Result<(), Fail> {
    let mut device = Liar::new(device_with(rt.alloc(), &block_with_22_used(), &ONES)?, 0);
    assert_eq!(rt; small_volume(&mut device)?, answers());
    // two transfers to write the bitmap, and 1 each to load, to take twice, to give and to take again: the bitmap block is
    // kept, and none is made where no block is free
    assert_eq!(rt; device.into_inner().transfers(), 7);
    Ok(())
}

#[test]
fn a_run_over_two_bitmap_blocks(rt: HostRuntime) -> Result<(), Fail> {
    let mut device = Liar::new(device_with(rt.alloc(), &ONES, &ONES)?, 0);
    let mut storage = load(&mut device, 4200)?;
    assert_eq!(rt; storage.free(), 4200);
    assert_eq!(rt;
        take(&mut storage, &mut device, 4200, 4090, 256)?,
        Some((4090, 110))
    );
    assert_eq!(rt; storage.free(), 4090);
    give(&mut storage, &mut device, 4200, 4090, 110)?;
    assert_eq!(rt; storage.free(), 4200);
    Ok(())
}

#[test]
fn a_device_that_stops(rt: HostRuntime) -> Result<(), Fail> {
    for transfers in 0..7 {
        let inner = device_with(rt.alloc(), &block_with_22_used(), &ONES)?;
        let mut device = Liar::new(Fuse::new(inner, transfers), 0);
        let done = small_volume(&mut device);
        if transfers < 5 {
            assert_eq!(rt; done, Err(DeviceFault), "after {transfers}");
        } else {
            assert_eq!(rt; done, Ok(answers()), "after {transfers}");
        }
    }
    Ok(())
}

/// The transfer that fails, and the free blocks of the image after it, where a write didn't land and where it did.
const FAILING: [(u64, u32, u32); 5] = [
    (1, 378, 378),
    (2, 378, 122),
    (3, 122, 0),
    (4, 0, 4),
    (5, 4, 1),
];

/// The free blocks of the image where a transfer of the calls failed, which has to be told.
fn free_after(alloc: Global, transfer: u64, lands: bool) -> Result<Option<u32>, Fail> {
    let inner = device_with(alloc, &block_with_22_used(), &ONES)?;
    let mut device = Liar::new(FailOnce::new(inner, transfer, lands), 0);
    if small_volume(&mut device) != Err(DeviceFault) {
        return Ok(None);
    }
    let storage = load(&mut device, 400)?;
    Ok(Some(storage.free()))
}

#[test]
fn a_device_that_fails_once(rt: HostRuntime) -> Result<(), Fail> {
    for (transfer, kept, landed) in FAILING {
        for (lands, free) in [(false, kept), (true, landed)] {
            let found = free_after(rt.alloc(), transfer, lands)?;
            assert_eq!(rt; found, Some(free), "at {transfer}");
        }
    }
    Ok(())
}

#[test]
fn what_was_taken_is_given_back(rt: HostRuntime) -> Result<(), Fail> {
    let mut device = device_with(rt.alloc(), &block_with_22_used(), &ONES)?;
    assert!(rt; device.blocks() >= 3);
    let mut storage = Storage::load(&mut device, &[1, 2], 400)?;
    let run = storage.take(&mut device, 0, 300)?;
    assert_eq!(rt; run, Some((22, 256)));
    assert_eq!(rt; storage.free(), 122);
    if let Some((lbn, count)) = run {
        storage.give(&mut device, lbn, count)?;
    }
    assert_eq!(rt; storage.free(), 378);
    Ok(())
}

/// Where the second of two bitmap blocks is kept, the first one is read and written to take; where the first is, it is written alone.
#[test]
fn a_bitmap_block_that_is_kept_is_not_read(rt: HostRuntime) -> Result<(), Fail> {
    let mut device = device_with(rt.alloc(), &ONES, &ONES)?;
    assert!(rt; device.blocks() >= 3);
    let mut storage = Storage::load(&mut device, &[1, 2], 8192)?;
    let loaded = device.transfers();
    storage.take(&mut device, 0, 4)?;
    let once = device.transfers();
    let run = storage.take(&mut device, 0, 4)?;
    let twice = device.transfers();
    if let Some((lbn, count)) = run {
        storage.give(&mut device, lbn, count)?;
    }
    assert_eq!(rt; (loaded, once, twice, device.transfers()), (4, 6, 7, 8));
    Ok(())
}

/// Where a bitmap of seven blocks is, and the number of blocks of its volume.
const PLACES: [u32; 7] = [1, 2, 3, 4, 5, 6, 7];

const WIDE: u32 = 28_000;

/// A device with that bitmap, in which these blocks are used.
fn wide_device(alloc: Global, used: &[u32]) -> Result<Memory, Fail> {
    let mut device = Memory::new(alloc, 8)?;
    for index in 0..7 {
        let mut block = ONES;
        for &lbn in used {
            if lbn / 4096 == index {
                set_bit(&mut block, lbn % 4096, false);
            }
        }
        put(&mut device, 1 + index, &block)?;
    }
    Ok(device)
}

/// Loads that bitmap.
fn load_wide<D: Device>(device: &mut D) -> Result<Storage, DeviceFault>
    ensures storage { OnOk result (IfOk result (λ storage. IsFor storage (D.disk device.new))) }
{
    if device.blocks() < 8 {
        return Err(DeviceFault);
    }
    Storage::load(device, &PLACES, WIDE)
}

/// The blocks that are used, how many are asked for in a row, the first that is taken, and the transfers made.
const ROWS: [(&[u32], u32, Option<u32>, u64); 9] = [
    (&[], 1, Some(0), 2),
    (&[0], 256, Some(1), 2),
    (&[0, 100], 257, Some(101), 2),
    (&[0, 1887], 26_112, Some(1888), 19),
    (&[0, 1888], 26_112, None, 1),
    (&[4095, 4097, 12_293], 8195, Some(4098), 9),
    (&[4095, 4097, 12_293], 8196, Some(12_294), 11),
    (&[], 28_000, Some(0), 19),
    (&[], 28_001, None, 0),
];

/// The first block that is taken, the transfers made, and how many blocks fewer are free.
fn take_row(alloc: Global, used: &[u32], n: u32) -> Result<(Option<u32>, u64, u32), Fail>
    requires some { 0 < n }
{
    let mut device = wide_device(alloc, used)?;
    let mut storage = load_wide(&mut device)?;
    let (free, before) = (storage.free(), device.transfers());
    let first = storage.take_run(&mut device, n)?;
    let made = device.transfers().saturating_sub(before);
    Ok((first, made, free.saturating_sub(storage.free())))
}

/// Each bitmap block is read once as the run is sought, but the last of them, which is kept; those of the run but the last are read once
/// more, and all of them written.
#[test]
fn runs_as_long_as_asked(rt: HostRuntime) -> Result<(), Fail> {
    for (used, n, first, transfers) in ROWS {
        let taken = if first.is_some() { n } else { 0 };
        let found = take_row(rt.alloc(), used, n.max(1))?;
        assert_eq!(rt; found, (first, transfers, taken), "{n}");
    }
    Ok(())
}

/// Takes all blocks but one, that one, and one more.
fn take_all(device: &mut Memory) -> Result<([Option<u32>; 3], [u64; 3]), DeviceFault> {
    let mut storage = load_wide(device)?;
    let most = storage.take_run(device, WIDE - 1)?;
    let once = device.transfers();
    let last = storage.take_run(device, 1)?;
    let twice = device.transfers();
    let none = storage.take_run(device, 1)?;
    Ok(([most, last, none], [once, twice, device.transfers()]))
}

/// The bitmap block that was written last is kept, and isn't read as the next run is sought; none is where fewer blocks are free.
#[test]
fn runs_up_to_the_last_block(rt: HostRuntime) -> Result<(), Fail> {
    let mut device = wide_device(rt.alloc(), &[])?;
    let (runs, transfers) = take_all(&mut device)?;
    assert_eq!(rt; runs, [Some(0), Some(27_999), None]);
    assert_eq!(rt; transfers, [33, 40, 40]);
    Ok(())
}

/// The transfer that fails as blocks 4098 to 12,292 are taken, of three bitmap blocks, and the free blocks of the image after it, where a
/// write didn't land and where it did.
const FAILING_RUN: [(u64, u32, u32); 9] = [
    (8, 27_997, 27_997),
    (11, 27_997, 27_997),
    (12, 27_997, 27_997),
    (13, 27_997, 23_903),
    (14, 23_903, 23_903),
    (15, 23_903, 19_807),
    (16, 19_807, 19_802),
    (17, 19_802, 19_802),
    (18, 19_802, 19_802),
];

/// The free blocks of the image where a transfer failed as a run was taken, which has to be told.
fn free_after_run(alloc: Global, transfer: u64, lands: bool) -> Result<(bool, u32), Fail> {
    let inner = wide_device(alloc, &[4095, 4097, 12_293])?;
    let mut device = FailOnce::new(inner, transfer, lands);
    let mut storage = load_wide(&mut device)?;
    let failed = storage.take_run(&mut device, 8195).is_err();
    let mut device = device.into_inner();
    Ok((failed, load_wide(&mut device)?.free()))
}

#[test]
fn a_run_on_a_device_that_fails_once(rt: HostRuntime) -> Result<(), Fail> {
    for (transfer, kept, landed) in FAILING_RUN {
        for (lands, free) in [(false, kept), (true, landed)] {
            let found = free_after_run(rt.alloc(), transfer, lands)?;
            assert_eq!(rt; found, (transfer < 17, free), "at {transfer}");
        }
    }
    Ok(())
}

/// Takes blocks, makes the first of them zeros, and takes more, as where a file grows: the bitmap is for the disk all the
/// while, since its own blocks are used.
fn take_zero_take<D: Device>(
    storage: &mut Storage,
    device: &mut D,
    most: u32,
) -> Result<Option<(u32, u32)>, DeviceFault>
    requires storage { IsFor storage.old (D.disk device.old) }
    requires most { 0 < most }
    requires used { IsTrue (D.disk device.old).honest → (i : ℕ)
        → i < length (bitmap_of storage.old).places
        → is_free (D.disk device.old).image (bitmap_of storage.old)
        (slice_index (bitmap_of storage.old).places i) ≡ false }
    ensures storage { OnOk result (IsFor storage.new (D.disk device.new)) }
{
    let Some((lbn, _)) = storage.take(device, 0, most)? else {
        return Ok(None);
    };
    if lbn >= device.blocks() {
        return Err(DeviceFault);
    }
    device.write(lbn, &ZEROS)?;
    storage.take(device, 0, most)
}

#[test]
fn blocks_are_taken_one_after_another(rt: HostRuntime) -> Result<(), Fail> {
    let mut device = Memory::new(rt.alloc(), 400)?;
    put(&mut device, 1, &block_with_22_used())?;
    let mut device = Liar::new(device, 0);
    assert!(rt; device.blocks() >= 3);
    let mut storage = Storage::load(&mut device, &[1, 2], 400)?;
    assert_eq!(rt;
        take_zero_take(&mut storage, &mut device, 4)?,
        Some((26, 4))
    );
    assert_eq!(rt; (storage.size(), storage.free()), (400, 370));
    Ok(())
}
