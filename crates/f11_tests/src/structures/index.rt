//! The index file: its slots, and where its headers stand.
ghost use Rattle.std.specs.Prelude.{◌≡◌, true, length, IfOk, IfSome};
ghost use Rattle.f11_index.specs.IndexFile.{is_in_use};
ghost use Rattle.f11_index.specs.Kept.{index_kept, IndexLiesWithin};

use f11_dev::{Device, DeviceFault, FailOnce, Memory};
use f11_fixtures::ZEROS;
use f11_fixtures::index::{header_lbn, load};
use f11_fixtures::volumes::{index_file, small_index_file};
use f11_home::find;
use f11_index::{IndexFault, IndexFile};
use std::alloc::Global;
use std::test::Fail;

/// Finds the home block of a device, and reads its index file, whatever its bits past the slots are.
fn read_index<D: Device>(alloc: Global, device: &mut D) -> Result<IndexFile, IndexFault> {
    let Ok(home) = find(device) else {
        return Err(IndexFault::DeviceFault);
    };
    IndexFile::read(alloc, device, &home)
}

/// What is told of an index file of 16 slots whose third bitmap byte is this, where it is read whatever its bits past the slots are, and
/// the fault where it is loaded.
fn past_of(alloc: Global, byte: u8) -> Result<(u32, Option<u32>, Option<IndexFault>), Fail> {
    let mut bits = ZEROS;
    bits[0] = 0x1f;
    bits[2] = byte;
    let mut device = index_file(alloc, &bits, &[(0, 18)])?;
    let index = read_index(alloc, &mut device)?;
    let fault = load(alloc, &mut device).err();
    Ok((index.slots(), index.first_past(), fault))
}

#[test]
fn bits_past_the_slots_are_told(rt: HostRuntime) -> Result<(), Fail> {
    for (byte, past) in [(0, None), (1, Some(17)), (0x80, Some(24)), (0xc0, Some(23))] {
        let wanted = (16, past, past.map(IndexFault::PastSlots));
        assert_eq!(rt; past_of(rt.alloc(), byte)?, wanted, "{byte}");
    }
    Ok(())
}

/// The slots of an index file, the free ones from 6 on, and the least of these.
type Counts = (u32, u32, Option<u16>);

fn counts(index: &IndexFile) -> Counts {
    (index.slots(), index.free_headers(), index.least_free())
}

/// The counts of the index file of 16 slots whose slots in use are these.
fn counts_of(alloc: Global, slots: u16) -> Result<Counts, Fail> {
    let mut device = small_index_file(alloc, slots)?;
    let index = load(alloc, &mut device)?;
    Ok(counts(&index))
}

const FREE_SLOTS: [(u16, u32, Option<u16>); 7] = [
    (0x0001, 11, Some(6)),
    (0x001f, 11, Some(6)),
    (0x003f, 10, Some(7)),
    (0x0fff, 4, Some(13)),
    (0xffdf, 1, Some(6)),
    (0x7fff, 1, Some(16)),
    (0xffff, 0, None),
];

#[test]
fn free_slots_are_those_from_6_on(rt: HostRuntime) -> Result<(), Fail> {
    for (slots, free, least) in FREE_SLOTS {
        let found = counts_of(rt.alloc(), slots)?;
        assert_eq!(rt; found, (16, free, least), "{slots}");
    }
    Ok(())
}

/// Loads the index file, and makes the bit of slot `n` this, where there is such a slot.
fn write_bit<D: Device>(
    alloc: Global,
    device: &mut D,
    n: u16,
    value: bool,
) -> Result<IndexFile, IndexFault> {
    let mut index = load(alloc, device)?;
    if n == 0 || u32::from(n) > index.slots() {
        return Err(IndexFault::Misplaced);
    }
    if value {
        index.set(device, n)?;
    } else {
        index.clear(device, n)?;
    }
    Ok(index)
}

/// Makes the bit of slot `n` this, by four transfers: whether the slot is in use, and the counts, of the index file then and of what is
/// loaded again.
fn written(
    alloc: Global,
    device: &mut Memory,
    n: u16,
    value: bool,
) -> Result<[(bool, Counts); 2], IndexFault> {
    let before = device.transfers();
    let index = write_bit(alloc, device, n, value)?;
    if device.transfers().saturating_sub(before) != 4 {
        return Err(IndexFault::Misplaced);
    }
    let again = load(alloc, device)?;
    Ok([
        (index.in_use(n), counts(&index)),
        (again.in_use(n), counts(&again)),
    ])
}

/// A slot, whether it comes into use, and the free slots and the least one then.
const WRITES: [(u16, bool, u32, u16); 6] = [
    (6, true, 10, 7),
    (16, true, 9, 7),
    (7, true, 8, 8),
    (6, false, 9, 6),
    (6, false, 9, 6),
    (16, false, 10, 6),
];

#[test]
fn slots_come_into_use_and_go(rt: HostRuntime) -> Result<(), Fail> {
    let mut device = small_index_file(rt.alloc(), 0x001f)?;
    for (n, value, free, least) in WRITES {
        let found = written(rt.alloc(), &mut device, n, value)?;
        let wanted = (value, (16, free, Some(least)));
        assert_eq!(rt; found, [wanted, wanted], "{n} {value}");
    }
    Ok(())
}

/// Whether slot 6 is in use where a transfer failed by which it was to come into use; `None` where that wasn't told.
fn in_use_after(alloc: Global, transfer: u64, lands: bool) -> Result<Option<bool>, Fail> {
    let mut device = FailOnce::new(small_index_file(alloc, 0x001f)?, transfer, lands);
    match write_bit(alloc, &mut device, 6, true) {
        Err(IndexFault::DeviceFault) => Ok(Some(load(alloc, &mut device)?.in_use(6))),
        _ => Ok(None),
    }
}

#[test]
fn a_bit_is_written_or_not(rt: HostRuntime) -> Result<(), Fail> {
    for (transfer, lands) in [(1, true), (2, true), (3, true), (4, false), (4, true)] {
        let found = in_use_after(rt.alloc(), transfer, lands)?;
        let is_written = transfer == 4 && lands;
        assert_eq!(rt; found, Some(is_written), "at {transfer}");
    }
    Ok(())
}

/// Takes the least free slot into use, as where a header is made.
fn take_slot<D: Device>(index: &mut IndexFile, device: &mut D) -> Result<Option<u16>, DeviceFault>
    requires within { IndexLiesWithin (index_kept index.old) (length (D.disk device.old).image) }
    ensures { IfOk result (λ slot. IfSome slot (λ n. is_in_use (index_kept index.new) n ≡ true)) }
{
    let Some(n) = index.least_free() else {
        return Ok(None);
    };
    index.set(device, n)?;
    Ok(Some(n))
}

#[test]
fn slots_are_taken(rt: HostRuntime) -> Result<(), Fail> {
    let mut device = small_index_file(rt.alloc(), 0xfe1f)?;
    for slot in [Some(6), Some(7), Some(8), Some(9), None] {
        let mut index = load(rt.alloc(), &mut device)?;
        assert_eq!(rt; take_slot(&mut index, &mut device)?, slot);
    }
    Ok(())
}

/// Headers where 3 slots were added at block 40, and 2 at block 60, and their LBNs.
const ADDED: [(u16, Option<u32>); 6] = [
    (16, Some(18)),
    (17, Some(40)),
    (19, Some(42)),
    (20, Some(60)),
    (21, Some(61)),
    (22, None),
];

#[test]
fn slots_are_added(rt: HostRuntime) -> Result<(), Fail> {
    let mut device = small_index_file(rt.alloc(), 0xffff)?;
    let mut index = load(rt.alloc(), &mut device)?;
    index.reserve(5)?;
    index.grow(40, 3);
    index.grow(60, 2);
    assert_eq!(rt; counts(&index), (21, 5, Some(17)));
    for (n, lbn) in ADDED {
        assert_eq!(rt; header_lbn(&index, n), lbn, "header {n}");
    }
    index.reserve(5000)?;
    index.grow(1000, 5000);
    assert_eq!(rt; index.slots(), 4096, "as many as there are bits");
    assert_eq!(rt; header_lbn(&index, 4096), Some(5074));
    Ok(())
}
