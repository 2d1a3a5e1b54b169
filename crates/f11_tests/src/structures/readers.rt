//! Files read block by block along their headers.
ghost use Rattle.std.specs.Prelude.{◌≡◌, length, map, IsTrue, Ok, Some, true};
ghost use Rattle.std.specs.List.{slice_get};
ghost use Rattle.f11_chain.specs.Calls.{table};
ghost use Rattle.f11_index.specs.Kept.{index_kept, IndexLiesWithin};
ghost use Rattle.f11_volume.specs.Contents.{block_or_zeros, blocks_reached};

use crate::structures::chains::{change, long_file, two_headers};
use f11_bytes::Block;
use f11_dev::{Device, DeviceFault, FailOnce, Liar, Memory};
use f11_fixtures::index::load;
use f11_fixtures::{SEVENS, ZEROS, file, put};
use f11_index::IndexFile;
use f11_reader::FileReader;
use f11_store::FileId;
use std::alloc::Global;
use std::test::Fail;

/// What is told of a file that is read to its end: how many blocks it says that it has, how many were read, the first byte of each of
/// the first twelve, and how often a read failed.
#[derive(Clone, Copy, Debug, PartialEq, Eq)]
struct Told {
    count: u32,
    read: u32,
    bytes: [u8; 12],
    faults: u32,
}

/// Reads the file with an identification, where there is one, by 270 reads.
fn read_all<D: Device>(
    alloc: Global,
    device: &mut D,
    id: FileId,
) -> Result<Option<Told>, DeviceFault> {
    let Ok(index) = load(alloc, device) else {
        return Err(DeviceFault);
    };
    let Some(mut reader) = FileReader::open(device, &index, id)? else {
        return Ok(None);
    };
    let count = reader.count(device, &index)?;
    let (mut read, mut faults, mut bytes, mut block) = (0, 0, [0; 12], SEVENS);
    for _ in 0..270u32 {
        match reader.read(device, &index, &mut block) {
            Ok(true) => {
                if read < 12 {
                    bytes[read as usize] = block[0];
                }
                read += 1;
            }
            Ok(false) => {}
            Err(_) => faults += 1,
        }
    }
    Ok(Some(Told {
        count,
        read,
        bytes,
        faults,
    }))
}

/// The blocks of file 6, in order, each with its number in the file, from 1.
const BLOCKS: [(u32, u8); 10] = [
    (22, 1),
    (23, 2),
    (24, 3),
    (25, 4),
    (30, 5),
    (31, 6),
    (40, 7),
    (50, 8),
    (51, 9),
    (52, 10),
];

/// A small volume with file 6, of two headers, each block of which is filled with its number in the file.
fn numbered(alloc: Global) -> Result<Memory, Fail> {
    let mut device = two_headers(alloc)?;
    for (lbn, number) in BLOCKS {
        put(&mut device, lbn, &[number; 512])?;
    }
    Ok(device)
}

/// A file that has so many blocks, whose first bytes are these.
fn all_read(blocks: u32, bytes: [u8; 12]) -> Result<Option<Told>, DeviceFault> {
    Ok(Some(Told {
        count: blocks,
        read: blocks,
        bytes,
        faults: 0,
    }))
}

const WHOLE: [u8; 12] = [1, 2, 3, 4, 5, 6, 7, 8, 9, 10, 0, 0];

const FIRST_HEADER: [u8; 12] = [1, 2, 3, 4, 5, 6, 0, 0, 0, 0, 0, 0];

#[test]
fn files_are_found_and_read(rt: HostRuntime) -> Result<(), Fail> {
    let mut device = numbered(rt.alloc())?;
    let elsewhere = FileId {
        number: 6,
        sequence: 1,
        volume: 1,
    };
    // each after three transfers for the home block and the index file
    for (id, wanted, transfers) in [
        (file(6, 1), all_read(10, WHOLE), 16),
        (file(6, 2), Ok(None), 4),
        (file(6, 0), Ok(None), 4),
        (elsewhere, Ok(None), 3),
        (file(7, 3), Ok(None), 4),
        (file(8, 1), Ok(None), 3),
        (file(0, 0), Ok(None), 3),
        (file(17, 1), Ok(None), 3),
        (file(u16::MAX, 1), Ok(None), 3),
    ] {
        let before = device.transfers();
        let found = read_all(rt.alloc(), &mut device, id);
        let made = device.transfers().saturating_sub(before);
        assert!(rt; found == wanted && made == transfers, "{id}");
    }
    Ok(())
}

/// What is read of file 6 where a byte of a header is this.
fn read_with(
    alloc: Global,
    lbn: u32,
    at: usize,
    value: u8,
) -> Result<Result<Option<Told>, DeviceFault>, Fail> {
    let mut device = numbered(alloc)?;
    change(&mut device, lbn, at, value)?;
    Ok(read_all(alloc, &mut device, file(6, 1)))
}

#[test]
fn a_file_ends_where_its_headers_break_off(rt: HostRuntime) -> Result<(), Fail> {
    let broken = all_read(6, FIRST_HEADER);
    for (lbn, at, value, wanted) in [
        // the link is to the header itself, to a slot that isn't in use, past the slots, of another sequence number
        (8, 94, 6, broken),
        (8, 94, 16, broken),
        (8, 94, 17, broken),
        (8, 96, 4, broken),
        // the second header is dead, of another level, or of another segment
        (9, 2, 0, broken),
        (9, 6, 0, broken),
        (9, 92, 0, broken),
        (9, 92, 2, broken),
        // the first one is of segment 1, or dead
        (8, 92, 1, Ok(None)),
        (8, 2, 0, Ok(None)),
        // a pointer is past the device's end
        (
            8,
            102,
            1,
            all_read(10, [0, 0, 0, 0, 5, 6, 7, 8, 9, 10, 0, 0]),
        ),
        (
            9,
            102,
            1,
            all_read(10, [1, 2, 3, 4, 5, 6, 0, 8, 9, 10, 0, 0]),
        ),
    ] {
        let found = read_with(rt.alloc(), lbn, at, value)?;
        assert!(rt; found == wanted, "{lbn} {at} {value}");
    }
    Ok(())
}

#[test]
fn a_transfer_of_a_reader_fails(rt: HostRuntime) -> Result<(), Fail> {
    // three for the home block and the index file, one each to find the file and to count its blocks, and then eleven
    for transfer in 1..=17 {
        let mut device = FailOnce::new(numbered(rt.alloc())?, transfer, true);
        let found = read_all(rt.alloc(), &mut device, file(6, 1));
        let wanted = if transfer <= 5 {
            Err(DeviceFault)
        } else {
            Ok(Some(Told {
                count: 10,
                read: 10,
                bytes: WHOLE,
                faults: u32::from(transfer <= 16),
            }))
        };
        assert!(rt; found == wanted, "{transfer}");
    }
    Ok(())
}

#[test]
fn a_liar_over_the_second_header_ends_a_file(rt: HostRuntime) -> Result<(), Fail> {
    let mut device = Liar::new(numbered(rt.alloc())?, 9);
    device.begin();
    let found = read_all(rt.alloc(), &mut device, file(6, 1));
    assert!(rt; found == all_read(6, FIRST_HEADER));
    Ok(())
}

#[test]
fn a_reader_reads_256_headers_at_most(rt: HostRuntime) -> Result<(), Fail> {
    for link in [file(0, 0), file(273, 1)] {
        let mut device = long_file(rt.alloc(), link)?;
        let found = read_all(rt.alloc(), &mut device, file(17, 1));
        assert!(rt; found == all_read(256, [0; 12]));
    }
    Ok(())
}

/// Reads the first block of the file with an identification, as where a file is taken out; whether there is one.
fn read_first<D: Device>(
    device: &mut D,
    index: &IndexFile,
    id: FileId,
    into: &mut Block,
) -> Result<bool, DeviceFault>
    requires within { IndexLiesWithin (index_kept index.now) (length (D.disk device.old).image) }
    ensures block { result ≡ Ok true → IsTrue (D.disk device.old).honest
        → slice_get (map (block_or_zeros (D.disk device.old).image)
        (blocks_reached (table (index_kept index.now) (D.disk device.old)) id.number)) 0
        ≡ Some into.new }
{
    let Some(mut reader) = FileReader::open(device, index, id)? else {
        return Ok(false);
    };
    reader.read(device, index, into)
}

#[test]
fn a_first_block_is_read(rt: HostRuntime) -> Result<(), Fail> {
    let mut device = numbered(rt.alloc())?;
    let index = load(rt.alloc(), &mut device)?;
    let mut block = ZEROS;
    assert!(rt; read_first(&mut device, &index, file(6, 1), &mut block) == Ok(true));
    assert!(rt; block == [1; 512]);
    Ok(())
}
