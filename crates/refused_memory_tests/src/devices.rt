//! Devices, and the errors' texts.
use f11_bytes::{NoMemory, read_long, read_word, sum_words, write_long, write_word};
use f11_dev::{CannotOpen, Device, DeviceFault, FailOnce, FileImage, Fuse, Liar, Memory};
use f11_fixtures::{SEVENS, ZEROS, get, keep, memory, put};
use f11_header::HeaderFault;
use f11_home::HomeFault;
use f11_map::MapFull;
use f11_rad50::{BadCharacter, BadName};
use std::alloc::{AllocError, Global};
use std::fs;
use std::fs::File;
use std::os::unix::fs::FileExt;
use std::test::Fail;

/// The byte that stands all over a block; `None` where the block can't be read, or has several.
fn byte_of(device: &mut impl Device, lbn: u32) -> Option<u8> {
    let block = get(device, lbn).ok()?;
    if block == [block[0]; 512] {
        Some(block[0])
    } else {
        None
    }
}

/// The bytes of the first three blocks.
fn bytes_of(device: &mut impl Device) -> [Option<u8>; 3] {
    [byte_of(device, 0), byte_of(device, 1), byte_of(device, 2)]
}

/// Whether sevens were written to a block.
fn writes(device: &mut impl Device, lbn: u32) -> bool {
    put(device, lbn, &SEVENS).is_ok()
}

#[test]
fn memory_keeps_blocks_and_counts_transfers(rt: HostRuntime) -> Result<(), Fail> {
    let mut device = memory(rt.alloc(), 3)?;
    assert_eq!(rt; (device.blocks(), device.transfers()), (3, 0));
    let before = bytes_of(&mut device);
    // a write whose record finds no memory fails, is counted, and leaves the old block
    let byte = if writes(&mut device, 1) { 7 } else { 0 };
    let after = bytes_of(&mut device);
    let wanted = [[Some(0); 3], [Some(0), Some(byte), Some(0)]];
    assert_eq!(rt; [before, after], wanted);
    assert_eq!(rt; device.transfers(), 7);
    assert!(rt; byte == 7 || writes(&mut device, 1));
    Ok(())
}

/// The bytes of words and a number that were written to a block of zeros.
fn written() -> [u8; 8] {
    let mut block = ZEROS;
    write_word(&mut block, 510, 0o401);
    write_word(&mut block, 3, 31419);
    write_long(&mut block, 100, 0x0102_0304);
    [
        block[510], block[511], block[3], block[4], block[100], block[101], block[102], block[103],
    ]
}

#[test]
fn words_have_their_low_byte_first(rt: HostRuntime) {
    assert_eq!(rt; written(), [1, 1, 187, 122, 2, 1, 4, 3]);
    let block = [187, 122, 2, 1, 4, 3];
    let read = (read_word(&block, 0), read_long(&block, 2));
    assert_eq!(rt; read, (31419, 0x0102_0304));
    let mut block = ZEROS;
    (block[3], block[4]) = (187, 122);
    let sums = (sum_words(&block, 3), sum_words(&[255; 512], 256));
    assert_eq!(rt; sums, (0xbb00 + 0x7a, 65280));
}

/// The files of the tests here.
const MADE: &str = "refused_memory_made.dsk";

const OPENED: &str = "refused_memory_opened.dsk";

#[test]
fn a_file_is_made(rt: HostRuntime) -> Result<(), Fail> {
    let _ = fs::remove_file(&rt, MADE);
    assert!(rt; FileImage::open(&rt, MADE).is_err());
    let mut image = FileImage::create(&rt, MADE, 3)?;
    let again = FileImage::create(&rt, MADE, 3);
    assert!(rt; again.is_err() && writes(&mut image, 1));
    drop(image);
    let mut bytes = [9; 1537];
    let read = File::open(&rt, MADE)?.read_at(&mut bytes, 0)?;
    let found = (bytes[511], bytes[512], bytes[1023], bytes[1024], read);
    assert_eq!(rt; found, (0, 7, 7, 0, 1536));
    fs::remove_file(&rt, MADE)?;
    Ok(())
}

#[test]
fn a_file_is_opened(rt: HostRuntime) -> Result<(), Fail> {
    fs::write(&rt, OPENED, [7; 1536].as_slice())?;
    let mut image = FileImage::open(&rt, OPENED)?;
    assert_eq!(rt; (image.blocks(), bytes_of(&mut image)), (3, [Some(7); 3]));
    drop(image);
    let mut protected = FileImage::open_to_read(&rt, OPENED)?;
    let is_written = put(&mut protected, 1, &ZEROS).is_ok();
    assert!(rt; !is_written && byte_of(&mut protected, 1) == Some(7));
    // what is cut away meanwhile can't be read
    fs::write(&rt, OPENED, [0; 1023].as_slice())?;
    let cut = FileImage::open_to_read(&rt, OPENED)?;
    assert_eq!(rt; (cut.blocks(), byte_of(&mut protected, 1)), (1, None));
    fs::remove_file(&rt, OPENED)?;
    Ok(())
}

/// What reads and writes give of a device of three blocks that passes so many transfers: two reads, a write of block 1 and one of block 0, and
/// three reads.
fn used(device: &mut impl Device) -> ([Option<u8>; 2], [bool; 2], [Option<u8>; 3]) {
    let before = [byte_of(device, 0), byte_of(device, 1)];
    let is_written = [writes(device, 1), writes(device, 0)];
    (before, is_written, bytes_of(device))
}

#[test]
fn a_fuse_passes_so_many_transfers(rt: HostRuntime) -> Result<(), Fail> {
    let mut device = Fuse::new(memory(rt.alloc(), 3)?, 3);
    let (before, [first, second], after) = used(&mut device);
    // the write that passes may find no memory for its record
    assert_eq!(rt; (before, second, after), ([Some(0); 2], false, [None; 3]));
    let mut inner = device.into_inner();
    let byte = if first { 7 } else { 0 };
    assert_eq!(rt; inner.transfers(), 3);
    assert_eq!(rt; bytes_of(&mut inner), [Some(0), Some(byte), Some(0)]);
    Ok(())
}

/// What a read, a write and a read of block 0 give where the second transfer fails, and the transfers of what is behind.
fn failed(device: Memory, lands: bool) -> (Option<u8>, bool, Option<u8>, u64) {
    let mut device = FailOnce::new(device, 2, lands);
    let before = byte_of(&mut device, 0);
    let is_written = writes(&mut device, 0);
    let after = byte_of(&mut device, 0);
    (before, is_written, after, device.into_inner().transfers())
}

#[test]
fn one_transfer_fails(rt: HostRuntime) -> Result<(), Fail> {
    let mut device = FailOnce::new(memory(rt.alloc(), 1)?, 1, true);
    let found = [byte_of(&mut device, 0), byte_of(&mut device, 0)];
    assert_eq!(rt; found, [None, Some(0)]);
    assert_eq!(rt; device.into_inner().transfers(), 1);
    for (lands, want) in [(true, 7), (false, 0)] {
        let (before, is_written, after, transfers) = failed(memory(rt.alloc(), 1)?, lands);
        assert_eq!(rt; (before, is_written), (Some(0), false));
        // the write that lands may find no memory for its record
        assert!(rt;
            after == Some(want) || after == Some(0),
            "where it lands: {lands}"
        );
        assert_eq!(rt; transfers, 2 + u64::from(lands));
    }
    Ok(())
}

#[test]
fn a_liar_lies_once_begun(rt: HostRuntime) -> Result<(), Fail> {
    let mut inner = memory(rt.alloc(), 2)?;
    for lbn in 0..2 {
        keep(&mut inner, lbn, &SEVENS)?;
    }
    let mut device = Liar::new(inner, 1);
    let before = bytes_of(&mut device);
    device.begin();
    let lying = bytes_of(&mut device);
    let after = bytes_of(&mut device.into_inner());
    let (truth, lie) = ([Some(7), Some(7), None], [Some(7), Some(0), None]);
    assert_eq!(rt; [before, lying, after], [truth, lie, truth]);
    Ok(())
}

/// Room for a text, asked for again where it is refused once.
fn room(alloc: Global) -> Result<String, AllocError> {
    String::with_capacity(alloc, 200).or_else(|_| String::with_capacity(alloc, 200))
}

#[test]
fn errors_say_what_they_are(rt: HostRuntime) -> Result<(), Fail> {
    let mut text = room(rt.alloc())?;
    write!(text, "{DeviceFault}, {}, {NoMemory}, ", CannotOpen::Exists)?;
    write!(text, "{}, {}, ", HomeFault::NoHome, HomeFault::DeviceFault)?;
    write!(
        text,
        "{}, {}, {MapFull}, ",
        HeaderFault::Dead,
        HeaderFault::Bad
    )?;
    write!(text, "{BadCharacter}, {BadName}")?;
    assert_eq!(rt;
        text.as_str(),
        "device fault, exists already, no memory, no home block, device fault, dead, bad, map full, not a character of Radix-50, bad name"
    );
    Ok(())
}
