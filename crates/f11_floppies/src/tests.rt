//! That an image in sector order is the blocks that it is said to be.
ghost use Rattle.std.specs.Prelude.{◌≡◌, ◌<◌, ◌≤◌, IfOk, length, slice_set};
ghost use Rattle.f11_floppies.specs.Arrange.{logical_image};
ghost use Rattle.f11_floppies.specs.Order.{block_count, image_size};

use crate::{Floppy, Order, block_of, place, put_block};
use f11_dev::{Block, Device, DeviceFault, NoMemory, ReadsRuns};
use std::alloc::Global;
use std::test::Fail;

const ZEROS: Block = [0; 512];

const SEVENS: Block = [7; 512];

const ORDERS: [Order; 3] = [Order::Rx01, Order::Rx02, Order::Rx50];

/// No block of a floppy.
const NONE: usize = 1000;

/// The sectors of track 1, from 0, in the order in which an RX01 and an RX02 hold a volume's.
const OF_26: [u8; 26] = [
    0, 2, 4, 6, 8, 10, 12, 14, 16, 18, 20, 22, 24, 1, 3, 5, 7, 9, 11, 13, 15, 17, 19, 21, 23, 25,
];

/// The sectors of track 1, from 0, in the order in which an RX50 holds a volume's.
const OF_10: [u8; 10] = [0, 2, 4, 6, 8, 1, 3, 5, 7, 9];

/// The bytes of a sector, and the sectors of a block.
fn sizes(order: Order) -> (u16, u16) {
    match order {
        Order::Rx01 => (128, 4),
        Order::Rx02 => (256, 2),
        Order::Rx50 => (512, 1),
    }
}

/// What stands in a sector of a volume: its number, the low byte at even places and the high one at odd ones; sevens in those of one block.
fn byte_of(order: Order, sector: usize, place: usize, sevens: usize) -> u8 {
    let (_, count) = sizes(order);
    if count > 0 && sector / count as usize == sevens {
        7
    } else if place % 2 == 0 {
        (sector % 256) as u8
    } else {
        (sector / 256 % 256) as u8
    }
}

/// Fills a sector of an image that is one of a volume.
fn fill(image: &mut Vec<u8>, order: Order, start: usize, sector: usize, sevens: usize) {
    let (size, _) = sizes(order);
    for i in 0..size as usize {
        let at = start.saturating_add(i);
        if at < image.len() {
            image[at] = byte_of(order, sector, i, sevens);
        }
    }
}

/// Fills a track of an RX01 or an RX02 that is one of a volume: those begin with track 1, and each begins six sectors behind the last.
fn fill_26(image: &mut Vec<u8>, order: Order, track: u8, sevens: usize) {
    let (size, _) = sizes(order);
    let track = track as usize;
    for k in 0..26 {
        let sector = (OF_26[k] as usize + 6 * track) % 26;
        let start = (26 * (track + 1) + sector) * size as usize;
        fill(image, order, start, 26 * track + k, sevens);
    }
}

/// Fills a track of an RX50 that is one of a volume: those begin with track 1 and end with track 0, each two sectors behind the last.
fn fill_10(image: &mut Vec<u8>, track: u8, sevens: usize) {
    let track = track as usize;
    for k in 0..10 {
        let sector = (OF_10[k] as usize + 2 * track) % 10;
        let start = (10 * ((track + 1) % 80) + sector) * 512;
        fill(image, Order::Rx50, start, 10 * track + k, sevens);
    }
}

/// An image whose sectors are numbered, with sevens in one block. Track 0, where it is no volume's, is full of nines.
fn image(alloc: Global, order: Order, sevens: usize) -> Result<Vec<u8>, Fail> {
    let mut image = Vec::new(alloc);
    image.resize(order.image_bytes(), 9)?;
    match order {
        Order::Rx01 | Order::Rx02 => {
            for track in 0..76 {
                fill_26(&mut image, order, track, sevens);
            }
        }
        Order::Rx50 => {
            for track in 0..80 {
                fill_10(&mut image, track, sevens);
            }
        }
    }
    Ok(image)
}

/// A block of such an image.
fn block(order: Order, lbn: u32, sevens: usize) -> Block {
    let (size, count) = sizes(order);
    let mut block = ZEROS;
    for i in 0..512 {
        if size > 0 {
            let sector = lbn as usize * count as usize + i / size as usize;
            block[i] = byte_of(order, sector, i, sevens);
        }
    }
    block
}

/// Whether a block is read, and is this one.
fn has(device: &mut impl Device, lbn: u32, block: &Block) -> bool {
    let mut found = ZEROS;
    lbn < device.blocks() && device.read(lbn, &mut found).is_ok() && found == *block
}

/// Whether a block is written.
fn writes(device: &mut impl Device, lbn: u32, block: &Block) -> bool {
    lbn < device.blocks() && device.write(lbn, block).is_ok()
}

/// Whether a block is put back into a whole image.
fn puts(order: Order, image: &mut Vec<u8>, lbn: u32, block: &Block) -> bool {
    let fits = lbn < order.blocks() && order.image_bytes() <= image.len();
    if fits {
        put_block(order, image, lbn, block);
    }
    fits
}

/// The byte of an image that is one of a sector, from 1, of a track, from 0.
fn spot(order: Order, track: u8, sector: u8, byte: u16) -> usize {
    let (track, sector, byte) = (track as usize, sector as usize, byte as usize);
    match order {
        Order::Rx01 => (26 * track + sector).saturating_sub(1) * 128 + byte,
        Order::Rx02 => (26 * track + sector).saturating_sub(1) * 256 + byte,
        Order::Rx50 => (10 * track + sector).saturating_sub(1) * 512 + byte,
    }
}

/// Whether all blocks are those of such an image.
fn has_all(device: &mut impl Device, order: Order, sevens: usize) -> bool {
    let mut all = true;
    for lbn in 0..device.blocks() {
        all = all && has(device, lbn, &block(order, lbn, sevens));
    }
    all
}

/// Writes a block of an image in sector order, and gives the image back: what a command does to a file of it.
fn put(order: Order, bytes: Vec<u8>, lbn: u32, from: &Block) -> Result<Vec<u8>, NoMemory>
    requires { lbn < block_count order }
    ensures { IfOk result (λ after. logical_image order after.items
        ≡ slice_set (logical_image order bytes.items) lbn from.now) }
{
    let mut floppy = Floppy::new(order, bytes)?;
    let _ = floppy.write(lbn, from);
    Ok(floppy.into_bytes())
}

/// Writes a block of a device of which it knows nothing else.
fn change<D: Device>(device: &mut D, lbn: u32, from: &Block)
    requires { lbn < length (D.disk device.old).image }
    ensures { length (D.disk device.new).image ≡ length (D.disk device.old).image }
{
    let _ = device.write(lbn, from);
}

/// Does so to a floppy, and gives a whole image of the same order back: how many blocks there are tells the order.
fn changed(order: Order, bytes: Vec<u8>, lbn: u32, from: &Block) -> Result<Vec<u8>, NoMemory>
    requires { lbn < block_count order }
    ensures { IfOk result (λ after. image_size order ≤ length after.items) }
{
    let mut floppy = Floppy::new(order, bytes)?;
    change(&mut floppy, lbn, from);
    Ok(floppy.into_bytes())
}

#[test]
fn the_length_tells_the_order(rt: HostRuntime) -> Result<(), Fail> {
    for (bytes, order) in [
        (256_256, Some(Order::Rx01)),
        (512_512, Some(Order::Rx02)),
        (252_928, None),
        (505_856, None),
        (409_600, None),
        (256_255, None),
        (0, None),
    ] {
        assert!(rt; Order::of_length(bytes) == order, "{bytes}");
    }
    for (order, blocks, bytes) in [
        (Order::Rx01, 494, 256_256),
        (Order::Rx02, 988, 512_512),
        (Order::Rx50, 800, 409_600),
    ] {
        assert!(rt;
            order.blocks() == blocks && order.image_bytes() == bytes,
            "{blocks}"
        );
    }
    Ok(())
}

#[test]
fn bytes_are_at_their_places(rt: HostRuntime) -> Result<(), Fail> {
    // a block, a byte of it, and where that is: the track, the sector from 1, and the byte of the sector
    for (order, lbn, byte, track, sector, at) in [
        (Order::Rx01, 0, 0, 1, 1, 0),
        (Order::Rx01, 0, 128, 1, 3, 0),
        (Order::Rx01, 3, 129, 1, 2, 1),
        (Order::Rx01, 6, 511, 2, 9, 127),
        (Order::Rx01, 493, 511, 76, 8, 127),
        (Order::Rx02, 0, 0, 1, 1, 0),
        (Order::Rx02, 12, 511, 1, 26, 255),
        (Order::Rx02, 13, 0, 2, 7, 0),
        (Order::Rx02, 987, 511, 76, 8, 255),
        (Order::Rx50, 0, 0, 1, 1, 0),
        (Order::Rx50, 5, 300, 1, 2, 300),
        (Order::Rx50, 10, 0, 2, 3, 0),
        (Order::Rx50, 790, 511, 0, 9, 511),
    ] {
        let expected = spot(order, track, sector, at);
        assert!(rt; lbn < order.blocks() && byte < 512, "{lbn} {byte}");
        assert!(rt; place(order, lbn, byte) == expected, "{lbn} {byte}");
    }
    Ok(())
}

#[test]
fn blocks_are_in_logical_order(rt: HostRuntime) -> Result<(), Fail> {
    for order in ORDERS {
        let mut floppy = Floppy::new(order, image(rt.alloc(), order, NONE)?)?;
        let blocks = floppy.blocks();
        assert!(rt; has_all(&mut floppy, order, NONE) && !has(&mut floppy, blocks, &ZEROS));
        let mut two = [ZEROS; 2];
        assert!(rt; floppy.blocks() > 100 && floppy.read_run(99, &mut two).is_ok());
        assert!(rt; two == [block(order, 99, NONE), block(order, 100, NONE)]);
        // nothing was written
        assert!(rt; floppy.into_bytes() == image(rt.alloc(), order, NONE)?);
    }
    Ok(())
}

#[test]
fn a_write_changes_the_sectors_of_its_block(rt: HostRuntime) -> Result<(), Fail> {
    for order in ORDERS {
        for lbn in [0, 6, 130, 493] {
            let expected = image(rt.alloc(), order, lbn as usize)?;
            let mut floppy = Floppy::new(order, image(rt.alloc(), order, NONE)?)?;
            assert!(rt; writes(&mut floppy, lbn, &SEVENS));
            assert!(rt; has_all(&mut floppy, order, lbn as usize), "{lbn}");
            assert!(rt; floppy.into_bytes() == expected, "{lbn}");
            let bytes = image(rt.alloc(), order, NONE)?;
            assert!(rt; lbn < order.blocks());
            let mut bytes = put(order, bytes, lbn, &SEVENS)?;
            assert!(rt;
                bytes == expected && block_of(order, &bytes, lbn) == SEVENS,
                "{lbn}"
            );
            assert!(rt; puts(order, &mut bytes, lbn, &block(order, lbn, NONE)));
            assert!(rt; bytes == image(rt.alloc(), order, NONE)?, "{lbn}");
        }
    }
    Ok(())
}

#[test]
fn what_an_image_lacks_is_zeros(rt: HostRuntime) -> Result<(), Fail> {
    for order in ORDERS {
        let mut bytes = image(rt.alloc(), order, NONE)?;
        bytes.truncate(100_000);
        let first = block(order, 0, NONE);
        assert!(rt; order.blocks() > 200 && block_of(order, &bytes, 0) == first);
        assert!(rt; order.blocks() > 400 && block_of(order, &bytes, 400) == ZEROS);
        let mut floppy = Floppy::new(order, bytes)?;
        assert!(rt; has(&mut floppy, 0, &first) && has(&mut floppy, 400, &ZEROS));
        assert!(rt; writes(&mut floppy, 400, &SEVENS) && has(&mut floppy, 400, &SEVENS));
        assert!(rt; floppy.into_bytes().len() == order.image_bytes());
    }
    // none of its bytes, and more than it has
    let mut floppy = Floppy::new(Order::Rx01, Vec::new(rt.alloc()))?;
    assert!(rt; floppy.blocks() == 494 && has(&mut floppy, 0, &ZEROS));
    let mut bytes = image(rt.alloc(), Order::Rx01, NONE)?;
    bytes.push(5)?;
    assert!(rt; Floppy::new(Order::Rx01, bytes)?.into_bytes().len() == 256_257);
    Ok(())
}
