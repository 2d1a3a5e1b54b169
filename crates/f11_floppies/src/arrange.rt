//! Blocks read out of an image in sector order, and put back.
ghost use Rattle.std.specs.Prelude.{◌≡◌, ◌<◌, ◌≤◌, IfOk, OnErr, drop, length, take};
ghost use Rattle.f11_floppies.specs.Order.{block_count, image_size};
ghost use Rattle.f11_floppies.specs.Arrange.{logical_block, padded, AreBytes, PutsBlock};

use crate::Order;
use f11_dev::f11_bytes::{put_bytes, zeros};
use f11_dev::{Block, NoMemory};

/// Block `lbn` of an image in sector order: the bytes of its sectors, one to four. Those that lack, past the image's end, are zeros.
pub fn block_of(order: Order, image: &[u8], lbn: u32) -> Block
    requires { lbn < block_count order }
    ensures { result ≡ logical_block order image.now lbn }
{
    let mut block = zeros();
    let size = order.sector_bytes();
    let count = order.sectors_of_block();
    for k in 0..count {
        let sector = part(image, order.start_of(count * lbn as usize + k), size);
        put_bytes(&mut block, size * k, sector);
    }
    block
}

/// Puts block `lbn` into its sectors, one to four, of an image in sector order that is whole or longer. All other bytes stay.
pub fn put_block(order: Order, image: &mut [u8], lbn: u32, block: &Block)
    requires block { lbn < block_count order }
    requires whole { image_size order ≤ length image.old }
    ensures puts { PutsBlock order lbn block.now image.old image.new }
    ensures bytes { AreBytes image.new }
{
    let size = order.sector_bytes();
    let count = order.sectors_of_block();
    for k in 0..count {
        let at = order.start_of(count * lbn as usize + k);
        put_bytes(image, at, part(block, size * k, size));
    }
}

/// So many bytes from one on, or as many of them as there are.
fn part(bytes: &[u8], from: usize, count: usize) -> &[u8]
    ensures { result.now ≡ take count (drop from bytes.now) }
{
    let rest = &bytes[from.min(bytes.len())..];
    &rest[..count.min(rest.len())]
}

/// The bytes, with zeros behind them where they are fewer than a whole image has.
pub(crate) fn whole(order: Order, mut bytes: Vec<u8>) -> Result<Vec<u8>, NoMemory>
    ensures padded { IfOk result (λ all. all.items ≡ padded order bytes.items) }
    ensures bytes { IfOk result (λ all. AreBytes all.items) }
    ensures short { OnErr result (length bytes.items < image_size order) }
{
    let size = order.image_bytes();
    if bytes.len() < size {
        bytes.resize(size, 0)?;
    }
    Ok(bytes)
}
