//! One header of a file, and the next.
ghost use Rattle.std.specs.Prelude.{◌≡◌, ◌<◌, ◌≤◌, length, IsTrue, IfOk, IfSome, IfNone, IsOk, IsErrOf, OnOk, OnErr};
ghost use Rattle.f11_chain.specs.Calls.{HoldsFirst, ReadsHeader, ReadsFirst, FindsNoFile, ReadsNext, FindsLast, FindsWrongLink, FailsToReadNext};
ghost use Rattle.f11_dev.specs.Looked.{Looked};
ghost use Rattle.f11_index.specs.header.Fields.{file_sequence};
ghost use Rattle.f11_index.specs.header.Header.{holds_header};
ghost use Rattle.f11_index.specs.IndexFile.{slots};
ghost use Rattle.f11_index.specs.Kept.{index_kept, IndexLiesWithin};

use crate::fault::ChainFault;
use f11_dev::{Device, DeviceFault};
use f11_index::IndexFile;
use f11_index::f11_bytes::Block;
use f11_index::f11_header::{Header, check};
use f11_index::f11_map::in_hand::{link, segment};

/// The greatest segment number: a header that has it has no next one.
const LAST_SEGMENT: u8 = 255;

/// The sequence number of a header.
fn sequence(block: &Block) -> u16
    ensures { result ≡ file_sequence block.now }
{
    Header::new(block).id().sequence
}

/// Reads the first header of file `n` into the block: it is valid, in use, and has segment number 0. One transfer at most.
///
/// # Errors
///
/// `Damaged` where slot `n`, from 1 to the number of slots, has no such header; `DeviceFault` where the transfer failed. What the
/// block holds then is open.
pub fn first<D: Device>(
    device: &mut D,
    index: &IndexFile,
    n: u16,
    block: &mut Block,
) -> Result<(), ChainFault>
    requires slot { (0 < n) × (n ≤ slots (index_kept index.now)) }
    requires within { IndexLiesWithin (index_kept index.now) (length (D.disk device.old).image) }
    ensures reads { OnOk result (ReadsFirst (index_kept index.now) n block.new
        (D.disk device.old) (D.disk device.new)) }
    ensures in_hand { OnOk result (HoldsFirst (index_kept index.now) n block.new
        (D.disk device.new)) }
    ensures damaged { IsErrOf result ChainFault.Damaged
        → FindsNoFile (index_kept index.now) n (D.disk device.old) (D.disk device.new) }
    ensures failed { IsErrOf result ChainFault.DeviceFault
        → Looked (D.disk device.old) (D.disk device.new) 1 1 }
    ensures no_end { ¬ IsErrOf result ChainFault.EndOfFile }
{
    if !read_header(device, index, n, block)? || segment(block) != 0 {
        return Err(ChainFault::Damaged);
    }
    Ok(())
}

/// Replaces a header of a file by its next one, and gives that one's number: it is valid, in use, has the sequence number of the
/// link, and a segment number one more. `None` where the header links to none, and then the block stays. One transfer at most.
///
/// # Errors
///
/// `Damaged` where the link is to anything else; `DeviceFault` where the transfer failed. What the block holds then is open.
pub fn next<D: Device>(
    device: &mut D,
    index: &IndexFile,
    block: &mut Block,
) -> Result<Option<u16>, ChainFault>
    requires header { IsTrue (holds_header block.old) }
    requires within { IndexLiesWithin (index_kept index.now) (length (D.disk device.old).image) }
    ensures reads { IfOk result (λ answer. IfSome answer (λ m.
        ReadsNext (index_kept index.now) m block.old block.new (D.disk device.old) (D.disk device.new))) }
    ensures last { IfOk result (λ answer. IfNone answer
        (FindsLast block.old block.new (D.disk device.old) (D.disk device.new))) }
    ensures damaged { IsErrOf result ChainFault.Damaged
        → FindsWrongLink (index_kept index.now) block.old (D.disk device.old) (D.disk device.new) }
    ensures failed { IsErrOf result ChainFault.DeviceFault
        → FailsToReadNext block.old (D.disk device.old) (D.disk device.new) }
    ensures no_end { ¬ IsErrOf result ChainFault.EndOfFile }
{
    let link = link(block);
    if link.number == 0 {
        return Ok(None);
    }
    let before = segment(block);
    if before == LAST_SEGMENT {
        return Err(ChainFault::Damaged);
    }
    if !read_header(device, index, link.number, block)? {
        return Err(ChainFault::Damaged);
    }
    if sequence(block) != link.sequence || segment(block) != before + 1 {
        return Err(ChainFault::Damaged);
    }
    Ok(Some(link.number))
}

/// Reads header `n` into the block where its slot is in use, and says whether it is valid. One transfer at most.
pub(crate) fn read_header<D: Device>(
    device: &mut D,
    index: &IndexFile,
    n: u16,
    block: &mut Block,
) -> Result<bool, DeviceFault>
    requires within { IndexLiesWithin (index_kept index.now) (length (D.disk device.old).image) }
    ensures reads { IfOk result (λ live. ReadsHeader (index_kept index.now) n live block.new
        (D.disk device.old) (D.disk device.new)) }
    ensures failed { OnErr result (Looked (D.disk device.old) (D.disk device.new) 1 1) }
{
    if !index.in_use(n) {
        return Ok(false);
    }
    device.read(index.lbn_of_header(n), block)?;
    Ok(check(block, n).is_ok())
}
