//! The first headers of a volume's own files.
ghost use Rattle.std.specs.Prelude.{◌≡◌, ◌<◌, ◌≤◌, length, IfOk, OnErr, MatchOption};
ghost use Rattle.f11_dev.specs.Looked.{Looked};
ghost use Rattle.f11_index.specs.IndexFile.{slots};
ghost use Rattle.f11_index.specs.Kept.{index_kept, IndexLiesWithin};
ghost use Rattle.f11_vfy.specs.Frames.Parts.{JudgesOwnFile, FindsOwnFiles, FindsNoOwnFile};

use f11_bytes::BLOCK_SIZE;
use f11_chain::{ChainFault, first};
use f11_dev::{Device, DeviceFault};
use f11_header::Header;
use f11_index::IndexFile;

/// The least of 2, 3 and 4 whose header isn't the first of the file of that number and sequence number; `None` where each is. It reads
/// each header up to that one, once.
///
/// # Errors
///
/// `DeviceFault` where a transfer failed.
pub(crate) fn first_no_file<D: Device>(
    device: &mut D,
    index: &IndexFile,
) -> Result<Option<u16>, DeviceFault>
    requires within { IndexLiesWithin (index_kept index.now) (length (D.disk device.old).image) }
    ensures judges { IfOk result (λ found. MatchOption found
        (FindsOwnFiles (index_kept index.now) (D.disk device.old) (D.disk device.new))
        (λ n. FindsNoOwnFile (index_kept index.now) n (D.disk device.old) (D.disk device.new))) }
    ensures failed { OnErr result (Looked (D.disk device.old) (D.disk device.new) 3 1) }
{
    for n in 2..5u16 {
        if !is_own_file(device, index, n)? {
            return Ok(Some(n));
        }
    }
    Ok(None)
}

/// Whether header `n` is the first of the file `n,n`.
fn is_own_file<D: Device>(device: &mut D, index: &IndexFile, n: u16) -> Result<bool, DeviceFault>
    requires slot { (0 < n) × (n ≤ slots (index_kept index.now)) }
    requires within { IndexLiesWithin (index_kept index.now) (length (D.disk device.old).image) }
    ensures judges { IfOk result (λ own.
        JudgesOwnFile (index_kept index.now) n own (D.disk device.old) (D.disk device.new)) }
    ensures failed { OnErr result (Looked (D.disk device.old) (D.disk device.new) 1 1) }
{
    let mut block = [0; BLOCK_SIZE];
    match first(device, index, n, &mut block) {
        Ok(()) => Ok(Header::new(&block).id().sequence == n),
        Err(ChainFault::Damaged) => Ok(false),
        Err(_) => Err(DeviceFault),
    }
}
