//! The command `dump`.
ghost use Rattle.std.specs.Prelude.{◌≡◌, length, IfOk, IfErr, OnOk};
ghost use Rattle.f11_index.specs.Kept.{index_kept, IndexLiesWithin};
ghost use Rattle.f11_commands.specs.DumpCommand.{DumpsSlot, FailsToDumpSlot, FailsToPrintHeader, PrintsFault, PrintsHeader};

use crate::dump::dump_header;
use crate::outcome::{Answer, Failure};
use crate::volume::find_index;
use f11_bytes::BLOCK_SIZE;
use f11_dev::Device;
use f11_index::IndexFile;
use std::alloc::Global;
use std::io::Write;

/// Writes header `n` of a volume, as [`dump_header`] does, or `header N none` where the index file has no such slot.
///
/// Where the volume has no home block, or its index file isn't as it should be, or the bit of a slot that isn't there is 1,
/// it writes the line of that fault alone (`fault F1`, `F2`, `F6` and what it says), and answers [`Answer::Fault`].
///
/// It takes memory for the index file's bits and the LBNs of the headers.
///
/// # Errors
///
/// [`Failure::DeviceFault`] where a transfer failed, [`Failure::NoMemory`] where there was no memory, and
/// [`Failure::CannotWrite`] where the writer takes no more: then it may hold a part of the lines.
pub fn print_header<D: Device, W: Write>(
    alloc: Global,
    device: &mut D,
    writer: &mut W,
    n: u16,
) -> Result<Answer, Failure>
    ensures done { result ≡ Ok Answer.Done
        → PrintsHeader D.disk n device.old device.new W.contents writer.old writer.new }
    ensures fault { result ≡ Ok Answer.Fault
        → PrintsFault D.disk device.old device.new W.contents writer.old writer.new }
    ensures failed { IfErr result (λ failure. FailsToPrintHeader failure
        D.disk device.old device.new W.contents writer.old writer.new) }
{
    match find_index(alloc, device)? {
        Ok((_, index)) => dump_slot(device, &index, writer, n),
        Err(fault) => {
            writeln!(writer, "fault {fault}")?;
            Ok(Answer::Fault)
        }
    }
}

/// Writes header `n` of an index file.
fn dump_slot<D: Device, W: Write>(
    device: &mut D,
    index: &IndexFile,
    writer: &mut W,
    n: u16,
) -> Result<Answer, Failure>
    requires within { IndexLiesWithin (index_kept index.now) (length (D.disk device.old).image) }
    ensures done { IfOk result (λ answer. answer ≡ Answer.Done) }
    ensures dumps { OnOk result (DumpsSlot (index_kept index.now) n D.disk device.old device.new
        W.contents writer.old writer.new) }
    ensures failed { IfErr result (λ failure. FailsToDumpSlot failure
        D.disk device.old device.new W.contents writer.old writer.new) }
{
    if n == 0 || index.slots() < u32::from(n) {
        writeln!(writer, "header {n} none")?;
        return Ok(Answer::Done);
    }
    let mut block = [0; BLOCK_SIZE];
    device.read(index.lbn_of_header(n), &mut block)?;
    dump_header(writer, &block, n)
}
