//! RT-11 volumes that are served whether they have faults or not.
ghost use Rattle.std.specs.Prelude.{◌≡◌, IfErr, IfOk, OnOk};
ghost use Rattle.f11_commands.specs.Output.{WriterTakes};
ghost use Rattle.f11_commands.specs.RtAny.{EndsUnread, EndsUnserved, ReadsVolume, look_failure, replaced_text, served_so};
ghost use Rattle.rt11_volume.specs.Surveying.{ReadsDirectory};

use crate::outcome::{Failure, FileAnswer};
use crate::report::System;
use crate::verifying::write_report;
use f11_dev::Device;
use rt11_volume::{LookFault, RtBadBlocks, RtEntries, RtState, RtSurvey, read_bad_blocks, survey};
use std::alloc::Global;
use std::fmt;
use std::io::{self, Write};

/// What a command answers that serves any RT-11 volume.
#[derive(Clone, Copy, Debug, PartialEq, Eq)]
pub struct RtServed {
    /// How its work ended.
    pub answer: FileAnswer,
    /// How the volume is.
    pub state: RtState,
}

/// How a command's work ended, on a volume that is so.
pub(crate) fn served(state: RtState, told: Result<FileAnswer, Failure>) -> Result<RtServed, Failure>
    ensures { result ≡ served_so state told }
{
    let answer = told?;
    Ok(RtServed { answer, state })
}

/// Looks how the RT-11 volume on a device is, and reads its entries. Nothing is written to the device.
///
/// # Errors
///
/// How the command ends: with [`FileAnswer::Faulty`] where the directory hasn't the size that it should have, of which it writes the lines of
/// `rt-vfy`; [`Failure::DeviceFault`] where a transfer failed, [`Failure::NoMemory`] where there was no memory, and
/// [`Failure::CannotWrite`] where the writer takes no more.
pub fn read_directory<D: Device, W: Write>(
    alloc: Global,
    device: &mut D,
    writer: &mut W,
) -> Result<(RtState, RtEntries), Result<FileAnswer, Failure>>
    ensures reads { IfOk result (λ found. (writer.new ≡ writer.old)
        × ReadsDirectory found.0 found.1 (D.disk device.old) (D.disk device.new)) }
    ensures ended { IfErr result (λ told. EndsUnread told
        (D.disk device.old) (D.disk device.new) W.contents writer.old writer.new) }
{
    match survey(alloc, device) {
        Ok(RtSurvey::Read(state, entries)) => Ok((state, entries)),
        Ok(RtSurvey::Unreadable(faults, notes)) => {
            Err(write_report(writer, System::Rt11, &faults, &notes))
        }
        Err(LookFault::DeviceFault) => Err(Err(Failure::DeviceFault)),
        Err(LookFault::NoMemory) => Err(Err(Failure::NoMemory)),
    }
}

/// As [`read_directory`], and it reads the table of bad blocks behind that.
pub(crate) fn read_volume<D: Device, W: Write>(
    alloc: Global,
    device: &mut D,
    writer: &mut W,
) -> Result<(RtState, RtEntries, RtBadBlocks), Result<FileAnswer, Failure>>
    ensures reads { IfOk result (λ found. (writer.new ≡ writer.old)
        × ReadsVolume found.0 found.1 found.2 (D.disk device.old) (D.disk device.new)) }
    ensures ended { IfErr result (λ told. EndsUnserved told
        (D.disk device.old) (D.disk device.new) W.contents writer.old writer.new) }
{
    let (state, entries) = read_directory(alloc, device, writer)?;
    match read_bad_blocks(alloc, device) {
        Ok(bad) => Ok((state, entries, bad)),
        Err(fault) => Err(Err(look_failure(fault))),
    }
}

/// As which failure it is told that the table couldn't be read.
fn look_failure(fault: LookFault) -> Failure
    ensures { result ≡ look_failure fault }
{
    match fault {
        LookFault::DeviceFault => Failure::DeviceFault,
        LookFault::NoMemory => Failure::NoMemory,
    }
}

/// What is told of a bad block where it is one of an area's.
#[derive(Clone, Copy)]
pub(crate) struct ShownBad {
    /// The first block of the area, and how many it has.
    pub(crate) first: u32,
    pub(crate) blocks: u16,
    /// The bad block.
    pub(crate) number: u16,
}

impl fmt::Display for ShownBad {
    ghost use Rattle.std.specs.Prelude.{Some};
    ghost use Rattle.f11_commands.specs.RtAny.{replaced_mark};

    ghost output = { λ b. Some (replaced_mark b.first b.blocks b.number) };

    fn fmt<W: fmt::Write>(&self, f: &mut fmt::Formatter<W>) -> fmt::Result {
        let number = self.number;
        let end = u64::from(self.first) + u64::from(self.blocks);
        if self.first <= u32::from(number) && u64::from(number) < end {
            write!(f, " block {number} replaced")
        } else {
            Ok(())
        }
    }
}

/// Writes which blocks of an area are bad, and others stand for them.
pub(crate) fn write_replaced<W: Write>(
    writer: &mut W,
    bad: &[u16],
    first: u32,
    blocks: u16,
) -> io::Result<()>
    ensures { OnOk result (WriterTakes W.contents writer.old writer.new
        (replaced_text bad.now first blocks)) }
{
    for number in bad {
        let number = *number;
        write!(
            writer,
            "{}",
            ShownBad {
                first,
                blocks,
                number
            }
        )?;
    }
    Ok(())
}
