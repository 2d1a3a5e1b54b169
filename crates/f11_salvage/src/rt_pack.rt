//! An RT-11 volume of which all files are to be copied.
ghost use Rattle.std.specs.Prelude.{◌≡◌, ◌≤◌, IfErr, IfOk, IsTrue, length};
ghost use Rattle.f11_dev.specs.Looked.{Looked};
ghost use Rattle.f11_commands.specs.RtAny.{served_so};
ghost use Rattle.f11_salvage.specs.RtPack.{BeginsPack, CannotBegin, HeadIs, device_of, has_some};

use f11_bytes::{BLOCK_SIZE, Block, read_word};
use f11_commands::{Failure, FileAnswer, RtServed, RtState, read_directory};
use f11_dev::{Device, DeviceFault};
use rt11_volume::RtEntries;
use std::alloc::Global;
use std::io::Write;

/// The first block of the directory.
const DIRECTORY: u32 = 6;

/// What is read of a volume beside its entries.
#[derive(Clone, Copy)]
pub(crate) struct Head {
    /// How many segments its directory has.
    pub(crate) segments: u16,
    /// Whether there is something in its boot block.
    pub(crate) boots: bool,
}

/// An RT-11 volume, faulty or not, of which all files are to be copied, on its device.
#[derive(Drop)]
pub struct RtPack<D: Device> {
    /// The device that has the volume.
    pub(crate) device: D,
    /// How the volume is.
    pub(crate) state: RtState,
    /// All entries of its directory that can be read.
    pub(crate) entries: RtEntries,
    /// What else is known of it.
    pub(crate) head: Head,
}

impl<D: Device> RtPack<D> {
    /// Its device, where nothing is copied.
    pub fn device(self) -> D
        ensures { result ≡ device_of self }
    {
        self.device
    }
}

/// How a command's work ended, on a volume that is so.
pub(crate) fn served(state: RtState, told: Result<FileAnswer, Failure>) -> Result<RtServed, Failure>
    ensures { result ≡ served_so state told }
{
    let answer = told?;
    Ok(RtServed { answer, state })
}

/// Whether a block has a byte that isn't 0.
fn has_some(block: &Block) -> bool
    ensures { result ≡ has_some block.now }
{
    block.iter().any(|byte| *byte != 0)
}

/// Reads what stands before a directory, and how many segments it has.
fn read_head<D: Device>(device: &mut D) -> Result<Head, DeviceFault>
    ensures head { IfOk result (λ head. Looked (D.disk device.old) (D.disk device.new) 2 0) }
    ensures is { IfOk result (λ head. IsTrue (D.disk device.old).honest
        → 8 ≤ length (D.disk device.old).image → HeadIs head (D.disk device.old).image) }
    ensures fault { IfErr result (λ e. Looked (D.disk device.old) (D.disk device.new) 2 1) }
{
    if device.blocks() < 8 {
        return Ok(Head {
            segments: 1,
            boots: false,
        });
    }
    let mut boot = [0; BLOCK_SIZE];
    device.read(0, &mut boot)?;
    let mut first = [0; BLOCK_SIZE];
    device.read(DIRECTORY, &mut first)?;
    Ok(Head {
        segments: read_word(&first, 0),
        boots: has_some(&boot),
    })
}

/// Reads the RT-11 volume on a device, of which all files are to be copied. It serves any volume whose directory has the size that it
/// should have, faulty or not: the entries of each segment that the links lead to and whose extra bytes are right. Nothing is written to
/// the device.
///
/// Where the directory can't be read it writes the lines of `rt-vfy`: then it gives the device back, and what the command answers. Else it
/// writes nothing.
///
/// # Errors
///
/// In the answer [`Failure::DeviceFault`] where a transfer failed, [`Failure::NoMemory`] where there was no memory, and
/// [`Failure::CannotWrite`] where the writer takes no more.
pub fn begin_rt_copy<D: Device, W: Write>(
    alloc: Global,
    device: D,
    writer: &mut W,
) -> Result<RtPack<D>, (D, Result<RtServed, Failure>)>
    ensures begins { IfOk result (λ pack. (writer.new ≡ writer.old)
        × BeginsPack pack D.disk (D.disk device)) }
    ensures ended { IfErr result (λ end. CannotBegin end.1
        (D.disk device) (D.disk end.0) W.contents writer.old writer.new) }
{
    let mut device = device;
    let (state, entries) = match read_directory(alloc, &mut device, writer) {
        Ok(found) => found,
        Err(told) => return Err((device, served(RtState::Faulty, told))),
    };
    match read_head(&mut device) {
        Ok(head) => Ok(RtPack {
            device,
            state,
            entries,
            head,
        }),
        Err(DeviceFault) => Err((device, Err(Failure::DeviceFault))),
    }
}
