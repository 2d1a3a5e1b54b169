//! The command `rt-get`.

pub(crate) mod found;
pub(crate) mod text;

ghost use Rattle.std.specs.Prelude.{◌≡◌, IfErr, IfOk, OnOk};
ghost use Rattle.f11_commands.specs.Output.{WriterTakes};
ghost use Rattle.f11_commands.specs.RtAny.{done_so};
ghost use Rattle.f11_commands.specs.RtFound.{found_bad, found_device, found_entry, found_state};
ghost use Rattle.f11_commands.specs.RtGet.{EndsFinding, EndsGet, FindsEntry, taken_line, taken_text};

use crate::outcome::{Failure, FileAnswer};
use crate::rt_any::{RtServed, read_volume, served, write_replaced};
use crate::rt_area::{AreaStop, ShownBreak, first_past, write_area};
use crate::rt_get::found::FoundRtFile;
use crate::telling::tell;
use f11_dev::Device;
use f11_flx::FlxRefusal;
use rt11_volume::{RtEntry, RtName, RtRefusal, RtState};
use std::alloc::Global;
use std::io::{self, Write};

/// Finds the file of a name on the RT-11 volume of a device, by the first entry with that name whose area a directory may give away. It
/// serves any volume whose directory has the size that it should have, faulty or not: the entries of each segment that the links lead to
/// and whose extra bytes are right. The table of bad blocks is read, too. Nothing is written to the device.
///
/// Where there is none it writes the line `no NoSuchFile`, and where the directory can't be read the lines of `rt-vfy`; then the device
/// comes back, with the command's answer. Where the file is found it writes nothing.
///
/// # Errors
///
/// In the answer [`Failure::DeviceFault`] where a transfer failed, [`Failure::NoMemory`] where there was no memory, and
/// [`Failure::CannotWrite`] where the writer takes no more.
pub fn find_rt_file<D: Device, W: Write>(
    alloc: Global,
    device: D,
    name: &RtName,
    writer: &mut W,
) -> Result<FoundRtFile<D>, (D, Result<RtServed, Failure>)>
    ensures found { IfOk result (λ file. FindsEntry name.now (found_entry file) (found_state file)
        (found_bad file) (D.disk device) (D.disk (found_device file))) }
    ensures unwritten { IfOk result (λ _. writer.new ≡ writer.old) }
    ensures ended { IfErr result (λ end. EndsFinding name.now end.1
        (D.disk device) (D.disk end.0) W.contents writer.old writer.new) }
{
    let mut device = device;
    match read_volume(alloc, &mut device, writer) {
        Ok((state, entries, bad)) => match entries.find(name) {
            Some(entry) => Ok(FoundRtFile {
                device,
                entry,
                state,
                bad,
            }),
            None => {
                let told = tell(Err(FlxRefusal::Rt(RtRefusal::NoSuchFile)), writer);
                Err((device, served(state, told)))
            }
        },
        Err(told) => Err((device, served(RtState::Faulty, told))),
    }
}

/// Writes the blocks of a file that was found to `host`, whole, as an RT-11 file is, zeros for those past the device's end; and then the line
/// `copied N`, N being how many they are, to `writer`, and behind it ` broke off at block V` where V, from 1, is the first that lies past the
/// end, and ` block N replaced` for each of them that the table of bad blocks has. The device comes back; nothing is written to it. No memory is taken.
///
/// # Errors
///
/// [`Failure::DeviceFault`] where a transfer failed: then `host` got a beginning of them. [`Failure::CannotWrite`] where `host` takes no
/// more, and then it isn't said what it got, and nothing is written to `writer`; or where `writer` takes no more, and `host` has all.
pub fn write_rt_file<D: Device, H: Write, W: Write>(
    file: FoundRtFile<D>,
    host: &mut H,
    writer: &mut W,
) -> (D, Result<RtServed, Failure>)
    ensures ends { EndsGet (found_entry file) (found_bad file) (found_state file) result.1
        (D.disk (found_device file)) (D.disk result.0)
        H.contents host.old host.new W.contents writer.old writer.new }
{
    let FoundRtFile {
        mut device,
        entry,
        state,
        bad,
    } = file;
    match write_area(&mut device, entry.first, entry.blocks, host) {
        Ok(()) => {
            let size = device.blocks();
            match tell_taken(&entry, bad.as_slice(), size, writer) {
                Ok(()) => (device, Ok(done(state))),
                Err(_) => (device, Err(Failure::CannotWrite)),
            }
        }
        Err(AreaStop::DeviceFault(_)) => (device, Err(Failure::DeviceFault)),
        Err(AreaStop::HostFull) => (device, Err(Failure::CannotWrite)),
    }
}

/// What is answered where all is done.
pub(crate) fn done(state: RtState) -> RtServed
    ensures { result ≡ done_so state }
{
    RtServed {
        answer: FileAnswer::Done,
        state,
    }
}

/// Writes the line of a file whose blocks were written, from a device of so many, on which these are bad.
fn tell_taken<W: Write>(entry: &RtEntry, bad: &[u16], size: u32, writer: &mut W) -> io::Result<()>
    ensures { OnOk result (WriterTakes W.contents writer.old writer.new
        (taken_line entry.now bad.now size)) }
{
    write_taken(entry, size, writer)?;
    write_replaced(writer, bad, entry.first, entry.blocks)?;
    writeln!(writer)
}

/// Writes that line but for its end.
fn write_taken<W: Write>(entry: &RtEntry, size: u32, writer: &mut W) -> io::Result<()>
    ensures { OnOk result (WriterTakes W.contents writer.old writer.new (taken_text entry.now size)) }
{
    let blocks = entry.blocks;
    let broken = ShownBreak(first_past(entry.first, blocks, size));
    write!(writer, "copied {blocks}{broken}")
}
