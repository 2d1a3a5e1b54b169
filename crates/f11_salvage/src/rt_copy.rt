//! The command `rt-copy`: all files of an RT-11 volume, copied to another.
ghost use Rattle.std.specs.Prelude.{◌≡◌, IfErr, OnOk};
ghost use Rattle.f11_commands.specs.RtSqueeze.{look_failure};
ghost use Rattle.f11_salvage.specs.RtCopy.{EndsCopied, EndsFresh, EndsOnto, TellsCopies, TellsRefused, told_by};
ghost use Rattle.f11_salvage.specs.RtPack.{boots, device_of, entries_of, state_of};

use crate::rt_lines::{copy_answer, write_copies};
use crate::rt_pack::{RtPack, served};
use f11_commands::{
    Answer, Failure, FileAnswer, RtServed, System, accept_rt, print_rt_vfy, refuse_init, synced,
};
use f11_dev::Device;
use rt11_copy::{RtCopied, copy_all};
use rt11_volume::{RtEntry, RtInitError, RtRefusal, init};
use std::alloc::Global;
use std::io::Write;

/// As which failure it is told that copying ended early.
fn failure_of(refusal: RtRefusal) -> Failure
    ensures { result ≡ look_failure refusal }
{
    match refusal {
        RtRefusal::DeviceFault => Failure::DeviceFault,
        _ => Failure::NoMemory,
    }
}

/// What is answered where the files became these, and verifying the volume ended so.
fn told_by(outcomes: &[RtCopied], verdict: Result<Answer, Failure>) -> Result<FileAnswer, Failure>
    ensures { result ≡ told_by outcomes.now verdict }
{
    match verdict {
        Ok(Answer::Done) => Ok(copy_answer(outcomes)),
        Ok(Answer::Fault) => Ok(FileAnswer::Faulty(System::Rt11)),
        Err(failure) => Err(failure),
    }
}

/// Writes what became of the files, and then verifies the volume.
fn tell_copies<E: Device, W: Write>(
    alloc: Global,
    device: E,
    entries: &[RtEntry],
    boots: bool,
    outcomes: &[RtCopied],
    writer: &mut W,
) -> (E, Result<FileAnswer, Failure>)
    ensures tells { TellsCopies entries.now boots outcomes.now result.1
        (E.disk device) (E.disk result.0) W.contents writer.old writer.new }
{
    match write_copies(writer, entries, boots, outcomes) {
        Ok(()) => {}
        Err(_) => return (device, Err(Failure::CannotWrite)),
    }
    let (device, verdict) = print_rt_vfy(alloc, device, writer);
    (device, told_by(outcomes, verdict))
}

/// Syncs the device, and tells what became of the files; where copying them ended early it tells as which failure, and no more.
fn end_copy<E: Device, W: Write>(
    alloc: Global,
    device: E,
    entries: &[RtEntry],
    boots: bool,
    copied: Result<Vec<RtCopied>, RtRefusal>,
    writer: &mut W,
) -> (E, Result<FileAnswer, Failure>)
    ensures ends { EndsCopied entries.now boots copied result.1
        (E.disk device) (E.disk result.0) W.contents writer.old writer.new }
{
    match copied {
        Ok(outcomes) => match synced(device) {
            Ok(device) => tell_copies(alloc, device, entries, boots, &outcomes, writer),
            Err(device) => (device, Err(Failure::DeviceFault)),
        },
        Err(refusal) => (device, Err(failure_of(refusal))),
    }
}

/// Writes that no fresh volume can be made, and how the command ends then.
fn refuse_fresh<W: Write>(writer: &mut W) -> Result<FileAnswer, Failure>
    ensures { TellsRefused result W.contents writer.old writer.new }
{
    match refuse_init(writer) {
        Ok(_) => Ok(FileAnswer::Refused),
        Err(failure) => Err(failure),
    }
}

impl<D: Device> RtPack<D> {
    /// Verifies the RT-11 volume on another device, copies all files to it, each to the front of the first empty area that is as long, and
    /// syncs it (RT-11 System User's Guide, COPY). Both devices come back, and what the command answers: that all is done where each file
    /// was copied. Nothing is written to the pack.
    ///
    /// A file has the name, length, date and protection that its entry says, and the blocks of its area. Its line is `NAME.TYP copied N`
    /// with its number of blocks, or `NAME.TYP not copied` and why; an entry without a name is called by its segment and its number in
    /// it, `S,E`. Then it writes `boot block not copied`, where the pack has something in that, `all N copied, K not copied`, and the lines
    /// of `rt-vfy` on the volume that was copied to.
    ///
    /// At each moment the blocks of each file that there was stand on the volume. Where it has faults the lines of `rt-vfy` are written, and
    /// no file is copied.
    ///
    /// # Errors
    ///
    /// In the answer: [`Failure::DeviceFault`] where a transfer to the volume failed, or its sync; [`Failure::NoMemory`] where there was no
    /// memory, and [`Failure::CannotWrite`] where the writer takes no more. With each of them files may be copied already.
    pub fn copy_onto<E: Device, W: Write>(
        self,
        alloc: Global,
        new: E,
        writer: &mut W,
    ) -> (D, E, Result<RtServed, Failure>)
        ensures ends { EndsOnto self D.disk W.contents result.2
            (D.disk result.0) (E.disk new) (E.disk result.1) writer.old writer.new }
    {
        let RtPack {
            device,
            state,
            entries,
            head,
        } = self;
        let mut device = device;
        let mut volume = match accept_rt(alloc, new, writer) {
            Ok(volume) => volume,
            Err((new, told)) => return (device, new, served(state, told)),
        };
        let copied = copy_all(alloc, &mut device, entries.as_slice(), &mut volume);
        let (new, told) = end_copy(
            alloc,
            volume.device(),
            entries.as_slice(),
            head.boots,
            copied,
            writer,
        );
        (device, new, served(state, told))
    }

    /// Makes a fresh RT-11 volume with so many segments on another device, and copies all files to it, as [`RtPack::copy_onto`] does. Where
    /// none can be made with these it writes `no BadParameter`.
    ///
    /// # Errors
    ///
    /// As of [`RtPack::copy_onto`].
    pub fn copy<E: Device, W: Write>(
        self,
        alloc: Global,
        new: E,
        segments: u16,
        writer: &mut W,
    ) -> (D, E, Result<RtServed, Failure>)
        ensures ends { EndsFresh self D.disk W.contents segments result.2
            (D.disk result.0) (E.disk new) (E.disk result.1) writer.old writer.new }
    {
        match init(new, segments) {
            Ok(made) => self.copy_onto(alloc, made.device(), writer),
            Err(RtInitError::BadParameter(new)) => {
                let RtPack { device, state, .. } = self;
                (device, new, served(state, refuse_fresh(writer)))
            }
            Err(RtInitError::DeviceFault(new)) => {
                let RtPack { device, .. } = self;
                (device, new, Err(Failure::DeviceFault))
            }
        }
    }
}
