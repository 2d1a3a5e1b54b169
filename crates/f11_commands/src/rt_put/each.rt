//! The command `rt-put --each`: files of the host that are made on an RT-11 volume, one after another.
ghost use Rattle.std.specs.Prelude.{◌≡◌, IfErr, IfOk, OnOk};
ghost use Rattle.f11_commands.specs.CopyCommand.{EndsRt};
ghost use Rattle.f11_commands.specs.Output.{WriterTakes};
ghost use Rattle.f11_commands.specs.PuttingCounts.{CountsOne};
ghost use Rattle.f11_commands.specs.RtPut.{is_fault_of};
ghost use Rattle.f11_commands.specs.RtPutEach.{BeginsRtPuts, TellsOneRt, rt_ending, rt_line};

use crate::outcome::{Failure, FileAnswer};
use crate::put_counts::{PutCounts, Unput, tell_counts};
use crate::rt_file::{Stop, is_fault};
use crate::rt_put::put;
use crate::rt_put::puts::RtPuts;
use crate::sync::{given_back, synced};
use crate::verifying::{Ended, accept_rt};
use f11_dev::Device;
use rt11_volume::{RtName, RtRefusal};
use std::alloc::Global;
use std::io::{self, Read, Write};

/// Verifies the RT-11 volume on a device, so that files are made on it. Where it has faults it writes the lines of `rt-vfy`.
///
/// # Errors
///
/// The device, and how the command ends, with nothing done: [`FileAnswer::Faulty`] where the volume has faults; [`Failure::DeviceFault`]
/// where a transfer failed, [`Failure::NoMemory`] where there was no memory, and [`Failure::CannotWrite`] where the writer takes no more.
pub fn begin_rt_puts<D: Device, W: Write>(
    alloc: Global,
    device: D,
    writer: &mut W,
) -> Result<RtPuts<D>, Ended<D>>
    ensures begins { IfOk result (λ puts. BeginsRtPuts D.disk (D.disk device) puts
        writer.old writer.new) }
    ensures ended { IfErr result (λ end. EndsRt end.1 (D.disk device) (D.disk end.0)
        W.contents writer.old writer.new) }
{
    let volume = match accept_rt(alloc, device, writer) {
        Ok(volume) => volume,
        Err(ended) => return Err(ended),
    };
    Ok(RtPuts {
        volume,
        failed: false,
        counts: PutCounts::none(),
    })
}

/// As which failure it is told behind which no other file is made; `None` where the others are.
fn ending(made: &Result<u16, Stop>) -> Option<Failure>
    ensures { result ≡ rt_ending made.now }
{
    match made {
        Err(Stop::Volume(refusal)) => match refusal {
            RtRefusal::DeviceFault => Some(Failure::DeviceFault),
            RtRefusal::NoMemory => Some(Failure::NoMemory),
            _ => None,
        },
        _ => None,
    }
}

/// Whether a transfer failed.
fn is_fault_of(made: &Result<u16, Stop>) -> bool
    ensures { result ≡ is_fault_of made.now }
{
    match made {
        Err(Stop::Volume(refusal)) => is_fault(refusal),
        _ => false,
    }
}

/// Writes the line of a file, of what came of it.
fn write_one<W: Write>(writer: &mut W, name: &RtName, made: Result<u16, Stop>) -> io::Result<()>
    ensures { OnOk result (WriterTakes W.contents writer.old writer.new (rt_line name.now made)) }
{
    match made {
        Ok(blocks) => writeln!(writer, "{name} copied {blocks}"),
        Err(Stop::Volume(refusal)) => writeln!(writer, "{name} no {refusal}"),
        Err(Stop::Host) => writeln!(writer, "{name} no Unread"),
    }
}

/// Counts a file, and writes its line, of what came of it; but of one that ends the others nothing.
fn tell_one<W: Write>(
    name: &RtName,
    made: Result<u16, Stop>,
    counts: &mut PutCounts,
    writer: &mut W,
) -> Result<FileAnswer, Failure>
    ensures tells { TellsOneRt name.now made result counts.old counts.new
        W.contents writer.old writer.new }
    ensures counts { OnOk result (CountsOne counts.old counts.new) }
{
    let answer = counts.count(ending(&made), made.is_ok())?;
    write_one(writer, name, made)?;
    Ok(answer)
}

impl<D: Device> RtPuts<D> {
    ghost use Rattle.rt11_volume.specs.Calls.{has_failed};
    ghost use Rattle.f11_commands.specs.PuttingCounts.{CountsOne, has_refused};
    ghost use Rattle.f11_commands.specs.RtPutEach.{EndsRtPuts, KeepsBrokenRt, LeavesOutRt, PutsOneRt, counts_of};

    /// Makes a file of so many bytes that `host` gives, as [`print_rt_put`](crate::print_rt_put) does, and writes its line: `NAME.TYP copied N`,
    /// N being how many blocks the file has, or `NAME.TYP no` and the refusal's name, `Unread` where `host` couldn't be read to that length. It is
    /// counted, and answers [`FileAnswer::Done`] or [`FileAnswer::Refused`].
    ///
    /// # Errors
    ///
    /// Behind which no other file is to be made: [`Failure::DeviceFault`] where a transfer failed, or one had failed before, and
    /// [`Failure::NoMemory`] where there was no memory; then nothing is written. [`Failure::CannotWrite`] where the writer takes no more: then
    /// the file may be made.
    pub fn put<R: Read, W: Write>(
        &mut self,
        name: &RtName,
        host: &mut R,
        bytes: u64,
        writer: &mut W,
    ) -> Result<FileAnswer, Failure>
        ensures puts { PutsOneRt name.now bytes D.disk result (R.remaining host.old)
            (R.remaining host.new) self.old self.new W.contents writer.old writer.new }
        ensures counts { OnOk result (CountsOne (counts_of self.old) (counts_of self.new)) }
    {
        if self.failed {
            return Err(Failure::DeviceFault);
        }
        let made = put(&mut self.volume, name, bytes, host);
        self.failed = is_fault_of(&made);
        tell_one(name, made, &mut self.counts, writer)
    }

    /// Writes the line of a file of the host for which nothing is asked of the volume, `HOST no` and why, and counts it as one that isn't made.
    ///
    /// # Errors
    ///
    /// [`Failure::CannotWrite`] where the writer takes no more.
    pub fn leave_out<W: Write>(
        &mut self,
        host: &str,
        why: Unput,
        writer: &mut W,
    ) -> Result<(), Failure>
        ensures leaves { LeavesOutRt host.now why result self.old self.new
            W.contents writer.old writer.new }
        ensures counts { CountsOne (counts_of self.old) (counts_of self.new) }
    {
        self.counts.leave_out(host, why, writer)
    }

    /// Whether one of the files wasn't made.
    pub fn has_refused(&self) -> bool
        ensures { result ≡ has_refused (counts_of self.now) }
    {
        self.counts.has_refused()
    }

    /// Gives the volume up, syncs its device unless a transfer failed, and writes the last line: `all N copied, K not copied`. It answers
    /// [`FileAnswer::Refused`] where one wasn't. The device comes back.
    ///
    /// # Errors
    ///
    /// [`Failure::DeviceFault`] where a transfer failed, or the sync, and [`Failure::CannotWrite`] where the writer takes no more.
    pub fn end<W: Write>(self, writer: &mut W) -> (D, Result<FileAnswer, Failure>)
        ensures ends { EndsRtPuts D.disk self result.1 (D.disk result.0)
            W.contents writer.old writer.new }
    {
        let RtPuts {
            volume,
            failed,
            counts,
        } = self;
        let device = volume.device();
        if failed {
            return (device, Err(Failure::DeviceFault));
        }
        match synced(device) {
            Ok(device) => (device, tell_counts(counts, writer)),
            Err(device) => (device, Err(Failure::DeviceFault)),
        }
    }

    /// Gives the volume up where the files broke off by a failure, and syncs its device, unless a transfer has failed or the failure is
    /// [`Failure::DeviceFault`]: nothing is transferred then. The device comes back, and how the command ends: by that failure, or
    /// [`Failure::DeviceFault`] where the sync failed.
    pub fn break_off(self, failure: Failure) -> (D, Failure)
        ensures keeps { KeepsBrokenRt D.disk failure self result.1 (D.disk result.0) }
    {
        given_back(self.failed, self.volume.device(), failure)
    }
}
