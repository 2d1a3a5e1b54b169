//! The command `put --each`: files of the host that are made on a volume, one after another.
ghost use Rattle.std.specs.Prelude.{◌≡◌, IfErr, IfOk, OnOk};
ghost use Rattle.f11_commands.specs.Output.{WriterTakes};
ghost use Rattle.f11_commands.specs.PutEach.{BeginsPuts, EndsBefore, TellsOne, ending, one_line, refusal_of};
ghost use Rattle.f11_commands.specs.PuttingCounts.{CountsOne};

use crate::finding::dismount;
use crate::outcome::{Failure, FileAnswer};
use crate::put::puts::Puts;
use crate::put::{Putting, put_by_name};
use crate::put_counts::{PutCounts, Unput, tell_counts};
use crate::sync::{given_back, synced};
use crate::verifying::{Ended, accept_files};
use f11_dev::Device;
use f11_flx::FlxRefusal;
use f11_host::HostRefusal;
use f11_rad50::Name;
use f11_serving::f11_fcp::{Failed, Volume};
use f11_serving::f11_files::OpenFault;
use f11_store::Refusal;
use std::alloc::Global;
use std::io::{self, Read, Write};

/// Verifies the Files-11 volume on a device, and mounts it, so that files are made on it. Where it has faults it writes the lines of `vfy`.
///
/// # Errors
///
/// The device, and how the command ends, with nothing done: [`FileAnswer::Faulty`] where the volume has faults; [`Failure::DeviceFault`]
/// where a transfer failed, [`Failure::NoMemory`] where there was no memory, and [`Failure::CannotWrite`] where the writer takes no more.
pub fn begin_puts<D: Device, W: Write>(
    alloc: Global,
    device: D,
    writer: &mut W,
) -> Result<Puts<D>, Ended<D>>
    ensures begins { IfOk result (λ puts. BeginsPuts (D.disk device) puts writer.old writer.new) }
    ensures ended { IfErr result (λ end. EndsBefore end.1 (D.disk device) (D.disk end.0)
        W.contents writer.old writer.new) }
{
    let accepted = match accept_files(alloc, device, writer) {
        Ok(accepted) => accepted,
        Err(ended) => return Err(ended),
    };
    match Volume::mount(alloc, accepted) {
        Ok(volume) => {
            let counts = PutCounts::none();
            Ok(Puts { volume, counts })
        }
        Err(OpenFault::DeviceFault(device) | OpenFault::Damaged(device)) => {
            Err((device, Err(Failure::DeviceFault)))
        }
        Err(OpenFault::NoMemory(accepted)) => { Err((accepted.device(), Err(Failure::NoMemory))) }
    }
}

/// As which failure it is told behind which no other file is made; `None` where the others are.
pub(crate) fn ending(made: &Result<u32, HostRefusal>) -> Option<Failure>
    ensures { result ≡ ending made.now }
{
    match made {
        Err(HostRefusal::Files(refusal)) => match refusal {
            Refusal::DeviceFault => Some(Failure::DeviceFault),
            Refusal::Damaged => Some(Failure::DeviceFault),
            Refusal::NoMemory => Some(Failure::NoMemory),
            _ => None,
        },
        _ => None,
    }
}

/// As which refusal of a copy one is told.
pub(crate) fn refusal_of(refusal: HostRefusal) -> FlxRefusal
    ensures { result ≡ refusal_of refusal }
{
    match refusal {
        HostRefusal::Files(refusal) => FlxRefusal::Files(refusal),
        HostRefusal::Unread => FlxRefusal::Unread,
        HostRefusal::LineTooLong => FlxRefusal::LineTooLong,
    }
}

/// Writes the line of a file, of what came of it.
fn write_one<W: Write>(
    writer: &mut W,
    name: &Name,
    made: Result<u32, HostRefusal>,
) -> io::Result<()>
    ensures { OnOk result (WriterTakes W.contents writer.old writer.new (one_line name.now made)) }
{
    match made {
        Ok(blocks) => writeln!(writer, "{name} copied {blocks}"),
        Err(refusal) => {
            let refusal = refusal_of(refusal);
            writeln!(writer, "{name} no {refusal}")
        }
    }
}

/// Counts a file, and writes its line, of what came of it; but of one that ends the others nothing.
fn tell_one<W: Write>(
    name: &Name,
    made: Result<u32, HostRefusal>,
    counts: &mut PutCounts,
    writer: &mut W,
) -> Result<FileAnswer, Failure>
    ensures tells { TellsOne name.now made result counts.old counts.new
        W.contents writer.old writer.new }
    ensures counts { OnOk result (CountsOne counts.old counts.new) }
{
    let answer = counts.count(ending(&made), made.is_ok())?;
    write_one(writer, name, made)?;
    Ok(answer)
}

impl<D: Device> Puts<D> {
    ghost use Rattle.f11_commands.specs.PutCommand.{hosts};
    ghost use Rattle.f11_commands.specs.PutEach.{EndsPuts, KeepsBroken, LeavesOut, PutsOne, counts_of};
    ghost use Rattle.f11_commands.specs.PuttingCounts.{CountsOne, has_refused};

    /// Makes a file of so many bytes that `host` gives, as [`print_put`](crate::print_put) does, and writes its line: `NAME.TYP;V copied N`, N
    /// being how many blocks the file has, or `NAME.TYP;V no` and the refusal's name, `Unread` where `host` or `again` couldn't be read to that
    /// length, or another text came of `again`. It is counted, and answers [`FileAnswer::Done`] or [`FileAnswer::Refused`].
    ///
    /// # Errors
    ///
    /// Behind which no other file is to be made: [`Failure::DeviceFault`] where a transfer failed, or, where the device isn't honest, a
    /// structure was met broken; [`Failure::NoMemory`] where there was no memory; then nothing is written. [`Failure::CannotWrite`] where the
    /// writer takes no more: then the file may be made.
    pub fn put<R: Read, W: Write>(
        &mut self,
        put: &Putting,
        host: &mut R,
        again: &mut R,
        bytes: u64,
        writer: &mut W,
    ) -> Result<FileAnswer, Failure>
        ensures puts { PutsOne put.now bytes result
            (hosts (R.remaining host.old) (R.remaining again.old))
            (hosts (R.remaining host.new) (R.remaining again.new))
            self.old self.new W.contents writer.old writer.new }
        ensures counts { OnOk result (CountsOne (counts_of self.old) (counts_of self.new)) }
    {
        let made = put_by_name(&mut self.volume, put, host, again, bytes);
        tell_one(&put.name, made, &mut self.counts, writer)
    }

    /// Writes the line of a file of the host for which nothing is asked of the volume, `HOST no` and why, and counts it as one that isn't made.
    ///
    /// # Errors
    ///
    /// [`Failure::CannotWrite`] where the writer takes no more.
    pub fn leave_out<W: Write>(
        &mut self,
        host: &str,
        why: Unput,
        writer: &mut W,
    ) -> Result<(), Failure>
        ensures leaves { LeavesOut host.now why result self.old self.new
            W.contents writer.old writer.new }
        ensures counts { CountsOne (counts_of self.old) (counts_of self.new) }
    {
        self.counts.leave_out(host, why, writer)
    }

    /// Whether one of the files wasn't made.
    pub fn has_refused(&self) -> bool
        ensures { result ≡ has_refused (counts_of self.now) }
    {
        self.counts.has_refused()
    }

    /// Gives the volume up, syncs its device, and writes the last line: `all N copied, K not copied`. It answers [`FileAnswer::Refused`] where
    /// one wasn't. The device comes back.
    ///
    /// # Errors
    ///
    /// [`Failure::DeviceFault`] where the sync failed, and [`Failure::CannotWrite`] where the writer takes no more.
    pub fn end<W: Write>(self, writer: &mut W) -> (D, Result<FileAnswer, Failure>)
        ensures ends { EndsPuts self result.1 (D.disk result.0) W.contents writer.old writer.new }
    {
        let Puts { volume, counts } = self;
        match synced(dismount(volume)) {
            Ok(device) => (device, tell_counts(counts, writer)),
            Err(device) => (device, Err(Failure::DeviceFault)),
        }
    }

    /// Gives the volume up where the files broke off by a failure, and syncs its device, unless a request has failed the volume or the failure is
    /// [`Failure::DeviceFault`]: nothing is transferred then. The device comes back, and how the command ends: by that failure, or
    /// [`Failure::DeviceFault`] where the sync failed.
    pub fn break_off(self, failure: Failure) -> (D, Failure)
        ensures keeps { KeepsBroken failure self result.1 (D.disk result.0) }
    {
        match self.volume.dismount() {
            Ok(accepted) => given_back(false, accepted.device(), failure),
            Err(Failed(device)) => given_back(true, device, failure),
        }
    }
}
