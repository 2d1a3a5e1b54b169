//! The command `vfy --update`.
ghost use Rattle.std.specs.Prelude.{◌≡◌, [], false, IsTrue, OnOk};
ghost use Rattle.f11_commands.specs.Output.{WriterTakes};
ghost use Rattle.f11_commands.specs.UpdateCommand.{EndsUpdate, EndsReclaiming, EndsAgain, tells_idle, updated_line};
ghost use Rattle.f11_serving.specs.vfy.Accepted.{device_of};
ghost use Rattle.f11_serving.specs.vfy.Reclaiming.Whole.{Reclaims};
ghost use Rattle.f11_serving.specs.vfy.Verify.{Verifies};

use crate::outcome::{Answer, Failure};
use crate::report::{System, write_accepted, write_faulty};
use crate::sync::synced;
use crate::vfy::print_vfy;
use f11_dev::Device;
use f11_findings::Findings;
use f11_serving::f11_vfy::{Accepted, Report, VfyError, laws, reclaim, verify};
use std::alloc::Global;
use std::io::{self, Write};

/// Verifies the image of a device, and writes the lines of `vfy`; where they end in `accepted`, it reclaims what lies idle on the volume, as
/// [`reclaim`] does, syncs the device, writes the line `updated`, and verifies the image again, with the lines of that. Where no lost block,
/// dead header or orphan was noted, the volume is reclaimed as it is: it is synced, but not read again, and the lines of the second report are
/// those of the first. The device comes back; to one whose image has a fault nothing is written.
///
/// It answers [`Answer::Fault`] where there is a fault, which there can't be the second time where the device is honest.
///
/// # Errors
///
/// [`Failure::DeviceFault`] where a transfer failed, or the sync, [`Failure::NoMemory`] where there was no memory, and
/// [`Failure::CannotWrite`] where the writer takes no more: then it may hold a part of the lines.
pub fn print_vfy_update<D: Device, W: Write>(
    alloc: Global,
    device: D,
    writer: &mut W,
) -> (D, Result<Answer, Failure>)
    ensures ends { EndsUpdate result.1 (D.disk device) (D.disk result.0) W.contents
        writer.old writer.new }
{
    match verify(alloc, device) {
        Ok(Report::Accepted(accepted, notes)) => match write_accepted(
            alloc,
            writer,
            System::Files11,
            &notes,
        ) {
            Ok(_) => print_updated(alloc, accepted, &notes, writer),
            Err(failure) => (accepted.device(), Err(failure)),
        },
        Ok(Report::Faulty(device, faults, notes)) => {
            (
                device,
                write_faulty(writer, System::Files11, &faults, &notes),
            )
        }
        Err(VfyError::DeviceFault(device)) => (device, Err(Failure::DeviceFault)),
        Err(VfyError::NoMemory(device)) => (device, Err(Failure::NoMemory)),
    }
}

/// Reclaims what lies idle on an accepted volume, by its notes, and tells of it. Where they tell of nothing that lies idle, the volume isn't
/// read again.
fn print_updated<D: Device, W: Write>(
    alloc: Global,
    accepted: Accepted<D>,
    notes: &Findings,
    writer: &mut W,
) -> (D, Result<Answer, Failure>)
    requires { IsTrue (D.disk (device_of accepted)).honest
        → Verifies (D.disk (device_of accepted)).image [] notes.now }
    ensures ends { EndsReclaiming result.1 (D.disk (device_of accepted)) (D.disk result.0)
        W.contents writer.old writer.new }
{
    if tells_idle(notes) {
        print_reclaimed(alloc, accepted, writer)
    } else {
        print_unchanged(alloc, accepted.device(), notes, writer)
    }
}

/// Whether notes tell of what reclaiming gives back, which is told by the first three codes: so the first note tells.
fn tells_idle(notes: &Findings) -> bool
    ensures { result ≡ tells_idle notes.now }
{
    match notes.get(0) {
        Some(first) => first.code <= 3,
        None => false,
    }
}

/// Syncs the device of a volume on which nothing lies idle by these notes, since what was reclaimed before may not be kept yet; and then
/// tells of it.
fn print_unchanged<D: Device, W: Write>(
    alloc: Global,
    device: D,
    notes: &Findings,
    writer: &mut W,
) -> (D, Result<Answer, Failure>)
    requires verified { IsTrue (D.disk device).honest
        → Verifies (D.disk device).image [] notes.now }
    requires none { tells_idle notes.now ≡ false }
    ensures ends { EndsReclaiming result.1 (D.disk device) (D.disk result.0)
        W.contents writer.old writer.new }
{
    laws::reclaiming();
    match synced(device) {
        Ok(device) => print_same(alloc, device, notes, writer),
        Err(device) => (device, Err(Failure::DeviceFault)),
    }
}

/// Writes `updated`, and once more the lines of a volume that has these notes, and is reclaimed as it is.
fn print_same<D: Device, W: Write>(
    alloc: Global,
    device: D,
    notes: &Findings,
    writer: &mut W,
) -> (D, Result<Answer, Failure>)
    requires verified { IsTrue (D.disk device).honest
        → Verifies (D.disk device).image [] notes.now }
    requires reclaimed { Reclaims (D.disk device) (D.disk device) }
    ensures ends { EndsReclaiming result.1 (D.disk device) (D.disk result.0)
        W.contents writer.old writer.new }
{
    match write_updated(writer) {
        Ok(()) => (
            device,
            write_accepted(alloc, writer, System::Files11, notes),
        ),
        Err(_) => (device, Err(Failure::CannotWrite)),
    }
}

/// Reclaims what lies idle on an accepted volume, and tells of it once it is kept.
fn print_reclaimed<D: Device, W: Write>(
    alloc: Global,
    accepted: Accepted<D>,
    writer: &mut W,
) -> (D, Result<Answer, Failure>)
    ensures ends { EndsReclaiming result.1 (D.disk (device_of accepted)) (D.disk result.0)
        W.contents writer.old writer.new }
{
    match reclaim(alloc, accepted) {
        Ok(accepted) => match synced(accepted.device()) {
            Ok(device) => print_again(alloc, device, writer),
            Err(device) => (device, Err(Failure::DeviceFault)),
        },
        Err(VfyError::DeviceFault(device)) => (device, Err(Failure::DeviceFault)),
        Err(VfyError::NoMemory(device)) => (device, Err(Failure::NoMemory)),
    }
}

/// Writes `updated`, and the lines of `vfy`.
fn print_again<D: Device, W: Write>(
    alloc: Global,
    device: D,
    writer: &mut W,
) -> (D, Result<Answer, Failure>)
    ensures ends { EndsAgain result.1 (D.disk device) (D.disk result.0) W.contents
        writer.old writer.new }
{
    match write_updated(writer) {
        Ok(()) => print_vfy(alloc, device, writer),
        Err(_) => (device, Err(Failure::CannotWrite)),
    }
}

/// Writes the line `updated`.
fn write_updated<W: Write>(writer: &mut W) -> io::Result<()>
    ensures { OnOk result (WriterTakes W.contents writer.old writer.new updated_line) }
{
    writeln!(writer, "updated")
}
