//! The command `put`.

ghost use Rattle.f11_serving.specs.vfy.Accepted.{device_of};
ghost use Rattle.f11_commands.specs.PutCommand.{EndsAccepted, EndsPutting, HoldFor, PutsBehindSlots, PutsByName, PutsInto, PutsNamed};
ghost use Rattle.f11_commands.specs.PutCommand.{TellsKeptFile, TellsPutting, hosts};
ghost use Rattle.f11_commands.specs.Stopping.{StopsInto, StopsPut, StopsPutting, WhereUnheld};

pub mod directories;
pub mod each;
pub mod puts;
mod slots;

use crate::finding::{MASTER_DIRECTORY, OPERATOR, dismount, find, first_lun, first_task};
use crate::outcome::{Failure, FileAnswer};
use crate::put::slots::{ask_for_slots, slots_before};
use crate::rt_put::{PutFailure, as_put};
use crate::sync::synced;
use crate::telling::tell;
use crate::verifying::accept_files;
use f11_dev::Device;
use f11_flx::{CopyMode, FlxRefusal};
use f11_host::{HostRefusal, copy_from_host, copy_text_from_host};
use f11_rad50::Name;
use f11_serving::f11_fcp::Volume;
use f11_serving::f11_files::OpenFault;
use f11_serving::f11_vfy::Accepted;
use f11_store::FileId;
use std::alloc::Global;
use std::io::{Read, Write};

/// Which file is made on a Files-11 volume.
#[derive(Clone, Copy, Debug)]
pub struct Putting {
    /// Under which name the master file directory has the directory that it gets to stand in.
    pub directory: Name,
    /// Its name there.
    pub name: Name,
    /// As it is, or as a text's records.
    pub mode: CopyMode,
    /// How many blocks it takes at most: by them the index file gets slots first, where too few headers are free. Over 26,112, which no file
    /// has, none are asked for.
    pub blocks: u64,
}

/// Verifies the Files-11 volume on a device, and makes a file of so many bytes that `host` gives, as
/// [`copy_from_host`](f11_host::copy_from_host) does, or in mode `Text` as [`copy_text_from_host`](f11_host::copy_text_from_host): then
/// `host` is walked over first, and `again` is a second reader of the same file, of which mode `Image` reads nothing. Then the device is
/// synced. It writes the line `copied N`, N being how many blocks the file has, or `no` and the refusal's name; where the volume has faults
/// nothing is read of either, and it writes the lines of `vfy`. The device comes back.
///
/// The directory is the one that file 4,4 has under that name. The operator, [1,1], asks; the file has the protection 0. Where fewer headers
/// are free than the file may take, the index file gets slots first, by one `GrowIndex`: as many as lack, and 16 at least. These stay. It
/// isn't asked for where not more blocks are free than it and the file take, and where it is refused, other than by a device fault or
/// `Damaged`, the file is tried all the same.
///
/// # Errors
///
/// [`PutFailure::Unread`] where `host` or `again` couldn't be read to that length, or another text came of `again`, and what was made was
/// deleted again; else of [`PutFailure::Command`] [`Failure::DeviceFault`] where a transfer failed: then the file may stand, with its end
/// where it is whole and without one before, entered or not; or the sync, when it is whole; [`Failure::NoMemory`] where there was no memory;
/// and [`Failure::CannotWrite`] where the writer takes no more: then the file may be made.
pub fn print_put<D: Device, R: Read, W: Write>(
    alloc: Global,
    device: D,
    put: &Putting,
    host: &mut R,
    again: &mut R,
    bytes: u64,
    writer: &mut W,
) -> (D, Result<FileAnswer, PutFailure>)
    ensures ends { EndsPutting put.now bytes result.1
        (hosts (R.remaining host.old) (R.remaining again.old))
        (hosts (R.remaining host.new) (R.remaining again.new)) (D.disk device) (D.disk result.0)
        W.contents writer.old writer.new }
{
    match accept_files(alloc, device, writer) {
        Ok(accepted) => put_accepted(alloc, accepted, put, host, again, bytes, writer),
        Err((device, told)) => (device, as_put(told)),
    }
}

/// Mounts an accepted volume, makes the file, dismounts it, and tells that, once it is kept.
fn put_accepted<D: Device, R: Read, W: Write>(
    alloc: Global,
    accepted: Accepted<D>,
    put: &Putting,
    host: &mut R,
    again: &mut R,
    bytes: u64,
    writer: &mut W,
) -> (D, Result<FileAnswer, PutFailure>)
    ensures ends { EndsAccepted put.now bytes result.1
        (hosts (R.remaining host.old) (R.remaining again.old))
        (hosts (R.remaining host.new) (R.remaining again.new))
        (D.disk (device_of accepted)) (D.disk result.0) W.contents writer.old writer.new }
{
    match Volume::mount(alloc, accepted) {
        Ok(mut volume) => {
            let made = put_by_name(&mut volume, put, host, again, bytes);
            tell_kept(made, dismount(volume), writer)
        }
        Err(OpenFault::DeviceFault(device) | OpenFault::Damaged(device)) => {
            (device, Err(PutFailure::Command(Failure::DeviceFault)))
        }
        Err(OpenFault::NoMemory(accepted)) => {
            (
                accepted.device(),
                Err(PutFailure::Command(Failure::NoMemory)),
            )
        }
    }
}

/// Tells what came of it, and where the file was made syncs the device before.
fn tell_kept<D: Device, W: Write>(
    made: Result<u32, HostRefusal>,
    device: D,
    writer: &mut W,
) -> (D, Result<FileAnswer, PutFailure>)
    ensures tells { TellsKeptFile made result.1 (D.disk device) (D.disk result.0) W.contents
        writer.old writer.new }
{
    match made {
        Ok(blocks) => match synced(device) {
            Ok(device) => (device, tell_put(Ok(blocks), writer)),
            Err(device) => (device, Err(PutFailure::Command(Failure::DeviceFault))),
        },
        Err(refusal) => (device, tell_put(Err(refusal), writer)),
    }
}

/// Finds the directory, and makes a file in it: how many blocks it has.
fn put_by_name<D: Device, R: Read>(
    volume: &mut Volume<D>,
    put: &Putting,
    host: &mut R,
    again: &mut R,
    bytes: u64,
) -> Result<u32, HostRefusal>
    ensures puts { PutsNamed put.now.mode bytes result
        (hosts (R.remaining host.old) (R.remaining again.old))
        (hosts (R.remaining host.new) (R.remaining again.new))
        (PutsByName put.now bytes result (hosts (R.remaining host.old) (R.remaining again.old))
        (hosts (R.remaining host.new) (R.remaining again.new)))
        (WhereUnheld (StopsPut put.now (HoldFor put.now.mode bytes
        (hosts (R.remaining host.old) (R.remaining again.old))
        (hosts (R.remaining host.new) (R.remaining again.new))))) volume.old volume.new }
{
    let dir = find(volume, MASTER_DIRECTORY, &put.directory).map_err(HostRefusal::Files)?;
    put_into(volume, dir, put, host, again, bytes)
}

/// Asks for the slots that the file may need, and makes it in a directory.
fn put_into<D: Device, R: Read>(
    volume: &mut Volume<D>,
    dir: FileId,
    put: &Putting,
    host: &mut R,
    again: &mut R,
    bytes: u64,
) -> Result<u32, HostRefusal>
    ensures puts { PutsNamed put.now.mode bytes result
        (hosts (R.remaining host.old) (R.remaining again.old))
        (hosts (R.remaining host.new) (R.remaining again.new))
        (PutsBehindSlots put.now bytes dir result (hosts (R.remaining host.old) (R.remaining again.old))
        (hosts (R.remaining host.new) (R.remaining again.new)))
        (WhereUnheld (StopsInto put.now (HoldFor put.now.mode bytes
        (hosts (R.remaining host.old) (R.remaining again.old))
        (hosts (R.remaining host.new) (R.remaining again.new))) dir)) volume.old volume.new }
{
    let slots = slots_before(volume, put.blocks);
    ask_for_slots(volume, slots).map_err(HostRefusal::Files)?;
    make_file(volume, dir, put, host, again, bytes)
}

/// Makes the file, and enters it into a directory.
fn make_file<D: Device, R: Read>(
    volume: &mut Volume<D>,
    dir: FileId,
    put: &Putting,
    host: &mut R,
    again: &mut R,
    bytes: u64,
) -> Result<u32, HostRefusal>
    ensures puts { PutsNamed put.now.mode bytes result
        (hosts (R.remaining host.old) (R.remaining again.old))
        (hosts (R.remaining host.new) (R.remaining again.new))
        (PutsInto put.now bytes dir result (hosts (R.remaining host.old) (R.remaining again.old))
        (hosts (R.remaining host.new) (R.remaining again.new)))
        (WhereUnheld (StopsPutting dir put.now.name (HoldFor put.now.mode bytes
        (hosts (R.remaining host.old) (R.remaining again.old))
        (hosts (R.remaining host.new) (R.remaining again.new))))) volume.old volume.new }
{
    let task = first_task();
    let lun = first_lun();
    let name = &put.name;
    match put.mode {
        CopyMode::Image => copy_from_host(host, bytes, volume, task, lun, OPERATOR, dir, name, 0),
        CopyMode::Text => {
            copy_text_from_host(
                host, again, bytes, volume, task, lun, OPERATOR, dir, name, 0,
            )
        }
    }
}

/// Writes the line of what came of it, if it has one.
fn tell_put<W: Write>(
    made: Result<u32, HostRefusal>,
    writer: &mut W,
) -> Result<FileAnswer, PutFailure>
    ensures tells { TellsPutting made result W.contents writer.old writer.new }
{
    match made {
        Ok(blocks) => as_put(tell(Ok(blocks), writer)),
        Err(HostRefusal::Files(refusal)) => as_put(tell(Err(FlxRefusal::Files(refusal)), writer)),
        Err(HostRefusal::Unread) => Err(PutFailure::Unread),
        Err(HostRefusal::LineTooLong) => as_put(tell(Err(FlxRefusal::LineTooLong), writer)),
    }
}
