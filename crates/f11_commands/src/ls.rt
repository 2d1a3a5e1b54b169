//! The command `ls`.
ghost use Rattle.std.specs.Prelude.{◌≡◌, IfErr, IfOk, OnOk, length};
ghost use Rattle.f11_catalog.specs.Listing.{BreaksOff};
ghost use Rattle.f11_index.specs.Kept.{index_kept, IndexLiesWithin};
ghost use Rattle.f11_commands.specs.AnyVolume.{FailsToServe};
ghost use Rattle.f11_commands.specs.LsCommand.{FailsToListIndex, IsNotListed, ListsIndex, ListsVolume, PrintsListing, WritesListing, listed, one_listed};

use crate::finding::MASTER_DIRECTORY;
use crate::outcome::{Answer, Failure};
use crate::volume::read_index;
use f11_catalog::{LineForm, ListFault, find, list_directories, list_directory};
use f11_dev::{Device, DeviceFault};
use f11_index::IndexFile;
use f11_rad50::Name;
use f11_serving::f11_vfy::{VfyError, is_faulty};
use f11_store::Refusal;
use std::alloc::Global;
use std::io::Write;

/// What a command that serves any volume answers.
#[derive(Clone, Copy, Debug, PartialEq, Eq)]
pub struct Served {
    /// How its work ended.
    pub answer: Answer,
    /// Whether the volume has faults, which `vfy` tells.
    pub faulty: bool,
}

/// Lists the directory that the master file directory has under a name, or without one each that it names, under `[g,m]`, or `[NAME]`
/// where its name is no user's: a line for each record, in their order. It serves any volume whose home block and index file can be
/// read, faulty or not, and writes nothing to it.
///
/// A record's line is `file NAME.TYP;V N,S blocks B bytes E owner [g,m] prot W`, and behind it ` contiguous`, ` marked` or ` open` where
/// the file is that, and ` out of use` where the bit of its slot is 0, with the blocks that are reached from its first header; or `entry NAME.TYP;V N,S no file` where it names none; `?` stands for
/// a name that is none. A long line has the protection as `[RWED,RWED,RWED,R]`, and behind it, where the file's header says them, ` created DATE`,
/// ` revised DATE`, ` times N`, ` expires DATE`, with `?` for bytes that are no date, and how its records are kept: ` fixed SIZE`, ` variable SIZE`,
/// ` sequenced SIZE` or ` records SIZE`, and ` fortran`, ` carriage`, ` print`, ` unspanned`. Where a directory can't be listed the line is `no NoSuchFile`, `no NotDirectory` or `no NoSuchEntry`, and where the
/// volume can't be read that of its fault, F1 or F2; then the answer is [`Answer::Fault`].
///
/// # Errors
///
/// [`Failure::DeviceFault`] where a transfer failed, [`Failure::NoMemory`] where there was no memory, and
/// [`Failure::CannotWrite`] where the writer takes no more: then it may hold a part of the lines.
pub fn print_ls<D: Device, W: Write>(
    alloc: Global,
    device: D,
    writer: &mut W,
    form: LineForm,
    directory: Option<Name>,
) -> (D, Result<Served, Failure>)
    ensures lists { IfOk result.1 (λ served. PrintsListing form directory served
        (D.disk device) (D.disk result.0) W.contents writer.old writer.new) }
    ensures failed { IfErr result.1 (λ failure. FailsToServe failure
        (D.disk device) (D.disk result.0) W.contents writer.old writer.new) }
{
    match is_faulty(alloc, device) {
        Ok((device, faulty)) => list(alloc, device, faulty, writer, form, directory),
        Err(VfyError::DeviceFault(device)) => (device, Err(Failure::DeviceFault)),
        Err(VfyError::NoMemory(device)) => (device, Err(Failure::NoMemory)),
    }
}

/// Lists what is asked of a volume that has faults or hasn't.
fn list<D: Device, W: Write>(
    alloc: Global,
    device: D,
    faulty: bool,
    writer: &mut W,
    form: LineForm,
    directory: Option<Name>,
) -> (D, Result<Served, Failure>)
    ensures served { IfOk result.1 (λ served. (served.faulty ≡ faulty)
        × ListsVolume form directory served.answer
        (D.disk device) (D.disk result.0) W.contents writer.old writer.new) }
    ensures failed { IfErr result.1 (λ failure. FailsToServe failure
        (D.disk device) (D.disk result.0) W.contents writer.old writer.new) }
{
    let mut device = device;
    match list_volume(alloc, &mut device, writer, form, directory) {
        Ok(answer) => (device, Ok(Served { answer, faulty })),
        Err(failure) => (device, Err(failure)),
    }
}

/// Reads the index file, and lists what is asked.
fn list_volume<D: Device, W: Write>(
    alloc: Global,
    device: &mut D,
    writer: &mut W,
    form: LineForm,
    directory: Option<Name>,
) -> Result<Answer, Failure>
    ensures lists { IfOk result (λ answer. ListsVolume form directory answer
        (D.disk device.old) (D.disk device.new) W.contents writer.old writer.new) }
    ensures failed { IfErr result (λ failure. FailsToServe failure
        (D.disk device.old) (D.disk device.new) W.contents writer.old writer.new) }
{
    match read_index(alloc, device)? {
        Ok((_, index)) => {
            let wide = index.with_all_in_use(alloc)?;
            list_index(device, &index, &wide, writer, form, directory)
        }
        Err(fault) => {
            writeln!(writer, "fault {fault}")?;
            Ok(Answer::Fault)
        }
    }
}

/// Lists what is asked of the files that an index file has, or says why it can't.
fn list_index<D: Device, W: Write>(
    device: &mut D,
    index: &IndexFile,
    wide: &IndexFile,
    writer: &mut W,
    form: LineForm,
    directory: Option<Name>,
) -> Result<Answer, Failure>
    requires within { IndexLiesWithin (index_kept index.now) (length (D.disk device.old).image) }
    requires wide { IndexLiesWithin (index_kept wide.now) (length (D.disk device.old).image) }
    ensures lists { IfOk result (λ answer.
        ListsIndex form (index_kept index.now) (index_kept wide.now) directory answer
        (D.disk device.old) (D.disk device.new) W.contents writer.old writer.new) }
    ensures failed { IfErr result (λ failure. FailsToListIndex failure
        (D.disk device.old) (D.disk device.new)) }
{
    match list_asked(device, index, wide, writer, form, directory) {
        Ok(Ok(())) => Ok(Answer::Done),
        Ok(Err(refusal)) => {
            writeln!(writer, "no {refusal}")?;
            Ok(Answer::Fault)
        }
        Err(ListFault::DeviceFault) => Err(Failure::DeviceFault),
        Err(ListFault::CannotWrite) => Err(Failure::CannotWrite),
    }
}

/// Lists one directory, or all.
fn list_asked<D: Device, W: Write>(
    device: &mut D,
    index: &IndexFile,
    wide: &IndexFile,
    writer: &mut W,
    form: LineForm,
    directory: Option<Name>,
) -> Result<Result<(), Refusal>, ListFault>
    requires within { IndexLiesWithin (index_kept index.now) (length (D.disk device.old).image) }
    requires wide { IndexLiesWithin (index_kept wide.now) (length (D.disk device.old).image) }
    ensures lists { IfOk result (λ answer. OnOk answer
        (WritesListing (λ image t. listed form (index_kept wide.now) image t directory)
        (index_kept index.now) (D.disk device.old) (D.disk device.new)
        W.contents writer.old writer.new)) }
    ensures refused { IfOk result (λ answer. IfErr answer (λ refusal. (writer.new ≡ writer.old)
        × IsNotListed (λ image t. listed form (index_kept wide.now) image t directory)
        (index_kept index.now) refusal
        (D.disk device.old) (D.disk device.new))) }
    ensures failed { IfErr result (λ fault. BreaksOff fault (D.disk device.old) (D.disk device.new)) }
{
    match directory {
        Some(directory) => list_one(device, index, wide, writer, form, &directory),
        None => list_directories(device, index, wide, writer, form, MASTER_DIRECTORY),
    }
}

/// Lists the directory that the master file directory has under a name.
fn list_one<D: Device, W: Write>(
    device: &mut D,
    index: &IndexFile,
    wide: &IndexFile,
    writer: &mut W,
    form: LineForm,
    name: &Name,
) -> Result<Result<(), Refusal>, ListFault>
    requires within { IndexLiesWithin (index_kept index.now) (length (D.disk device.old).image) }
    requires wide { IndexLiesWithin (index_kept wide.now) (length (D.disk device.old).image) }
    ensures lists { IfOk result (λ answer. OnOk answer
        (WritesListing (λ image t. one_listed form (index_kept wide.now) image t name.now)
        (index_kept index.now) (D.disk device.old) (D.disk device.new)
        W.contents writer.old writer.new)) }
    ensures refused { IfOk result (λ answer. IfErr answer (λ refusal. (writer.new ≡ writer.old)
        × IsNotListed (λ image t. one_listed form (index_kept wide.now) image t name.now)
        (index_kept index.now) refusal
        (D.disk device.old) (D.disk device.new))) }
    ensures failed { IfErr result (λ fault. BreaksOff fault (D.disk device.old) (D.disk device.new)) }
{
    match find(device, index, wide, MASTER_DIRECTORY, name) {
        Ok(Ok(id)) => list_directory(device, index, wide, writer, form, id),
        Ok(Err(refusal)) => Ok(Err(refusal)),
        Err(DeviceFault) => Err(ListFault::DeviceFault),
    }
}
