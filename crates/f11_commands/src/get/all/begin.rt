//! The beginning of `get --all`.
ghost use Rattle.std.specs.Prelude.{◌≡◌, length, IfErr, IfOk};
ghost use Rattle.f11_catalog.specs.Walking.{IsWalking};
ghost use Rattle.f11_index.specs.Kept.{index_kept, IndexLiesWithin};
ghost use Rattle.f11_commands.specs.AllCommand.{BeginsAll, BeginsWithEnd, FailsToBeginAll, FailsWithEnd, counts_of, device_of, files_of, has_failed, has_faults, index_of, no_counts, size_of, wide_of};
ghost use Rattle.f11_commands.specs.AnyVolume.{IsVerified, TellsFault};

use crate::finding::MASTER_DIRECTORY;
use crate::get::all::counts::Counts;
use crate::get::all::state::TakingAll;
use crate::ls::Served;
use crate::outcome::{Answer, Failure};
use crate::size::volume_end;
use crate::volume::read_index;
use f11_catalog::{AllFiles, WalkFault};
use f11_dev::Device;
use f11_index::IndexFile;
use f11_serving::f11_vfy::{VfyError, is_faulty};
use std::alloc::Global;
use std::io::Write;

/// Verifies a volume and begins with all its files: what the directories name, a record at a time, in the order in which [`crate::print_ls`]
/// lists them, and behind them by their numbers the files that none of them names. It serves any volume whose home block and index file can
/// be read, faulty or not, and writes nothing to it.
///
/// Where the volume can't be read it writes the line of its fault, F1 or F2: then it gives the device back, and what the command answers.
/// Else it writes nothing. Where a transfer failed before all directories out of use were found that are to be gone over, it begins with
/// what was found, and the command ends with a device fault.
///
/// # Errors
///
/// [`Failure::DeviceFault`] where a transfer failed and [`Failure::NoMemory`] where there was no memory, with nothing written; and
/// [`Failure::CannotWrite`] where there is such a line and the writer takes no more. Each comes with the device.
pub fn begin_all<D: Device, W: Write>(
    alloc: Global,
    device: D,
    writer: &mut W,
) -> Result<TakingAll<D>, (D, Result<Served, Failure>)>
    ensures begins { IfOk result (λ all. (writer.new ≡ writer.old)
        × IsVerified (has_faults all) (D.disk device)
        × (counts_of all ≡ no_counts)
        × BeginsAll (index_of all) (wide_of all) (size_of all) (files_of all) (has_failed all)
        (D.disk device) (D.disk (device_of all))) }
    ensures told { IfErr result (λ told. IfOk told.1 (λ served.
        IsVerified served.faulty (D.disk device)
        × TellsFault served.answer
        (D.disk device) (D.disk told.0) W.contents writer.old writer.new)) }
    ensures failed { IfErr result (λ told. IfErr told.1 (λ failure.
        FailsToBeginAll failure (D.disk device) (D.disk told.0) writer.old writer.new)) }
{
    match is_faulty(alloc, device) {
        Ok((device, faulty)) => begin(alloc, device, faulty, writer),
        Err(VfyError::DeviceFault(device)) => Err((device, Err(Failure::DeviceFault))),
        Err(VfyError::NoMemory(device)) => Err((device, Err(Failure::NoMemory))),
    }
}

/// Begins with all files of a volume that has faults or hasn't.
fn begin<D: Device, W: Write>(
    alloc: Global,
    device: D,
    faulty: bool,
    writer: &mut W,
) -> Result<TakingAll<D>, (D, Result<Served, Failure>)>
    ensures begins { IfOk result (λ all. (writer.new ≡ writer.old)
        × (has_faults all ≡ faulty)
        × (counts_of all ≡ no_counts)
        × BeginsAll (index_of all) (wide_of all) (size_of all) (files_of all) (has_failed all)
        (D.disk device) (D.disk (device_of all))) }
    ensures told { IfErr result (λ told. IfOk told.1 (λ served. (served.faulty ≡ faulty)
        × TellsFault served.answer
        (D.disk device) (D.disk told.0) W.contents writer.old writer.new)) }
    ensures failed { IfErr result (λ told. IfErr told.1 (λ failure.
        FailsToBeginAll failure (D.disk device) (D.disk told.0) writer.old writer.new)) }
{
    let mut device = device;
    match begin_on_volume(alloc, &mut device, writer) {
        Ok(Ok((index, wide, size, files, failed))) => Ok(TakingAll {
            device,
            index,
            wide,
            files,
            size,
            faulty,
            failed,
            counts: Counts::none(),
        }),
        Ok(Err(answer)) => Err((device, Ok(Served { answer, faulty }))),
        Err(failure) => Err((device, Err(failure))),
    }
}

/// Reads the index file, and begins with all files, or tells why it can't.
fn begin_on_volume<D: Device, W: Write>(
    alloc: Global,
    device: &mut D,
    writer: &mut W,
) -> Result<Result<(IndexFile, IndexFile, u32, AllFiles, bool), Answer>, Failure>
    ensures begins { IfOk result (λ answer. IfOk answer (λ found. (writer.new ≡ writer.old)
        × IndexLiesWithin (index_kept found.0) (length (D.disk device.new).image)
        × IndexLiesWithin (index_kept found.1) (length (D.disk device.new).image)
        × IsWalking (index_kept found.0) (index_kept found.1) found.3 (D.disk device.new)
        × BeginsAll (index_kept found.0) (index_kept found.1) found.2 found.3 found.4
        (D.disk device.old) (D.disk device.new))) }
    ensures told { IfOk result (λ answer. IfErr answer (λ told.
        TellsFault told (D.disk device.old) (D.disk device.new) W.contents writer.old writer.new)) }
    ensures failed { IfErr result (λ failure.
        FailsToBeginAll failure (D.disk device.old) (D.disk device.new) writer.old writer.new) }
{
    match read_index(alloc, device)? {
        Ok((_, index)) => {
            let wide = index.with_all_in_use(alloc)?;
            match begin_in_index(alloc, device, &index, &wide) {
                Ok((size, files, failed)) => Ok(Ok((index, wide, size, files, failed))),
                Err(WalkFault::DeviceFault) => Err(Failure::DeviceFault),
                Err(WalkFault::NoMemory) => Err(Failure::NoMemory),
            }
        }
        Err(fault) => {
            writeln!(writer, "fault {fault}")?;
            Ok(Err(Answer::Fault))
        }
    }
}

/// Finds where the volume ends, and begins with all files; whether a transfer failed before all directories were found that are to be gone
/// over.
fn begin_in_index<D: Device>(
    alloc: Global,
    device: &mut D,
    index: &IndexFile,
    wide: &IndexFile,
) -> Result<(u32, AllFiles, bool), WalkFault>
    requires within { IndexLiesWithin (index_kept index.now) (length (D.disk device.old).image) }
    requires wide { IndexLiesWithin (index_kept wide.now) (length (D.disk device.old).image) }
    ensures begins { IfOk result (λ begun. BeginsWithEnd (index_kept index.now) (index_kept wide.now)
        begun.0 begun.1 begun.2 (D.disk device.old) (D.disk device.new)) }
    ensures failed { IfErr result (λ fault. FailsWithEnd fault (D.disk device.old) (D.disk device.new)) }
{
    let size = volume_end(device, index, wide)?;
    let (files, failed) = AllFiles::begin(alloc, device, index, wide, MASTER_DIRECTORY)?;
    Ok((size, files, failed))
}
