//! The files of one volume are copied to another, one after another.
ghost use Rattle.std.specs.Prelude.{◌≡◌, ◌++◌, ◌∷◌, [], false, true, IfErr, IfOk, OnOk};
ghost use Rattle.f11_dev.specs.Looked.{Looked};
ghost use Rattle.f11_dev.specs.Went.{Went};
ghost use Rattle.rt11_volume.specs.Calls.{has_failed};
ghost use Rattle.rt11_volume.specs.Files.{faults_in, is_device_fault, is_fault};
ghost use Rattle.rt11_squeeze.specs.Kept.{SparesFiles, volume_disk};
ghost use Rattle.rt11_copy.specs.Copies.{Became, CopiesAll, EndsCopying, KeepsVolume, OnlyRead};
ghost use Rattle.rt11_copy.specs.Copies.{ending, entry_reads, entry_writes, reads_all, unread_by, writes_all};
ghost use Rattle.rt11_copy.specs.Copying.{IsRefused};

use crate::copying::copy_file;
use crate::outcome::{RtCopied, RtUncopied};
use f11_bytes::NoMemory;
use f11_dev::Device;
use rt11_volume::{RtAccepted, RtEntry, RtRefusal};
use std::alloc::Global;

/// Whether a refusal is that of a transfer that failed.
fn is_fault(refusal: RtRefusal) -> bool
    ensures { result ≡ is_fault refusal }
{
    matches!(refusal, RtRefusal::DeviceFault)
}

/// The refusal that ends all, if it is one.
fn ending(why: RtUncopied) -> Option<RtRefusal>
    ensures { result ≡ ending why }
{
    match why {
        RtUncopied::Refused(refusal) => {
            if is_fault(refusal) {
                Some(refusal)
            } else {
                None
            }
        }
        _ => None,
    }
}

/// Adds an outcome.
fn push_outcome(outcomes: &mut Vec<RtCopied>, outcome: RtCopied) -> Result<(), NoMemory>
    ensures { OnOk result (outcomes.new.items ≡ outcomes.old.items ++ outcome ∷ []) }
{
    Ok(outcomes.push(outcome)?)
}

/// Copies the file of an entry: what became of it, unless a transfer to the volume failed.
fn copy_one<D: Device, E: Device>(
    alloc: Global,
    from: &mut D,
    entry: &RtEntry,
    volume: &mut RtAccepted<E>,
) -> Result<RtCopied, RtRefusal>
    requires fresh { has_failed volume.old ≡ false }
    ensures looked { Looked (D.disk from.old) (D.disk from.new) (entry_reads entry.now)
        (unread_by result) }
    ensures went { Went (SparesFiles (volume_disk E.disk volume.old))
        (volume_disk E.disk volume.old) (volume_disk E.disk volume.new)
        (entry_writes entry.now) (faults_in result) }
    ensures next { has_failed volume.new ≡ is_device_fault result }
    ensures became { IfOk result (λ outcome. Became outcome entry.now (D.disk from.old)
        (volume_disk E.disk volume.old) (volume_disk E.disk volume.new)) }
    ensures keeps { IfOk result (λ outcome. KeepsVolume
        (volume_disk E.disk volume.old) (volume_disk E.disk volume.new)) }
    ensures ended { IfErr result (λ e. (is_fault e ≡ true) × IsRefused e entry.now
        (D.disk from.old) (volume_disk E.disk volume.old) (volume_disk E.disk volume.new)) }
{
    match copy_file(alloc, from, entry, volume) {
        Ok(()) => Ok(RtCopied::Copied),
        Err(why) => match ending(why) {
            Some(refusal) => Err(refusal),
            None => Ok(RtCopied::NotCopied(why)),
        },
    }
}

/// Copies the files of entries of an RT-11 volume, faulty or not, which is on `from`, to a volume, one after another: what became of each,
/// in their order (RT-11 System User's Guide, COPY). Each is copied as by [`copy_file`], to the front of the first empty area that is as
/// long. One that is refused ends nothing, but where a transfer to the volume failed. Nothing is
/// written to `from`. It takes memory for a file's blocks, and for the list of outcomes.
///
/// At each moment the blocks of each file that there was stand on the volume.
///
/// # Errors
///
/// `DeviceFault` where a transfer to the volume failed, and `NoMemory` where there was no memory for the list: the files before are copied
/// then.
pub fn copy_all<D: Device, E: Device>(
    alloc: Global,
    from: &mut D,
    entries: &[RtEntry],
    volume: &mut RtAccepted<E>,
) -> Result<Vec<RtCopied>, RtRefusal>
    requires fresh { has_failed volume.old ≡ false }
    ensures reads { OnlyRead (D.disk from.old) (D.disk from.new) (reads_all entries.now) }
    ensures went { Went (SparesFiles (volume_disk E.disk volume.old))
        (volume_disk E.disk volume.old) (volume_disk E.disk volume.new)
        (writes_all entries.now) (faults_in result) }
    ensures next { has_failed volume.new ≡ is_device_fault result }
    ensures copies { IfOk result (λ outcomes. CopiesAll entries.now outcomes.items
        (D.disk from.old) (D.disk from.new)
        (volume_disk E.disk volume.old) (volume_disk E.disk volume.new)) }
    ensures ended { IfErr result (λ e. EndsCopying e entries.now
        (D.disk from.old) (D.disk from.new)
        (volume_disk E.disk volume.old) (volume_disk E.disk volume.new)) }
{
    let mut outcomes = Vec::new(alloc);
    for i in 0..entries.len() {
        let entry = entries[i];
        let outcome = match copy_one(alloc, from, &entry, volume) {
            Ok(outcome) => outcome,
            Err(refusal) => return Err(refusal),
        };
        match push_outcome(&mut outcomes, outcome) {
            Ok(()) => {}
            Err(_) => return Err(RtRefusal::NoMemory),
        }
    }
    Ok(outcomes)
}
