//! All files are brought together.
ghost use Rattle.std.specs.Prelude.{◌≡◌, ◌+◌, ◌++◌, ◌∷◌, [], false, IfErr, IfOk, OnOk, length};
ghost use Rattle.f11_dev.specs.Looked.{Looked};
ghost use Rattle.rt11_volume.specs.Calls.{has_failed};
ghost use Rattle.rt11_volume.specs.Files.{faults_in, is_device_fault};
ghost use Rattle.rt11_volume.specs.Verifying.Verdict.{IsSoundDisk};
ghost use Rattle.rt11_squeeze.specs.Kept.{volume_disk, volume_store};
ghost use Rattle.rt11_squeeze.specs.Moving.{move_transfers};
ghost use Rattle.rt11_squeeze.specs.Rooms.{areas_listed};
ghost use Rattle.rt11_squeeze.specs.Squeezing.{AreTold, BeginsAt, EndsEarly, IsTold, OnSound, Preserves, SqueezesEach, SqueezesOne, TellsPlace, Tries, TriesBy, ends_all, file_transfers, squeeze_transfers, way_by};

use crate::moving::{FileToMove, move_file};
use crate::outcome::Squeezed;
use crate::way::{Way, way_of};
use f11_bytes::NoMemory;
use f11_dev::Device;
use rt11_volume::{RtAccepted, RtRefusal};
use std::alloc::Global;

/// Whether nothing more can be done behind a refusal.
fn ends_all(refusal: RtRefusal) -> bool
    ensures { result ≡ ends_all refusal }
{
    matches!(
        refusal,
        RtRefusal::Failed | RtRefusal::NoMemory | RtRefusal::DeviceFault
    )
}

/// Moves a file: why it wasn't moved, if it wasn't, where that doesn't end all.
fn try_move<D: Device>(
    alloc: Global,
    volume: &mut RtAccepted<D>,
    file: &FileToMove,
) -> Result<Option<RtRefusal>, RtRefusal>
    requires fresh { has_failed volume.old ≡ false }
    ensures preserves { Preserves (file.now ∷ []) D.disk (move_transfers file.now.blocks)
        result volume.old volume.new }
    ensures tries { OnSound (IsTold file.now) (volume_disk D.disk volume.old)
        (Tries file.now result (volume_disk D.disk volume.old) (volume_disk D.disk volume.new)) }
{
    match move_file(alloc, volume, file) {
        Ok(()) => Ok(None),
        Err(refusal) => {
            if ends_all(refusal) {
                Err(refusal)
            } else {
                Ok(Some(refusal))
            }
        }
    }
}

/// Moves a file in the way that it comes to a lower block.
fn try_way<D: Device>(
    alloc: Global,
    volume: &mut RtAccepted<D>,
    file: &FileToMove,
    way: Way,
) -> Result<Option<RtRefusal>, RtRefusal>
    requires fresh { has_failed volume.old ≡ false }
    ensures preserves { Preserves (file.now ∷ []) D.disk
        (move_transfers file.now.blocks + move_transfers file.now.blocks)
        result volume.old volume.new }
    ensures tries { OnSound (IsTold file.now) (volume_disk D.disk volume.old)
        (TriesBy way file.now result (volume_disk D.disk volume.old) (volume_disk D.disk volume.new)) }
{
    match try_move(alloc, volume, file) {
        Ok(None) => {}
        Ok(Some(refusal)) => return Ok(Some(refusal)),
        Err(refusal) => return Err(refusal),
    }
    match way {
        Way::Twice => try_move(alloc, volume, file),
        _ => Ok(None),
    }
}

/// Where a file begins, and how it comes to a lower block.
fn look<D: Device>(
    alloc: Global,
    volume: &mut RtAccepted<D>,
    file: &FileToMove,
) -> Result<(u16, Way), RtRefusal>
    requires fresh { has_failed volume.old ≡ false }
    ensures looked { Looked (volume_disk D.disk volume.old) (volume_disk D.disk volume.new)
        124 (faults_in result) }
    ensures next { has_failed volume.new ≡ is_device_fault result }
    ensures begins { IfOk result (λ found. IsSoundDisk (volume_disk D.disk volume.old)
        → BeginsAt file.now.name found.0 (volume_store D.disk volume.old)) }
    ensures way { IfOk result (λ found. IsSoundDisk (volume_disk D.disk volume.old)
        → found.1 ≡ way_by (areas_listed (volume_store D.disk volume.old)) found.0
        file.now.blocks) }
    ensures refused { IfErr result (λ e. OnSound (IsTold file.now)
        (volume_disk D.disk volume.old) (EndsEarly e)) }
{
    let start = match volume.find(&file.name) {
        Ok((start, _)) => start,
        Err(refusal) => return Err(refusal),
    };
    match volume.list(alloc) {
        Ok(areas) => Ok((start, way_of(&areas, start, file.blocks))),
        Err(refusal) => Err(refusal),
    }
}

/// Whether a file that was moved begins at a lower block than this one.
fn judge<D: Device>(
    volume: &mut RtAccepted<D>,
    file: &FileToMove,
    from: u16,
) -> Result<Squeezed, RtRefusal>
    requires fresh { has_failed volume.old ≡ false }
    ensures looked { Looked (volume_disk D.disk volume.old) (volume_disk D.disk volume.new)
        62 (faults_in result) }
    ensures next { has_failed volume.new ≡ is_device_fault result }
    ensures tells { IfOk result (λ outcome. TellsPlace outcome file.now.name from
        (volume_disk D.disk volume.old)) }
    ensures refused { IfErr result (λ e. OnSound (IsTold file.now)
        (volume_disk D.disk volume.old) (EndsEarly e)) }
{
    match volume.find(&file.name) {
        Ok((start, _)) => {
            if start < from {
                Ok(Squeezed::Moved)
            } else {
                Ok(Squeezed::Refused(RtRefusal::NoSpace))
            }
        }
        Err(refusal) => Err(refusal),
    }
}

/// Brings a file to a lower block, if it can be.
fn squeeze_file<D: Device>(
    alloc: Global,
    volume: &mut RtAccepted<D>,
    file: &FileToMove,
) -> Result<Squeezed, RtRefusal>
    requires fresh { has_failed volume.old ≡ false }
    ensures preserves { Preserves (file.now ∷ []) D.disk (file_transfers file.now)
        result volume.old volume.new }
    ensures squeezes { IfOk result (λ outcome. OnSound (IsTold file.now)
        (volume_disk D.disk volume.old) (SqueezesOne file.now outcome
        (volume_disk D.disk volume.old) (volume_disk D.disk volume.new))) }
    ensures refused { IfErr result (λ e. OnSound (IsTold file.now)
        (volume_disk D.disk volume.old) (EndsEarly e)) }
{
    let (from, way) = match look(alloc, volume, file) {
        Ok(found) => found,
        Err(refusal) => return Err(refusal),
    };
    match way {
        Way::Stay => return Ok(Squeezed::InPlace),
        Way::Barred => return Ok(Squeezed::Refused(RtRefusal::NoSpace)),
        Way::Once | Way::Twice => {}
    }
    match try_way(alloc, volume, file, way) {
        Ok(None) => judge(volume, file, from),
        Ok(Some(refusal)) => Ok(Squeezed::Refused(refusal)),
        Err(refusal) => Err(refusal),
    }
}

/// Adds an outcome.
fn push_outcome(outcomes: &mut Vec<Squeezed>, outcome: Squeezed) -> Result<(), NoMemory>
    ensures { OnOk result (outcomes.new.items ≡ outcomes.old.items ++ outcome ∷ []) }
{
    Ok(outcomes.push(outcome)?)
}

/// Brings files to lower blocks, one after another: what became of each, in their order. A file before which an empty area lies is moved to
/// the first one that is as long, where that lies before it. Where it lies behind, and an empty area right before the file, it is moved
/// there, and then once more: its own area is joined with the one before it meanwhile. It takes memory for the list of areas and for a
/// file's blocks.
///
/// At each moment, also where it is stopped or a transfer fails, the blocks of each file stand on the volume.
///
/// # Errors
///
/// `DeviceFault` where a transfer failed, and `NoMemory` where there was no memory: files may be moved then. On a volume with other files
/// than it is told, also `NoSuchFile` where there is no such file.
pub fn squeeze<D: Device>(
    alloc: Global,
    volume: &mut RtAccepted<D>,
    files: &[FileToMove],
) -> Result<Vec<Squeezed>, RtRefusal>
    requires fresh { has_failed volume.old ≡ false }
    ensures preserves { Preserves files.now D.disk (squeeze_transfers files.now)
        result volume.old volume.new }
    ensures count { IfOk result (λ outcomes. length outcomes.items ≡ length files.now) }
    ensures squeezes { IfOk result (λ outcomes. OnSound (AreTold files.now)
        (volume_disk D.disk volume.old) (SqueezesEach files.now outcomes.items
        (volume_disk D.disk volume.old) (volume_disk D.disk volume.new))) }
    ensures refused { IfErr result (λ e. OnSound (AreTold files.now)
        (volume_disk D.disk volume.old) (EndsEarly e)) }
{
    let mut outcomes = Vec::new(alloc);
    for i in 0..files.len() {
        let file = files[i];
        let outcome = match squeeze_file(alloc, volume, &file) {
            Ok(outcome) => outcome,
            Err(refusal) => return Err(refusal),
        };
        match push_outcome(&mut outcomes, outcome) {
            Ok(()) => {}
            Err(_) => return Err(RtRefusal::NoMemory),
        }
    }
    Ok(outcomes)
}
