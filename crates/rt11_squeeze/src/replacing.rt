//! A file is deleted, and another one takes its name.
ghost use Rattle.std.specs.Prelude.{◌≡◌, false, IfErr, OnOk};
ghost use Rattle.f11_dev.specs.Went.{Went};
ghost use Rattle.rt11_volume.specs.Calls.{has_failed};
ghost use Rattle.rt11_volume.specs.Files.{faults_in, is_device_fault};
ghost use Rattle.rt11_squeeze.specs.Kept.{SparesBehind, volume_disk};
ghost use Rattle.rt11_squeeze.specs.Replacing.{FailsToRemove, FailsToTake, Removes, TakesName, naming_transfers, removal_transfers};

use f11_dev::Device;
use rt11_volume::{RtAccepted, RtName, RtRefusal};

/// Deletes a file, which is protected no more before where it is.
pub(crate) fn remove<D: Device>(
    volume: &mut RtAccepted<D>,
    name: &RtName,
    protected: bool,
) -> Result<(), RtRefusal>
    requires fresh { has_failed volume.old ≡ false }
    ensures went { Went (SparesBehind (volume_disk D.disk volume.old))
        (volume_disk D.disk volume.old) (volume_disk D.disk volume.new)
        removal_transfers (faults_in result) }
    ensures next { has_failed volume.new ≡ is_device_fault result }
    ensures removed { OnOk result (Removes name.now
        (volume_disk D.disk volume.old) (volume_disk D.disk volume.new)) }
    ensures refused { IfErr result (λ e. FailsToRemove name.now protected e
        (volume_disk D.disk volume.old)) }
{
    if !protected {
        return volume.delete(name);
    }
    match volume.protect(name, false) {
        Ok(()) => volume.delete(name),
        Err(refusal) => Err(refusal),
    }
}

/// Gives a file another name, and protects it where that is asked for.
pub(crate) fn take_name<D: Device>(
    volume: &mut RtAccepted<D>,
    name: &RtName,
    other: &RtName,
    protect: bool,
) -> Result<(), RtRefusal>
    requires fresh { has_failed volume.old ≡ false }
    ensures went { Went (SparesBehind (volume_disk D.disk volume.old))
        (volume_disk D.disk volume.old) (volume_disk D.disk volume.new)
        naming_transfers (faults_in result) }
    ensures next { has_failed volume.new ≡ is_device_fault result }
    ensures taken { OnOk result (TakesName name.now other.now protect
        (volume_disk D.disk volume.old) (volume_disk D.disk volume.new)) }
    ensures refused { IfErr result (λ e. FailsToTake name.now other.now e
        (volume_disk D.disk volume.old)) }
{
    // So that the proof knows that the words are those of a name.
    let _ = other.words();
    match volume.rename(name, other) {
        Ok(()) => {}
        Err(refusal) => return Err(refusal),
    }
    if protect {
        volume.protect(other, true)
    } else {
        Ok(())
    }
}
