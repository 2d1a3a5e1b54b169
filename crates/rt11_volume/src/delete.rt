//! A file is deleted.
ghost use Rattle.std.specs.Prelude.{◌≡◌, false, IfErr, IsErrOf, OnErr, OnOk};
ghost use Rattle.f11_dev.specs.Looked.{Looked};
ghost use Rattle.f11_dev.specs.Went.{Went};
ghost use Rattle.rt11_volume.specs.Files.{is_device_fault, faults_in, DeletesFile, FailsToDelete, KeepsFiles};
ghost use Rattle.rt11_volume.specs.Verifying.Verdict.{IsSoundDisk};

use crate::lookup::file::find_file;
use crate::refusal::RtRefusal;
use crate::rewrite::edit::without_file;
use f11_dev::Device;

/// Deletes the file of a name: its segment alone is written.
pub(crate) fn delete_file<D: Device>(device: &mut D, name: [u16; 3]) -> Result<(), RtRefusal>
    ensures went { Went (KeepsFiles (D.disk device.old)) (D.disk device.old) (D.disk device.new)
        64 (faults_in result) }
    ensures deleted { OnOk result (IsSoundDisk (D.disk device.old)
        → DeletesFile name (D.disk device.old).image (D.disk device.new).image) }
    ensures refused { IfErr result (λ refusal.
        FailsToDelete refusal name (D.disk device.old)) }
    ensures kept { is_device_fault result ≡ false → OnErr result
        (Looked (D.disk device.old) (D.disk device.new) 62 0) }
    ensures judged { ¬ IsErrOf result RtRefusal.Failed }
{
    let found = find_file(device, name)?;
    if found.entry().is_protected() {
        return Err(RtRefusal::Protected);
    }
    // On an accepted volume each segment has an end.
    if !found.segment.has_end() {
        return Err(RtRefusal::NoSuchFile);
    }
    let segment = without_file(&found.segment, found.i);
    segment.write(device, found.number)?;
    Ok(())
}
