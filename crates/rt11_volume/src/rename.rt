//! A file gets another name.
ghost use Rattle.std.specs.Prelude.{◌≡◌, false, IfErr, IsErrOf, OnErr, OnOk};
ghost use Rattle.f11_dev.specs.Looked.{Looked};
ghost use Rattle.f11_dev.specs.Went.{Went};
ghost use Rattle.rt11_volume.specs.Entry.{renamed_entry};
ghost use Rattle.rt11_volume.specs.Files.{is_device_fault, faults_in, FailsToFree, FailsToRename, HasEntryChanged, HasNoFile, RenamesFile};
ghost use Rattle.rt11_volume.specs.Store.{rt_store_of};
ghost use Rattle.rt11_volume.specs.Verifying.Verdict.{IsSoundDisk};

use crate::lookup::entry::{Wanted, find_first};
use crate::lookup::file::find_file;
use crate::refusal::RtRefusal;
use crate::rewrite::overwrite::overwrite;
use f11_dev::Device;

/// Refuses a name that a file has.
fn refuse_taken<D: Device>(device: &mut D, name: [u16; 3]) -> Result<(), RtRefusal>
    ensures looked { Looked (D.disk device.old) (D.disk device.new) 62 (faults_in result) }
    ensures free { OnOk result (IsSoundDisk (D.disk device.old)
        → HasNoFile name (rt_store_of (D.disk device.old).image)) }
    ensures refused { IfErr result (λ refusal. FailsToFree refusal name (D.disk device.old)) }
    ensures judged { ¬ IsErrOf result RtRefusal.Failed }
{
    match find_first(device, &Wanted::File(name))? {
        Some(_) => Err(RtRefusal::DuplicateName),
        None => Ok(()),
    }
}

/// Gives the file of a name another one, which no file has: its entry alone is written.
pub(crate) fn rename_file<D: Device>(
    device: &mut D,
    name: [u16; 3],
    other: [u16; 3],
) -> Result<(), RtRefusal>
    ensures went { Went (HasEntryChanged (renamed_entry other) name (D.disk device.old))
        (D.disk device.old) (D.disk device.new) 126 (faults_in result) }
    ensures renamed { OnOk result (IsSoundDisk (D.disk device.old)
        → RenamesFile name other (D.disk device.old).image (D.disk device.new).image) }
    ensures refused { IfErr result (λ refusal.
        FailsToRename refusal name other (D.disk device.old)) }
    ensures kept { is_device_fault result ≡ false → OnErr result
        (Looked (D.disk device.old) (D.disk device.new) 124 0) }
    ensures judged { ¬ IsErrOf result RtRefusal.Failed }
{
    let found = find_file(device, name)?;
    refuse_taken(device, other)?;
    overwrite(device, &found, 1, &other)?;
    Ok(())
}
