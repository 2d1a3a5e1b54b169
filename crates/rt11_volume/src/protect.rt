//! A file is protected, or isn't any more.
ghost use Rattle.std.specs.Prelude.{◌≡◌, false, IfErr, IsErrOf, OnErr, OnOk};
ghost use Rattle.f11_dev.specs.Looked.{Looked};
ghost use Rattle.f11_dev.specs.Went.{Went};
ghost use Rattle.rt11_volume.specs.Entry.{protected_entry, protected_status};
ghost use Rattle.rt11_volume.specs.Files.{is_device_fault, faults_in, FailsToFindFile, HasEntryChanged, ProtectsFile};
ghost use Rattle.rt11_volume.specs.Verifying.Verdict.{IsSoundDisk};

use crate::lookup::file::find_file;
use crate::refusal::RtRefusal;
use crate::rewrite::overwrite::overwrite;
use f11_dev::Device;

/// The value of the bit of a protected file in a status word: octal 100000.
const PROTECTED_BIT: u16 = 32768;

/// A status word with the bit of a protected file, or without.
fn protected_status(on: bool, status: u16) -> u16
    ensures { result ≡ protected_status on status }
{
    let others = status % PROTECTED_BIT;
    if on { others + PROTECTED_BIT } else { others }
}

/// Protects the file of a name, or has it protected no more: the status word of its entry alone is written.
pub(crate) fn protect_file<D: Device>(
    device: &mut D,
    name: [u16; 3],
    on: bool,
) -> Result<(), RtRefusal>
    ensures went { Went (HasEntryChanged (protected_entry on) name (D.disk device.old))
        (D.disk device.old) (D.disk device.new) 63 (faults_in result) }
    ensures protected { OnOk result (IsSoundDisk (D.disk device.old)
        → ProtectsFile on name (D.disk device.old).image (D.disk device.new).image) }
    ensures refused { IfErr result (λ refusal. FailsToFindFile refusal name (D.disk device.old)) }
    ensures kept { is_device_fault result ≡ false → OnErr result
        (Looked (D.disk device.old) (D.disk device.new) 62 0) }
    ensures judged { ¬ IsErrOf result RtRefusal.Failed }
{
    let found = find_file(device, name)?;
    let status = protected_status(on, found.entry().status);
    overwrite(device, &found, 0, &[status])?;
    Ok(())
}
