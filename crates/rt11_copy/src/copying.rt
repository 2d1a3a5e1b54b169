//! A file of one volume is copied to another.
ghost use Rattle.std.specs.Prelude.{◌≡◌, false, IfErr, OnOk};
ghost use Rattle.f11_dev.specs.Looked.{Looked};
ghost use Rattle.f11_dev.specs.Went.{Went};
ghost use Rattle.rt11_volume.specs.Calls.{has_failed};
ghost use Rattle.rt11_squeeze.specs.Kept.{SparesFiles, volume_disk};
ghost use Rattle.rt11_copy.specs.Copying.{CopiesFile, FailsToCopyFile, is_volume_fault, making_transfers};
ghost use Rattle.rt11_copy.specs.Copying.{read_faults, reads_at_most, unread, volume_faults};

use crate::entries::name_to_copy;
use crate::making::make_file;
use crate::outcome::RtUncopied;
use crate::reading::read_file;
use f11_dev::Device;
use rt11_volume::{LookFault, RtAccepted, RtEntry, RtRefusal};
use std::alloc::Global;

/// As what it is told that a file couldn't be read.
fn unread(fault: LookFault) -> RtUncopied
    ensures { result ≡ unread fault }
{
    match fault {
        LookFault::DeviceFault => RtUncopied::Unreadable,
        LookFault::NoMemory => RtUncopied::Refused(RtRefusal::NoMemory),
    }
}

/// Copies the file of an entry of an RT-11 volume, faulty or not, which is on `from`, to a volume (RT-11 System User's Guide, COPY): a file
/// of the same name, length, date and blocks, protected where the entry says so, in the front of the first empty area of the volume that is
/// as long. Nothing is written to `from`.
///
/// Its date and its blocks are read first, for which it takes memory; so nothing is written where it is refused, unless a transfer to the
/// volume failed. No transfer is made where the entry alone tells that it isn't copied. At each moment the blocks of each file that there
/// was stand on the volume.
///
/// # Errors
///
/// [`RtUncopied`] says them, in order: of the entry; of reading it; and of making the file, as those of [`RtAccepted::create`].
pub fn copy_file<D: Device, E: Device>(
    alloc: Global,
    from: &mut D,
    entry: &RtEntry,
    volume: &mut RtAccepted<E>,
) -> Result<(), RtUncopied>
    requires fresh { has_failed volume.old ≡ false }
    ensures looked { Looked (D.disk from.old) (D.disk from.new)
        (reads_at_most entry.now result) (read_faults result) }
    ensures went { Went (SparesFiles (volume_disk E.disk volume.old))
        (volume_disk E.disk volume.old) (volume_disk E.disk volume.new)
        (making_transfers entry.now.blocks) (volume_faults result) }
    ensures next { has_failed volume.new ≡ is_volume_fault result }
    ensures copied { OnOk result (CopiesFile entry.now (D.disk from.old)
        (volume_disk E.disk volume.old) (volume_disk E.disk volume.new)) }
    ensures refused { IfErr result (λ why. FailsToCopyFile why entry.now (D.disk from.old)
        (volume_disk E.disk volume.old) (volume_disk E.disk volume.new)) }
{
    let name = match name_to_copy(from.blocks(), entry) {
        Ok(name) => name,
        Err(why) => return Err(why),
    };
    let (date, blocks) = match read_file(alloc, from, entry) {
        Ok(file) => file,
        Err(fault) => return Err(unread(fault)),
    };
    match make_file(volume, &name, date, entry, &blocks) {
        Ok(()) => Ok(()),
        Err(refusal) => Err(RtUncopied::Refused(refusal)),
    }
}
