//! Files of the host, made files on a Files-11 volume.
ghost use Rattle.std.specs.Prelude.{◌≡◌, true, Some, IfErr, IfOk, IsErrAnd};
ghost use Rattle.f11_flx.specs.fcp.Lists.{is_sound, store_of_volume};
ghost use Rattle.f11_flx.specs.fcp.Serving.{is_spent};
ghost use Rattle.f11_making.specs.Asking.{who_asks};
ghost use Rattle.f11_making.specs.Volume.{of_volume};
ghost use Rattle.f11_flx.specs.Copying.{MayMake, is_whole};
ghost use Rattle.f11_flx.specs.Ended.{Ends};
ghost use Rattle.f11_flx.specs.Refusal.{is_lethal};
ghost use Rattle.f11_host.specs.CopyFromHost.{AsksForImage, CopiesFromHost, FailsSpent, FailsToCopyFromHost, ReadsHost, image_attr, is_too_long};
ghost use Rattle.f11_host.specs.Refusal.{as_copy, copy_result};

use crate::making::make;
use crate::refusal::{HostRefusal, told};
use f11_dev::Device;
use f11_flx::f11_fcp::Volume;
use f11_making::{Asker, Entry};
use f11_rad50::Name;
use f11_store::{FileId, Lun, Refusal, Task, Uic};
use std::io::Read;

/// The most bytes of a file whose blocks are counted.
const MOST_BYTES: u64 = 4_294_967_295;

/// Copies a file of the host, of which so many bytes are to come, to a Files-11 volume as it is, for a task and a user, by a lun that holds
/// no access: how many blocks the copy has, the last one filled up with zeros (RSX-11M Utilities manual, FLX). Its records are fixed ones of
/// 512 bytes, and its end is behind the last byte. No memory is taken but for slots of the index file, which gets them first where too few
/// headers are free, and keeps them where the copy is refused.
///
/// A file is created that bars nobody and ends at its beginning, accessed to be written, and gets its blocks; it is given up, gets its end, is
/// entered into the directory, and gets its protection. So what is stopped leaves no file that looks whole and isn't.
///
/// # Errors
///
/// [`HostRefusal::Files`] with the refusal of the first step that is refused, and [`HostRefusal::Unread`] where the host gives fewer bytes, or
/// fails. Then the new file is given up and deleted; where this meets a device fault or `Damaged`, that is the answer. After these no
/// transfer follows: an access that isn't given up stays, and so does the new file, in the directory only where it was entered.
///
/// Of over 4,294,967,295 bytes, for which no 256 headers name the blocks, it is `TooManySegments` at once, before anything is asked. Of a
/// volume that had failed before it is `VolumeFailed`.
#[allow(clippy::too_many_arguments)]
pub fn copy_from_host<R: Read, D: Device>(
    host: &mut R,
    bytes: u64,
    vol: &mut Volume<D>,
    task: Task,
    lun: Lun,
    uic: Uic,
    dir: FileId,
    to: &Name,
    protection: u16,
) -> Result<u32, HostRefusal>
    ensures host { ReadsHost bytes result (R.remaining host.old) (R.remaining host.new) }
    ensures files { MayMake (copy_result result) (who_asks task uic) lun dir to.now protection
        (Some (image_attr bytes)) vol.old vol.new }
    ensures order { AsksForImage of_volume bytes (R.remaining host.old) (R.remaining host.new)
        (who_asks task uic) lun dir to.now protection vol.old vol.new }
    ensures spent { is_spent vol.old ≡ true → IsErrAnd result (FailsSpent (is_too_long bytes)) }
    ensures ended { IfErr result (λ e. is_lethal (as_copy e) ≡ true
        → Ends of_volume (who_asks task uic) (as_copy e) vol.old vol.new) }
    ensures copied { IfOk result (λ blocks. is_sound vol.old ≡ true → CopiesFromHost bytes
        (R.remaining host.old) (R.remaining host.new) (who_asks task uic) lun dir to.now protection
        (store_of_volume vol.old) (store_of_volume vol.new)) }
    ensures refused { IfErr result (λ e. is_whole (copy_result result) ≡ true → is_sound vol.old ≡ true
        → FailsToCopyFromHost e bytes (R.remaining host.old) (R.remaining host.new)
        (who_asks task uic) lun dir to.now protection
        (store_of_volume vol.old) (store_of_volume vol.new)) }
{
    if bytes > MOST_BYTES {
        return Err(HostRefusal::Files(Refusal::TooManySegments));
    }
    let by = Asker { task, lun, uic };
    let entry = Entry {
        dir,
        name: *to,
        protection,
    };
    match make(host, bytes as u32, vol, &by, &entry) {
        Ok(blocks) => Ok(blocks),
        Err(refusal) => Err(told(refusal)),
    }
}
