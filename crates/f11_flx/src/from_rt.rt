//! Copies from RT-11 volumes.
ghost use Rattle.std.specs.Prelude.{◌≡◌, true, IfOk, IfErr, IsErrAnd, Err};
ghost use Rattle.f11_fcp.specs.Lists.{store_of_volume};
ghost use Rattle.f11_fcp.specs.Serving.{is_spent};
ghost use Rattle.rt11_volume.specs.Calls.{volume_device};
ghost use Rattle.rt11_volume.specs.Store.{rt_store_of};
ghost use Rattle.f11_making.specs.Volume.{of_volume};
ghost use Rattle.f11_flx.specs.Copying.{MayMakeFile, ReadsRt, WhereSound, is_whole};
ghost use Rattle.f11_flx.specs.Ended.{Ends};
ghost use Rattle.f11_flx.specs.Refusal.{is_lethal};
ghost use Rattle.f11_making.specs.Asking.{who_asks};
ghost use Rattle.f11_flx.specs.CopyFromRt.{CopiesFromRt, FailsToCopyFromRt, FailsToCopySpent};

use crate::mode::CopyMode;
use crate::refusal::FlxRefusal;
use crate::transfer::copy_from;
use f11_dev::Device;
use f11_fcp::Volume;
use f11_making::{Asker, Entry};
use f11_rad50::Name;
use f11_store::{FileId, Lun, Task, Uic};
use rt11_volume::{RtAccepted, RtName};

/// Copies a file of an RT-11 volume to a Files-11 volume, for a task and a user, by a lun that holds no access: how many blocks the copy
/// has (RSX-11M Utilities manual, FLX). No memory is taken but for slots of the index file, which gets them first where too few headers are
/// free, and keeps them where the copy is refused.
///
/// The file is found; in mode [`CopyMode::Text`] its lines are walked over; a file is created that bars nobody, accessed to be written, and
/// gets its blocks; it is given up, entered into the directory, and gets its protection.
///
/// # Errors
///
/// The refusal of the first step that is refused. Then the new file is given up and deleted; where this meets a device fault or `Damaged`,
/// that is the answer. After these no transfer follows: an access that isn't given up stays, and so does the new file, in the directory only
/// where it was entered.
///
/// Of volumes that had failed before an RT-11 one is answered as `Failed` at once, before anything is asked of the other, and a Files-11
/// one as `VolumeFailed` where the file is to be created.
#[allow(clippy::too_many_arguments)]
pub fn copy_from_rt<D: Device, E: Device>(
    rt: &mut RtAccepted<E>,
    name: &RtName,
    vol: &mut Volume<D>,
    task: Task,
    lun: Lun,
    uic: Uic,
    dir: FileId,
    to: &Name,
    protection: u16,
    mode: CopyMode,
) -> Result<u32, FlxRefusal>
    ensures source { ReadsRt E.disk result rt.old rt.new }
    ensures files { MayMakeFile result (who_asks task uic) lun dir to.now protection
        vol.old vol.new }
    ensures spent { is_spent vol.old ≡ true → IsErrAnd result (λ e.
        FailsToCopySpent e mode name.now (E.disk (volume_device rt.old))) }
    ensures ended { IfErr result (λ e. is_lethal e ≡ true
        → Ends of_volume (who_asks task uic) e vol.old vol.new) }
    ensures copied { IfOk result (λ blocks. WhereSound E.disk vol.old rt.old
        (CopiesFromRt mode name.now (who_asks task uic) lun dir to.now protection blocks
        (rt_store_of (E.disk (volume_device rt.old)).image)
        (store_of_volume vol.old) (store_of_volume vol.new))) }
    ensures refused { IfErr result (λ e. is_whole result ≡ true → WhereSound E.disk vol.old rt.old
        (FailsToCopyFromRt e mode name.now (who_asks task uic) lun dir to.now protection
        (E.disk (volume_device rt.old)) (store_of_volume vol.old) (store_of_volume vol.new))) }
{
    let by = Asker { task, lun, uic };
    let entry = Entry {
        dir,
        name: *to,
        protection,
    };
    match copy_from(rt, name, vol, &by, &entry, mode) {
        Ok(blocks) => Ok(blocks),
        Err(refusal) => Err(refusal),
    }
}
