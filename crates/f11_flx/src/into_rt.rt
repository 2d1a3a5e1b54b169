//! Copies to RT-11 volumes.
ghost use Rattle.std.specs.Prelude.{◌≡◌, true, IfOk, IfErr, Err};
ghost use Rattle.f11_fcp.specs.Lists.{is_sound, store_of_volume};
ghost use Rattle.rt11_volume.specs.Calls.{has_failed, volume_device};
ghost use Rattle.rt11_volume.specs.Store.{rt_store_of};
ghost use Rattle.f11_making.specs.Volume.{of_volume};
ghost use Rattle.f11_flx.specs.Copying.{MakesRtFile, ReadsFiles, WhereSound, is_whole};
ghost use Rattle.f11_flx.specs.EndedToRt.{EndsToRt};
ghost use Rattle.f11_flx.specs.Refusal.{is_lethal};
ghost use Rattle.f11_making.specs.Asking.{who_asks};
ghost use Rattle.f11_flx.specs.CopyToRt.{CopiesToRt, FailsToCopyToRt, RefusesCopyToRt};

use crate::mode::CopyMode;
use crate::refusal::FlxRefusal;
use crate::to_rt::copy_file;
use f11_dev::Device;
use f11_fcp::Volume;
use f11_making::Asker;
use f11_store::{FileId, Lun, Task, Uic};
use rt11_volume::{RtAccepted, RtName};

/// Copies a file of a Files-11 volume to an RT-11 volume, for a task and a user, by a lun that holds no access: how many blocks the copy
/// has (RSX-11M Utilities manual, FLX). No memory is taken.
///
/// The source is locked, its attributes are read and its length is asked; in mode [`CopyMode::Text`] its records are walked over; the file is
/// made on the RT-11 volume, its blocks are copied, and the source is given up.
///
/// # Errors
///
/// The refusal of the first step that is refused. Then the source is given up, and a file that was made is deleted; where this meets a
/// device fault or `Damaged`, that is the answer. After these no transfer follows: an access that isn't given up stays, and what was copied
/// stays in the RT-11 directory.
///
/// Of volumes that had failed before a Files-11 one is answered as `VolumeFailed` at once, before anything is asked of the other, and an
/// RT-11 one as `Failed` where the file is to be made.
#[allow(clippy::too_many_arguments)]
pub fn copy_to_rt<D: Device, E: Device>(
    vol: &mut Volume<D>,
    task: Task,
    lun: Lun,
    uic: Uic,
    source: FileId,
    rt: &mut RtAccepted<E>,
    name: &RtName,
    date: u16,
    mode: CopyMode,
) -> Result<u32, FlxRefusal>
    ensures files { ReadsFiles result (who_asks task uic) vol.old vol.new }
    ensures target { MakesRtFile E.disk result name.now rt.old rt.new }
    ensures failed { has_failed rt.old ≡ true → IfErr result (λ e. is_whole result ≡ true
        → is_sound vol.old ≡ true → FailsToCopyToRt e mode (who_asks task uic) lun source name.now
        (store_of_volume vol.old) (store_of_volume vol.new) (E.disk (volume_device rt.old))) }
    ensures ended { IfErr result (λ e. is_lethal e ≡ true → EndsToRt mode of_volume E.disk
        (who_asks task uic) lun source name.now date e vol.old vol.new rt.old rt.new) }
    ensures copied { IfOk result (λ blocks. WhereSound E.disk vol.old rt.old
        (CopiesToRt mode (who_asks task uic) lun source name.now date blocks
        (store_of_volume vol.old) (store_of_volume vol.new)
        (rt_store_of (E.disk (volume_device rt.old)).image)
        (rt_store_of (E.disk (volume_device rt.new)).image))) }
    ensures refused { IfErr result (λ e. is_whole result ≡ true → WhereSound E.disk vol.old rt.old
        (RefusesCopyToRt e mode (who_asks task uic) lun source name.now
        (store_of_volume vol.old) (store_of_volume vol.new)
        (E.disk (volume_device rt.old)) (E.disk (volume_device rt.new)))) }
{
    let by = Asker { task, lun, uic };
    copy_file(vol, &by, source, mode, rt, name, date)
}
