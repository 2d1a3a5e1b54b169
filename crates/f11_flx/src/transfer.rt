//! A copy from an RT-11 volume, to whatever answers for the Files-11 volume.
ghost use Rattle.std.specs.Prelude.{◌≡◌, IfErr, IfOk};
ghost use Rattle.f11_making.specs.Asking.{who_asks};
ghost use Rattle.f11_flx.specs.FromRt.{CopiesFrom, FailsToCopyFrom};

use crate::making::make;
use crate::mode::CopyMode;
use crate::plan::judge;
use crate::refusal::FlxRefusal;
use f11_dev::Device;
use f11_making::{Asked, Asker, Entry};
use rt11_volume::{RtAccepted, RtName};

/// Copies the file of a name: how many blocks the copy has.
pub fn copy_from<E: Device, S: Asked>(
    rt: &mut RtAccepted<E>,
    name: &RtName,
    service: &mut S,
    by: &Asker,
    entry: &Entry,
    mode: CopyMode,
) -> Result<u32, FlxRefusal>
    ensures copied { IfOk result (λ blocks. CopiesFrom S.service E.disk mode
        (who_asks by.now.task by.now.uic) by.now.lun name.now entry.now.dir entry.now.name
        entry.now.protection blocks rt.old rt.new service.old service.new) }
    ensures fails { IfErr result (λ e. FailsToCopyFrom S.service E.disk mode
        (who_asks by.now.task by.now.uic) by.now.lun name.now entry.now.dir entry.now.name
        entry.now.protection e rt.old rt.new service.old service.new) }
{
    let plan = judge(rt, name, mode, by)?;
    make(rt, name, mode, &plan, service, by, entry)?;
    Ok(plan.blocks)
}
