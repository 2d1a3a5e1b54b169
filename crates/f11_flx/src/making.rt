//! A file that is made as the copy of one on an RT-11 volume.
ghost use Rattle.std.specs.Prelude.{◌≡◌, ◌≤◌, ℕ, List, IfErr, IfOk, OnOk};
ghost use Rattle.f11_making.specs.Asking.{who_asks};
ghost use Rattle.f11_making.specs.Making.{as_file};
ghost use Rattle.f11_flx.specs.Making.{FailsToFillFromRt, FailsToFillFile, FailsToMakeCopy, FillsFromRt, FillsFile, MakesCopy};
ghost use Rattle.f11_flx.specs.Passes.{CopiesFile, FailsToCopyFile};

use crate::mode::CopyMode;
use crate::pass::{copy_image, copy_lines};
use crate::plan::Plan;
use crate::refusal::FlxRefusal;
use crate::undoing::undo;
use f11_dev::Device;
use f11_making::{Asked, Asker, Entry, ask, create, enter, extend};
use f11_store::{FileId, Mode, Request};
use rt11_volume::{RtAccepted, RtName};

/// Copies so many blocks of the file of a name to the file that is accessed.
fn copy_file<E: Device, S: Asked>(
    rt: &mut RtAccepted<E>,
    name: &RtName,
    source: u16,
    mode: CopyMode,
    service: &mut S,
    by: &Asker,
) -> Result<(), FlxRefusal>
    ensures copied { OnOk result ((blocks : ℕ) × (attr : List ℕ) × CopiesFile S.service E.disk mode
        (who_asks by.now.task by.now.uic) by.now.lun name.now source blocks attr
        rt.old rt.new service.old service.new) }
    ensures fails { IfErr result (λ e. FailsToCopyFile S.service E.disk mode
        (who_asks by.now.task by.now.uic) by.now.lun name.now source e
        rt.old rt.new service.old service.new) }
{
    match mode {
        CopyMode::Image => copy_image(rt, name, source, service, by),
        CopyMode::Text => match copy_lines(rt, name, source, service, by) {
            Ok(_) => Ok(()),
            Err(refusal) => Err(refusal),
        },
    }
}

/// Fills the file that is accessed, and gives it up.
fn fill<E: Device, S: Asked>(
    rt: &mut RtAccepted<E>,
    name: &RtName,
    mode: CopyMode,
    plan: &Plan,
    service: &mut S,
    by: &Asker,
) -> Result<(), FlxRefusal>
    ensures fills { OnOk result (FillsFromRt S.service E.disk mode (who_asks by.now.task by.now.uic)
        by.now.lun name.now plan.now.source plan.now.blocks
        rt.old rt.new service.old service.new) }
    ensures fails { IfErr result (λ e. FailsToFillFromRt S.service E.disk mode
        (who_asks by.now.task by.now.uic) by.now.lun name.now plan.now.source plan.now.blocks e
        rt.old rt.new service.old service.new) }
{
    match extend(service, by, plan.blocks) {
        Ok(()) => {}
        Err(refusal) => return Err(FlxRefusal::Files(refusal)),
    }
    copy_file(rt, name, plan.source, mode, service, by)?;
    match ask(service, by, Request::Deaccess(by.lun)) {
        Ok(_) => Ok(()),
        Err(refusal) => Err(FlxRefusal::Files(refusal)),
    }
}

/// Accesses the file to be written, and fills it.
fn fill_file<E: Device, S: Asked>(
    rt: &mut RtAccepted<E>,
    name: &RtName,
    mode: CopyMode,
    plan: &Plan,
    service: &mut S,
    by: &Asker,
    id: FileId,
) -> Result<(), FlxRefusal>
    ensures fills { OnOk result (FillsFile S.service E.disk mode (who_asks by.now.task by.now.uic)
        by.now.lun name.now plan.now.source plan.now.blocks id
        rt.old rt.new service.old service.new) }
    ensures fails { IfErr result (λ e. FailsToFillFile S.service E.disk mode
        (who_asks by.now.task by.now.uic) by.now.lun name.now plan.now.source plan.now.blocks id e
        rt.old rt.new service.old service.new) }
{
    match ask(service, by, Request::Access(id, Mode::Write, by.lun)) {
        Ok(_) => {}
        Err(refusal) => return Err(FlxRefusal::Files(refusal)),
    }
    match fill(rt, name, mode, plan, service, by) {
        Ok(()) => Ok(()),
        Err(refusal) => Err(undo(service, by, Request::Deaccess(by.lun), refusal)),
    }
}

/// Makes a file as it was planned, from the file of a name.
pub fn make<E: Device, S: Asked>(
    rt: &mut RtAccepted<E>,
    name: &RtName,
    mode: CopyMode,
    plan: &Plan,
    service: &mut S,
    by: &Asker,
    entry: &Entry,
) -> Result<(), FlxRefusal>
    ensures makes { (pieces : List (List ℕ)) → OnOk result (MakesCopy S.service E.disk mode
        (who_asks by.now.task by.now.uic) by.now.lun name.now plan.now.source plan.now.blocks
        (as_file entry.now.name entry.now.dir entry.now.protection plan.now.attr pieces)
        rt.old rt.new service.old service.new) }
    ensures fails { (pieces : List (List ℕ)) → IfErr result (λ e. FailsToMakeCopy S.service E.disk
        mode (who_asks by.now.task by.now.uic) by.now.lun name.now plan.now.source plan.now.blocks
        (as_file entry.now.name entry.now.dir entry.now.protection plan.now.attr pieces) e
        rt.old rt.new service.old service.new) }
{
    let id = match create(service, by, &entry.name, plan.attr) {
        Ok(id) => id,
        Err(refusal) => return Err(FlxRefusal::Files(refusal)),
    };
    match fill_file(rt, name, mode, plan, service, by, id) {
        Ok(()) => {}
        Err(refusal) => return Err(undo(service, by, Request::Delete(id), refusal)),
    }
    match enter(service, by, entry, id) {
        Ok(()) => Ok(()),
        Err(refusal) => { Err(undo(service, by, Request::Delete(id), FlxRefusal::Files(refusal))) }
    }
}
