//! A copy to an RT-11 volume, of whatever answers for the Files-11 volume.
ghost use Rattle.f11_store.specs.File.{most_blocks};
ghost use Rattle.std.specs.Prelude.{◌≡◌, ◌≤◌, IfErr, IfOk, OnErr, OnOk};
ghost use Rattle.f11_making.specs.Asking.{who_asks};
ghost use Rattle.f11_flx.specs.Refusal.{is_lethal};
ghost use Rattle.rt11_volume.specs.Files.{is_fault};
ghost use Rattle.f11_flx.specs.ToRt.{CountsAs, FailsToCountAs, FailsToFillToRt, FillsToRt, CopiesLocked, FailsLocked, GaveUp, UndoesToRt, CopiesFileToRt, FailsToCopyFileToRt};

use crate::attributes::image_blocks;
use crate::mode::CopyMode;
use crate::refusal::FlxRefusal;
use crate::source::{Source, copy, copy_lines, look};
use crate::target::{Nowhere, delete, make_file};
use f11_dev::Device;
use f11_making::{Asked, Asker, ask, is_fatal};
use f11_store::{FileId, Mode, Request};
use rt11_volume::{RtAccepted, RtName, RtRefusal};

/// Whether a refusal is a device fault or `Damaged`.
pub fn is_lethal(refusal: &FlxRefusal) -> bool
    ensures { result ≡ is_lethal refusal.now }
{
    match refusal {
        FlxRefusal::Files(refusal) => is_fatal(*refusal),
        FlxRefusal::Rt(refusal) => is_fault(refusal),
        FlxRefusal::BadRecord => false,
        FlxRefusal::LineTooLong => false,
        FlxRefusal::Unread => false,
    }
}

/// Whether a refusal is that of a transfer that failed.
fn is_fault(refusal: &RtRefusal) -> bool
    ensures { result ≡ is_fault refusal.now }
{
    matches!(refusal, RtRefusal::DeviceFault)
}

/// Deletes the file that was made, after a refusal that is no device fault or `Damaged`: what is answered then.
fn undo<E: Device>(rt: &mut RtAccepted<E>, name: &RtName, refusal: FlxRefusal) -> FlxRefusal
    ensures { UndoesToRt E.disk name.now refusal result rt.old rt.new }
{
    if is_lethal(&refusal) {
        return refusal;
    }
    match delete(rt, name) {
        Ok(()) => refusal,
        Err(other) => {
            if is_fault(&other) {
                FlxRefusal::Rt(other)
            } else {
                refusal
            }
        }
    }
}

/// Gives up the access to the source, after a refusal that is no device fault or `Damaged`: what is answered then.
fn give_up<S: Asked>(service: &mut S, by: &Asker, refusal: FlxRefusal) -> FlxRefusal
    ensures { GaveUp S.service (who_asks by.now.task by.now.uic) by.now.lun refusal result service.old service.new }
{
    if is_lethal(&refusal) {
        return refusal;
    }
    match ask(service, by, Request::Deaccess(by.lun)) {
        Ok(_) => refusal,
        Err(other) => {
            let other = FlxRefusal::Files(other);
            if is_lethal(&other) { other } else { refusal }
        }
    }
}

/// How many blocks the copy has: the records of a text are walked over.
fn count<S: Asked>(
    service: &mut S,
    by: &Asker,
    source: &Source,
    mode: CopyMode,
    name: &RtName,
) -> Result<u32, FlxRefusal>
    requires { source.now.blocks ≤ most_blocks }
    ensures counted { IfOk result (λ count. CountsAs mode S.service (who_asks by.now.task by.now.uic)
        by.now.lun name.now source.now.attr source.now.blocks count service.old service.new) }
    ensures fails { IfErr result (λ e. FailsToCountAs mode S.service (who_asks by.now.task by.now.uic)
        by.now.lun name.now source.now.attr source.now.blocks e service.old service.new) }
{
    match mode {
        CopyMode::Image => Ok(image_blocks(&source.attr, source.blocks)),
        CopyMode::Text => {
            let mut nowhere = Nowhere;
            copy_lines(service, by, source, &mut nowhere, name)
        }
    }
}

/// Makes the file of so many blocks, and copies the source into it.
fn fill<S: Asked, E: Device>(
    service: &mut S,
    by: &Asker,
    source: &Source,
    mode: CopyMode,
    rt: &mut RtAccepted<E>,
    name: &RtName,
    count: u32,
    date: u16,
) -> Result<(), FlxRefusal>
    requires { source.now.blocks ≤ most_blocks }
    ensures filled { OnOk result (FillsToRt mode S.service E.disk (who_asks by.now.task by.now.uic)
        by.now.lun name.now source.now.attr source.now.blocks count date
        service.old service.new rt.old rt.new) }
    ensures fails { IfErr result (λ e. FailsToFillToRt mode S.service E.disk
        (who_asks by.now.task by.now.uic) by.now.lun name.now source.now.attr source.now.blocks
        count date e service.old service.new rt.old rt.new) }
{
    match make_file(rt, name, u64::from(count), date) {
        Ok(_) => {}
        Err(refusal) => return Err(FlxRefusal::Rt(refusal)),
    }
    match copy(service, by, source, mode, rt, name) {
        Ok(_) => Ok(()),
        Err(refusal) => Err(undo(rt, name, refusal)),
    }
}

/// Copies the source, which is accessed: how many blocks the copy has.
fn copy_locked<S: Asked, E: Device>(
    service: &mut S,
    by: &Asker,
    file: FileId,
    mode: CopyMode,
    rt: &mut RtAccepted<E>,
    name: &RtName,
    date: u16,
) -> Result<u32, FlxRefusal>
    ensures copied { IfOk result (λ count. CopiesLocked mode S.service E.disk
        (who_asks by.now.task by.now.uic) by.now.lun file name.now count date
        service.old service.new rt.old rt.new) }
    ensures fails { IfErr result (λ e. FailsLocked mode S.service E.disk
        (who_asks by.now.task by.now.uic) by.now.lun file name.now date e
        service.old service.new rt.old rt.new) }
{
    let source = match look(service, by, file) {
        Ok(source) => source,
        Err(refusal) => return Err(FlxRefusal::Files(refusal)),
    };
    let count = count(service, by, &source, mode, name)?;
    fill(service, by, &source, mode, rt, name, count, date)?;
    Ok(count)
}

/// Copies a file: how many blocks the copy has.
pub fn copy_file<S: Asked, E: Device>(
    service: &mut S,
    by: &Asker,
    file: FileId,
    mode: CopyMode,
    rt: &mut RtAccepted<E>,
    name: &RtName,
    date: u16,
) -> Result<u32, FlxRefusal>
    ensures copied { IfOk result (λ count. CopiesFileToRt mode S.service E.disk
        (who_asks by.now.task by.now.uic) by.now.lun file name.now count date
        service.old service.new rt.old rt.new) }
    ensures fails { IfErr result (λ e. FailsToCopyFileToRt mode S.service E.disk
        (who_asks by.now.task by.now.uic) by.now.lun file name.now date e
        service.old service.new rt.old rt.new) }
{
    match ask(service, by, Request::Access(file, Mode::Locked, by.lun)) {
        Ok(_) => {}
        Err(refusal) => return Err(FlxRefusal::Files(refusal)),
    }
    let count = match copy_locked(service, by, file, mode, rt, name, date) {
        Ok(count) => count,
        Err(refusal) => return Err(give_up(service, by, refusal)),
    };
    match ask(service, by, Request::Deaccess(by.lun)) {
        Ok(_) => Ok(count),
        Err(refusal) => Err(undo(rt, name, FlxRefusal::Files(refusal))),
    }
}
