//! One pass over a file on an RT-11 volume, whose copy is written.
ghost use Rattle.std.specs.Prelude.{◌≡◌, IfErr, IfOk, OnOk};
ghost use Rattle.f11_making.specs.Asking.{who_asks};
ghost use Rattle.f11_flx.specs.Passes.{CopiesFile, FailsToCopyFile};
ghost use Rattle.f11_flx.specs.Spelled.{image_attributes, text_attributes};
ghost use Rattle.f11_flx.specs.declared.mode.CopyMode.TheVariants as mode;

use crate::filling::Filling;
use crate::lines::{Extent, end_lines, read_lines};
use crate::refusal::FlxRefusal;
use crate::rt_source::read;
use crate::to_records::ToRecords;
use f11_bytes::BLOCK_SIZE;
use f11_dev::Device;
use f11_making::{Asked, Asker, write};
use rt11_volume::{RtAccepted, RtName};

/// Copies so many blocks as they are.
pub fn copy_image<E: Device, S: Asked>(
    rt: &mut RtAccepted<E>,
    name: &RtName,
    many: u16,
    service: &mut S,
    by: &Asker,
) -> Result<(), FlxRefusal>
    ensures copied { OnOk result (CopiesFile S.service E.disk mode.Image
        (who_asks by.now.task by.now.uic) by.now.lun name.now many many (image_attributes many)
        rt.old rt.new service.old service.new) }
    ensures fails { IfErr result (λ e. FailsToCopyFile S.service E.disk mode.Image
        (who_asks by.now.task by.now.uic) by.now.lun name.now many e
        rt.old rt.new service.old service.new) }
{
    let mut block = [0; BLOCK_SIZE];
    for place in 0..many {
        match read(rt, name, place, &mut block) {
            Ok(()) => {}
            Err(refusal) => return Err(FlxRefusal::Rt(refusal)),
        }
        match write(service, by, u32::from(place) + 1, &mut block) {
            Ok(()) => {}
            Err(refusal) => return Err(FlxRefusal::Files(refusal)),
        }
    }
    Ok(())
}

/// Copies the lines of so many blocks.
pub fn copy_lines<E: Device, S: Asked>(
    rt: &mut RtAccepted<E>,
    name: &RtName,
    many: u16,
    service: &mut S,
    by: &Asker,
) -> Result<Extent, FlxRefusal>
    ensures copied { IfOk result (λ e. CopiesFile S.service E.disk mode.Text
        (who_asks by.now.task by.now.uic) by.now.lun name.now many e.blocks
        (text_attributes e.longest e.blocks e.end)
        rt.old rt.new service.old service.new) }
    ensures fails { IfErr result (λ e. FailsToCopyFile S.service E.disk mode.Text
        (who_asks by.now.task by.now.uic) by.now.lun name.now many e
        rt.old rt.new service.old service.new) }
{
    let mut lines = ToRecords::new();
    let mut out = Filling::new();
    read_lines(rt, name, many, &mut lines, &mut out, service, by)?;
    end_lines(&mut lines, &mut out, service, by)
}
