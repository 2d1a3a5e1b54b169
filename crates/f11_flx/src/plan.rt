//! What is found of a file on an RT-11 volume before its copy is made.
ghost use Rattle.std.specs.Prelude.{◌≡◌, IfErr, IfOk};
ghost use Rattle.f11_flx.specs.Planning.{FailsToPlan, Plans};

use crate::attributes::{image_attributes, text_attributes};
use crate::dry::Dry;
use crate::mode::CopyMode;
use crate::pass::copy_lines;
use crate::refusal::FlxRefusal;
use crate::rt_source::find;
use f11_dev::Device;
use f11_making::Asker;
use rt11_volume::{RtAccepted, RtName};

/// How many blocks a file on an RT-11 volume has, how many its copy has, and the copy's attributes.
#[derive(Clone, Copy, Debug)]
pub struct Plan {
    pub source: u16,
    pub blocks: u32,
    pub attr: [u8; 32],
}

/// Finds the file of a name, and judges its copy: in mode `Text` its lines are walked over.
pub fn judge<E: Device>(
    rt: &mut RtAccepted<E>,
    name: &RtName,
    mode: CopyMode,
    by: &Asker,
) -> Result<Plan, FlxRefusal>
    ensures plans { IfOk result (λ p. Plans E.disk mode name.now p.source p.blocks p.attr
        rt.old rt.new) }
    ensures fails { IfErr result (λ e. FailsToPlan E.disk mode name.now e rt.old rt.new) }
{
    let source = match find(rt, name) {
        Ok(source) => source,
        Err(refusal) => return Err(FlxRefusal::Rt(refusal)),
    };
    match mode {
        CopyMode::Image => Ok(Plan {
            source,
            blocks: u32::from(source),
            attr: image_attributes(u32::from(source)),
        }),
        CopyMode::Text => match copy_lines(rt, name, source, &mut Dry, by) {
            Ok(extent) => Ok(Plan {
                source,
                blocks: extent.blocks,
                attr: text_attributes(extent.longest, extent.blocks, extent.end),
            }),
            Err(refusal) => Err(refusal),
        },
    }
}
