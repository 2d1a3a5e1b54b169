//! A file on an RT-11 volume that is read.
ghost use Rattle.std.specs.Prelude.{◌≡◌, IfOk, IfErr, OnOk};
ghost use Rattle.f11_flx.specs.RtSource.{FailsToReadPlace, FindsRtFile, FindsNoRtFile, ReadsPlace};

use f11_bytes::Block;
use f11_dev::Device;
use rt11_volume::{RtAccepted, RtName, RtRefusal};

/// Finds the file of a name: how many blocks it has.
pub fn find<E: Device>(rt: &mut RtAccepted<E>, name: &RtName) -> Result<u16, RtRefusal>
    ensures found { IfOk result (λ blocks. FindsRtFile E.disk name.now blocks rt.old rt.new) }
    ensures refused { IfErr result (λ e. FindsNoRtFile E.disk name.now e rt.old rt.new) }
{
    let (_, blocks) = rt.find(name)?;
    Ok(blocks)
}

/// Reads the block at a place of the file, from 0.
pub fn read<E: Device>(
    rt: &mut RtAccepted<E>,
    name: &RtName,
    place: u16,
    into: &mut Block,
) -> Result<(), RtRefusal>
    ensures read { OnOk result (ReadsPlace E.disk name.now place into.new rt.old rt.new) }
    ensures refused { IfErr result (λ e. FailsToReadPlace E.disk name.now place e rt.old rt.new) }
{
    rt.read(name, place, into)
}
