//! The commands `flx-to-rt` and `flx-from-rt`.

mod behind;
pub(crate) mod names;
mod serving;

ghost use Rattle.f11_commands.specs.CopyCommand.{EndsCopy};
ghost use Rattle.f11_commands.specs.declared.copy.Direction.TheVariants as direction;

use crate::copy::behind::{files_behind, rt_behind};
use crate::copy::serving::serve;
use crate::outcome::{Failure, FileAnswer};
use crate::verifying::{accept_files, accept_rt};
use f11_dev::Device;
use f11_flx::CopyMode;
use f11_rad50::Name;
use f11_store::Uic;
use rt11_volume::RtName;
use std::alloc::Global;
use std::io::Write;

/// Which volume a file is copied to.
#[derive(Clone, Copy, Debug, PartialEq, Eq)]
pub enum Direction {
    /// To the RT-11 volume.
    ToRt,
    /// From the RT-11 volume, to the Files-11 one.
    FromRt,
}

/// Which file is copied, and how.
#[derive(Clone, Copy, Debug)]
pub struct Copying {
    /// To which volume.
    pub direction: Direction,
    /// As it is, or as text.
    pub mode: CopyMode,
    /// Whose directory it stands in on the Files-11 volume, or gets to stand in.
    pub directory: Uic,
    /// Its name there.
    pub name: Name,
    /// Its name on the RT-11 volume.
    pub rt_name: RtName,
}

/// Verifies a Files-11 volume and an RT-11 volume, the one that is copied from first, and copies a file from the one to the other, as
/// [`copy_to_rt`](f11_flx::copy_to_rt) and [`copy_from_rt`](f11_flx::copy_from_rt) do. Then it syncs the one that was copied to, and writes
/// the line `copied N`, N being how many blocks the copy has, or `no` and the refusal's name. Where a volume has a fault nothing is copied,
/// and its report is written, as `vfy` and `rt-vfy` have it; where both have, both reports are, that of the one that is copied from first.
/// Both devices come back.
///
/// The directory on the Files-11 volume is the one that [4,4]'s file has under the name of the user's code, as `200001.DIR;1`. The operator, [1,1],
/// asks; the copy has the protection 0, or the date 0.
///
/// # Errors
///
/// [`Failure::DeviceFault`] where a transfer failed, or the sync when the copy is made, [`Failure::NoMemory`] where there was no memory, and
/// [`Failure::CannotWrite`] where the writer takes no more: then the copy may be made.
pub fn print_copy<D: Device, E: Device, W: Write>(
    alloc: Global,
    files: D,
    rt: E,
    copy: &Copying,
    writer: &mut W,
) -> (D, E, Result<FileAnswer, Failure>)
    ensures ends { EndsCopy copy.now.direction copy.now result.2 (D.disk files) (D.disk result.0)
        (E.disk rt) (E.disk result.1) W.contents writer.old writer.new }
{
    match copy.direction {
        Direction::ToRt => copy_to_rt(alloc, files, rt, copy, writer),
        Direction::FromRt => copy_from_rt(alloc, files, rt, copy, writer),
    }
}

/// Verifies the Files-11 volume first.
fn copy_to_rt<D: Device, E: Device, W: Write>(
    alloc: Global,
    files: D,
    rt: E,
    copy: &Copying,
    writer: &mut W,
) -> (D, E, Result<FileAnswer, Failure>)
    ensures ends { EndsCopy direction.ToRt copy.now result.2 (D.disk files) (D.disk result.0)
        (E.disk rt) (E.disk result.1) W.contents writer.old writer.new }
{
    match accept_files(alloc, files, writer) {
        Ok(accepted) => match accept_rt(alloc, rt, writer) {
            Ok(volume) => serve(alloc, accepted, volume, copy, writer),
            Err((rt, told)) => (accepted.device(), rt, told),
        },
        Err((files, first)) => {
            let (rt, told) = rt_behind(alloc, rt, first, writer);
            (files, rt, told)
        }
    }
}

/// Verifies the RT-11 volume first.
fn copy_from_rt<D: Device, E: Device, W: Write>(
    alloc: Global,
    files: D,
    rt: E,
    copy: &Copying,
    writer: &mut W,
) -> (D, E, Result<FileAnswer, Failure>)
    ensures ends { EndsCopy direction.FromRt copy.now result.2 (D.disk files) (D.disk result.0)
        (E.disk rt) (E.disk result.1) W.contents writer.old writer.new }
{
    match accept_rt(alloc, rt, writer) {
        Ok(volume) => match accept_files(alloc, files, writer) {
            Ok(accepted) => serve(alloc, accepted, volume, copy, writer),
            Err((files, told)) => (files, volume.device(), told),
        },
        Err((rt, first)) => {
            let (files, told) = files_behind(alloc, files, first, writer);
            (files, rt, told)
        }
    }
}
