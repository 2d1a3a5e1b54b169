//! A file that is copied to an RT-11 volume, and from there to a volume, by the calls that copy.
ghost use Rattle.std.specs.Prelude.{◌≡◌, true, IfOk};
ghost use Rattle.f11_commands.specs.flx.fcp.Lists.{is_sound, store_of_volume};
ghost use Rattle.f11_commands.specs.flx.Copying.{WhereSound};
ghost use Rattle.f11_commands.specs.flx.ThereAndBack.{IsBack};
ghost use Rattle.f11_making.specs.Making.{new_id};
ghost use Rattle.f11_store.specs.Store.{file_named};

use f11_commands::f11_flx::f11_fcp::Volume;
use f11_commands::f11_flx::{CopyMode, FlxRefusal, copy_from_rt, copy_to_rt};
use f11_dev::Device;
use f11_rad50::Name;
use f11_store::{FileId, Lun, Task, Uic};
use rt11_volume::{RtAccepted, RtName};

/// Copies a file to an RT-11 volume, and from there into a directory of another volume: how many blocks each copy has.
/// Where the volumes are sound, the new file is the source come back.
///
/// # Errors
///
/// The refusal of the first copy that is refused.
#[allow(clippy::too_many_arguments)]
pub fn there_and_back<D: Device, E: Device, F: Device>(
    from: &mut Volume<D>,
    source: FileId,
    rt: &mut RtAccepted<E>,
    name: &RtName,
    to: &mut Volume<F>,
    dir: FileId,
    entry: &Name,
    task: Task,
    lun: Lun,
    uic: Uic,
    mode: CopyMode,
) -> Result<(u32, u32), FlxRefusal>
    ensures back { IfOk result (λ blocks. WhereSound E.disk from.old rt.old (is_sound to.old ≡ true →
        IsBack mode (file_named (store_of_volume from.old) source)
        (file_named (store_of_volume to.new) (new_id (store_of_volume to.old))) blocks.0 blocks.1)) }
{
    let there = copy_to_rt(from, task, lun, uic, source, rt, name, 0, mode)?;
    let back = copy_from_rt(rt, name, to, task, lun, uic, dir, entry, 0, mode)?;
    Ok((there, back))
}
