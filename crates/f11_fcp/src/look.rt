//! A directory's records, looked through block by block.
ghost use Rattle.std.specs.Prelude.{◌≡◌, ◌*◌, ◌<◌, ◌≤◌, ◌^◌, false, IfErr, IfOk, OnOk, []};
ghost use Rattle.f11_entries.specs.Costs.{reading_cost};
ghost use Rattle.f11_files.specs.Answers.{FailsToRead};
ghost use Rattle.f11_files.specs.Open.{counts_in, disk_in, has_failed, home_in, is_honest, store_in, IsIdFrom, CallSparesLost};
ghost use Rattle.f11_fcp.specs.Directories.{IsDirectoryOf, LooksThroughDirectory};
ghost use Rattle.f11_store.specs.Store.{file_named};

use crate::answer::of_known;
use crate::table::Held;
use crate::windows::read_by;
use f11_bytes::Block;
use f11_chain::Window;
use f11_dev::Device;
use f11_entries::f11_dir::find;
use f11_entries::{Looked, Spot, or_first_empty};
use f11_files::Files;
use f11_rad50::Name;
use f11_store::{FileId, Mode, Refusal};

/// Looks for a name among the `count` records of a directory. Each of its blocks is read once, in order, up to the one with the record; the
/// last one that is read is left in `block`. They are reached by a window, as those of an access are: a block that stands in it takes one
/// transfer. It is refused only where that fails the volume.
pub(crate) fn look_through<D: Device>(
    files: &mut Files<D>,
    directory: FileId,
    count: u32,
    name: &Name,
    block: &mut Block,
) -> Result<Looked, Refusal>
    requires id { IsIdFrom 4 directory }
    requires few { count < 2 ^ 28 }
    requires alive { has_failed files.old ≡ false }
    requires there { is_honest files.old → IsDirectoryOf count (store_in files.old) directory }
    ensures looked { IfOk result (λ told. LooksThroughDirectory (home_in files.old) directory name.now told
        block.new (reading_cost (file_named (store_in files.old) directory) count)
        (disk_in files.old) (disk_in files.new)) }
    ensures refused { IfErr result (λ refusal. FailsToRead false []
        (reading_cost (file_named (store_in files.old) directory) count) refusal
        (disk_in files.old) (disk_in files.new)) }
    ensures alive { OnOk result (has_failed files.new ≡ false) }
    ensures told { counts_in files.new ≡ counts_in files.old }
    ensures home { home_in files.new ≡ home_in files.old }
    ensures lost { CallSparesLost files.old files.new }
{
    let mut empty: Option<Spot> = None;
    let mut window = Window::empty();
    for number in 0..count.div_ceil(32) {
        let held = Held {
            file: directory,
            mode: Mode::Read,
            marked: false,
            window,
        };
        match read_by(files, &held, number + 1, block) {
            Ok(next) => window = next,
            Err(refusal) => return Err(of_known(refusal)),
        }
        let upto = (count - 32 * number).min(32) as usize;
        if let Some(found) = find(block, upto, name) {
            let spot = Spot {
                number,
                place: found.place,
                block: *block,
            };
            return Ok(Looked::Found(spot, found.id));
        }
        empty = or_first_empty(empty, number, block, upto);
    }
    Ok(Looked::Absent(empty))
}
