//! Records of a directory that was looked through, replaced where they stand.
ghost use Rattle.std.specs.Prelude.{◌≡◌, ◌+◌, ◌<◌, ◌≤◌, ◌^◌, false, IfErr, IfOk, OnOk};
ghost use Rattle.f11_files.specs.Answers.{Breaks, Meanwhile};
ghost use Rattle.f11_files.specs.Finding.Blocks.{StoresBlock, block_work};
ghost use Rattle.f11_files.specs.Open.{disk_in, has_failed, home_in, is_honest, store_in, IsIdFrom, CallSparesLost};
ghost use Rattle.f11_fcp.specs.Entries.{BreaksReplacing, HasBlocks, HoldsSpot, ReplacesEntry};
ghost use Rattle.f11_fcp.specs.Windows.{LeavesRows};
ghost use Rattle.f11_store.specs.Cost.{header_count};
ghost use Rattle.f11_store.specs.Directory.{empty_record, record_bytes};
ghost use Rattle.f11_store.specs.Store.{file_named};

use crate::answer::of_known;
use f11_bytes::Block;
use f11_dev::Device;
use f11_entries::Spot;
use f11_entries::f11_dir::{clear, put};
use f11_files::Files;
use f11_rad50::Name;
use f11_store::{FileId, Refusal};

/// Block `number` of a directory that was read, from 0, becomes this one. It is refused only where that fails the volume.
fn write_known<D: Device>(
    files: &mut Files<D>,
    directory: FileId,
    number: u32,
    block: &Block,
) -> Result<(), Refusal>
    requires id { IsIdFrom 4 directory }
    requires few { number < 2 ^ 23 }
    requires alive { has_failed files.old ≡ false }
    requires there { is_honest files.old → HasBlocks (store_in files.old) directory (number + 1) }
    ensures written { OnOk result (StoresBlock (home_in files.old) directory (number + 1) block.now
        (disk_in files.old) (disk_in files.new)) }
    ensures refused { IfErr result (λ refusal. Breaks
        (Meanwhile (block_work directory (number + 1) block.now) (home_in files.old) (disk_in files.old))
        (header_count (file_named (store_in files.old) directory) + 1) refusal
        (disk_in files.old) (disk_in files.new)) }
    ensures alive { OnOk result (has_failed files.new ≡ false) }
    ensures home { home_in files.new ≡ home_in files.old }
    ensures lost { CallSparesLost files.old files.new }
{
    match files.write_block(directory, number + 1, block) {
        Ok(()) => Ok(()),
        Err(refusal) => Err(of_known(refusal)),
    }
}

/// A record in a place that is in hand becomes that of a file under a name: one write of its block. It is refused only where that fails the
/// volume.
pub(crate) fn replace_entry<D: Device>(
    files: &mut Files<D>,
    directory: FileId,
    spot: &Spot,
    file: FileId,
    name: &Name,
) -> Result<(), Refusal>
    requires id { IsIdFrom 4 directory }
    requires alive { has_failed files.old ≡ false }
    requires there { is_honest files.old → HoldsSpot (store_in files.old) directory spot.now }
    ensures replaced { OnOk result (ReplacesEntry (home_in files.old) directory spot.now
        (record_bytes file name.now) (disk_in files.old) (disk_in files.new)) }
    ensures refused { IfErr result (λ refusal. BreaksReplacing (home_in files.old) directory spot.now
        (record_bytes file name.now) refusal (disk_in files.old) (disk_in files.new)) }
    ensures alive { OnOk result (has_failed files.new ≡ false) }
    ensures rows { OnOk result (LeavesRows files.old files.new) }
    ensures home { home_in files.new ≡ home_in files.old }
    ensures lost { CallSparesLost files.old files.new }
{
    let mut block = spot.block;
    put(&mut block, spot.place, file, name);
    write_known(files, directory, spot.number, &block)
}

/// A record in a place that is in hand becomes empty: one write of its block. It is refused only where that fails the volume.
pub(crate) fn clear_entry<D: Device>(
    files: &mut Files<D>,
    directory: FileId,
    spot: &Spot,
) -> Result<(), Refusal>
    requires id { IsIdFrom 4 directory }
    requires alive { has_failed files.old ≡ false }
    requires there { is_honest files.old → HoldsSpot (store_in files.old) directory spot.now }
    ensures replaced { OnOk result (ReplacesEntry (home_in files.old) directory spot.now
        empty_record (disk_in files.old) (disk_in files.new)) }
    ensures refused { IfErr result (λ refusal. BreaksReplacing (home_in files.old) directory spot.now
        empty_record refusal (disk_in files.old) (disk_in files.new)) }
    ensures alive { OnOk result (has_failed files.new ≡ false) }
    ensures rows { OnOk result (LeavesRows files.old files.new) }
    ensures home { home_in files.new ≡ home_in files.old }
    ensures lost { CallSparesLost files.old files.new }
{
    let mut block = spot.block;
    clear(&mut block, spot.place);
    write_known(files, directory, spot.number, &block)
}
