//! Records that are put into a directory that was looked through: in place of an empty one, or at its end.
ghost use Rattle.std.specs.Prelude.{◌≡◌, ◌+◌, ◌*◌, ◌/◌, ◌<◌, ◌≤◌, false, true, IfErr, IfOk, OnOk, Some, []};
ghost use Rattle.std.specs.List.{slice_get};
ghost use Rattle.f11_entries.specs.Costs.{append_cost};
ghost use Rattle.f11_files.specs.Answers.{is_fatal, is_clean, is_refused, Breaks, FailsToRead, ReadsAtMost};
ghost use Rattle.f11_store.specs.File.{most_blocks};
ghost use Rattle.f11_files.specs.Open.{counts_in, disk_in, has_failed, home_in, is_honest, store_in, IsIdFrom, CallSparesLost};
ghost use Rattle.f11_fcp.specs.Entries.{Appending, Appends, FailsToPut, HasEmpty, IsDirectoryEnd, IsFull, IsDirectoryTail, PutsEntry};
ghost use Rattle.f11_fcp.specs.Windows.{LeavesRows};
ghost use Rattle.f11_store.specs.Cost.{header_count};
ghost use Rattle.f11_store.specs.Directory.{record_bytes};
ghost use Rattle.f11_store.specs.Store.{file_named};

use crate::answer::of_known;
use crate::entry::replace_entry;
use crate::search::Search;
use crate::tail::Tail;
use f11_bytes::{Block, zeros};
use f11_dev::Device;
use f11_entries::{Spot, moved_end};
use f11_files::Files;
use f11_rad50::Name;
use f11_store::{Change, FileId, Refusal};

/// The bytes of a record.
const RECORD_SIZE: u32 = 16;

/// The records of a block.
const RECORDS: u32 = 32;

/// The block of a directory in which its next record goes, where it has room for it. Where its records end with a block, it is read.
fn end_block<D: Device>(
    files: &mut Files<D>,
    directory: FileId,
    found: &Search,
) -> Result<Block, Refusal>
    requires id { IsIdFrom 4 directory }
    requires alive { has_failed files.old ≡ false }
    requires room { found.now.count < 32 * found.now.length }
    requires there { is_honest files.old → IsDirectoryEnd found.now (store_in files.old) directory }
    ensures block { IfOk result (λ block. is_honest files.old
        → slice_get (file_named (store_in files.old) directory).blocks (found.now.count / 32)
        ≡ Some block) }
    ensures reads { OnOk result (ReadsAtMost (header_count (file_named (store_in files.old) directory) + 1)
        (disk_in files.old) (disk_in files.new) 0) }
    ensures refused { IfErr result (λ refusal. FailsToRead false []
        (header_count (file_named (store_in files.old) directory) + 1) refusal
        (disk_in files.old) (disk_in files.new)) }
    ensures alive { OnOk result (has_failed files.new ≡ false) }
    ensures home { home_in files.new ≡ home_in files.old }
    ensures lost { CallSparesLost files.old files.new }
{
    if found.count % RECORDS != 0 {
        return Ok(found.last);
    }
    let mut block = zeros();
    match files.read_block(directory, found.count / RECORDS + 1, &mut block) {
        Ok(()) => Ok(block),
        Err(refusal) => Err(of_known(refusal)),
    }
}

/// The place of the next record of a directory, in this block of it, where it has so many.
fn tail_at(found: &Search, number: u32, place: usize, block: &Block, length: u32) -> Tail
    requires near { number ≤ most_blocks }
    requires within { place < 32 }
    requires few { length ≤ most_blocks + 1 }
    ensures number { result.spot.number ≡ number }
    ensures place { result.spot.place ≡ place }
    ensures block { result.spot.block ≡ block.now }
    ensures attr { result.attr ≡ found.now.attr.attr }
    ensures length { result.length ≡ length }
{
    let spot = Spot {
        number,
        place,
        block: *block,
    };
    Tail {
        spot,
        attr: found.attr.attr,
        length,
    }
}

/// Puts a record behind the last one of a directory, and then moves the end past it: one write of its block and one of the header. It is
/// refused only where that fails the volume.
fn append_entry<D: Device>(
    files: &mut Files<D>,
    directory: FileId,
    tail: &Tail,
    file: FileId,
    name: &Name,
) -> Result<(), Refusal>
    requires id { IsIdFrom 4 directory }
    requires alive { has_failed files.old ≡ false }
    requires there { is_honest files.old → IsDirectoryTail tail.now (store_in files.old) directory }
    ensures appended { OnOk result (Appends (home_in files.old) directory tail.now
        (record_bytes file name.now) (disk_in files.old) (disk_in files.new)) }
    ensures refused { IfErr result (λ refusal. Breaks
        (Appending (home_in files.old) directory tail.now (record_bytes file name.now)
        (disk_in files.old))
        (append_cost (file_named (store_in files.old) directory)) refusal
        (disk_in files.old) (disk_in files.new)) }
    ensures alive { OnOk result (has_failed files.new ≡ false) }
    ensures rows { OnOk result (LeavesRows files.old files.new) }
    ensures home { home_in files.new ≡ home_in files.old }
    ensures lost { CallSparesLost files.old files.new }
{
    replace_entry(files, directory, &tail.spot, file, name)?;
    let count = RECORDS * tail.spot.number + tail.spot.place as u32 + 1;
    let attr = moved_end(&tail.attr, tail.length, RECORD_SIZE * count);
    match files.write_attr(directory, &Change::Attr(attr)) {
        Ok(()) => Ok(()),
        Err(refusal) => Err(of_known(refusal)),
    }
}

/// Puts a record at the end of a directory whose last block has room for it. It is refused only where that fails the volume.
fn append_in_block<D: Device>(
    files: &mut Files<D>,
    directory: FileId,
    found: &Search,
    file: FileId,
    name: &Name,
) -> Result<(), Refusal>
    requires id { IsIdFrom 4 directory }
    requires alive { has_failed files.old ≡ false }
    requires room { found.now.count < 32 * found.now.length }
    requires full { is_honest files.old → IsFull false found.now (store_in files.old) directory }
    ensures put { OnOk result (PutsEntry (home_in files.old) directory (record_bytes file name.now)
        (disk_in files.old) (disk_in files.new)) }
    ensures refused { IfErr result (λ refusal. FailsToPut (home_in files.old) directory
        (record_bytes file name.now) refusal (disk_in files.old) (disk_in files.new)) }
    ensures fatal { IfErr result (λ refusal. is_fatal refusal ≡ true) }
    ensures alive { OnOk result (has_failed files.new ≡ false) }
    ensures rows { OnOk result (LeavesRows files.old files.new) }
    ensures home { home_in files.new ≡ home_in files.old }
    ensures lost { CallSparesLost files.old files.new }
{
    let block = end_block(files, directory, found)?;
    let place = (found.count % RECORDS) as usize;
    let tail = tail_at(found, found.count / RECORDS, place, &block, found.length);
    append_entry(files, directory, &tail, file, name)
}

/// Puts a record at the end of a directory whose records fill its blocks: it gets one more, by the rules for extending a file.
fn append_in_new_block<D: Device>(
    files: &mut Files<D>,
    directory: FileId,
    found: &Search,
    file: FileId,
    name: &Name,
) -> Result<(), Refusal>
    requires id { IsIdFrom 4 directory }
    requires alive { has_failed files.old ≡ false }
    requires full { is_honest files.old → IsFull true found.now (store_in files.old) directory }
    ensures put { OnOk result (PutsEntry (home_in files.old) directory (record_bytes file name.now)
        (disk_in files.old) (disk_in files.new)) }
    ensures refused { IfErr result (λ refusal. FailsToPut (home_in files.old) directory
        (record_bytes file name.now) refusal (disk_in files.old) (disk_in files.new)) }
    ensures counts { is_refused is_clean result ≡ true → counts_in files.new ≡ counts_in files.old }
    ensures alive { is_refused is_fatal result ≡ false → has_failed files.new ≡ false }
    ensures rows { OnOk result (LeavesRows files.old files.new) }
    ensures home { home_in files.new ≡ home_in files.old }
    ensures lost { CallSparesLost files.old files.new }
{
    match files.extend(directory, 1) {
        Ok(_) => {}
        Err(refusal) => return Err(of_known(refusal)),
    }
    let tail = tail_at(found, found.length, 0, &zeros(), found.length + 1);
    append_entry(files, directory, &tail, file, name)
}

/// Enters a record into a directory that was looked through, of which this is the first empty record: in its place, or at the end.
///
/// # Errors
///
/// Where one more block is needed `TooManySegments`, `DeviceFull`, `NoHeader`, `NoMemory`.
pub(crate) fn put_entry<D: Device>(
    files: &mut Files<D>,
    directory: FileId,
    found: &Search,
    empty: Option<Spot>,
    file: FileId,
    name: &Name,
) -> Result<(), Refusal>
    requires id { IsIdFrom 4 directory }
    requires alive { has_failed files.old ≡ false }
    requires known { is_honest files.old
        → HasEmpty empty found.now (store_in files.old) directory }
    ensures put { OnOk result (PutsEntry (home_in files.old) directory (record_bytes file name.now)
        (disk_in files.old) (disk_in files.new)) }
    ensures refused { IfErr result (λ refusal. FailsToPut (home_in files.old) directory
        (record_bytes file name.now) refusal (disk_in files.old) (disk_in files.new)) }
    ensures counts { is_refused is_clean result ≡ true → counts_in files.new ≡ counts_in files.old }
    ensures alive { is_refused is_fatal result ≡ false → has_failed files.new ≡ false }
    ensures rows { OnOk result (LeavesRows files.old files.new) }
    ensures home { home_in files.new ≡ home_in files.old }
    ensures lost { CallSparesLost files.old files.new }
{
    match empty {
        Some(spot) => replace_entry(files, directory, &spot, file, name),
        None => {
            if found.count >= RECORDS * found.length {
                return append_in_new_block(files, directory, found, file, name);
            }
            append_in_block(files, directory, found, file, name)
        }
    }
}
