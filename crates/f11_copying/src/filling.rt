//! A file that was created is filled with the blocks of a source.
ghost use Rattle.std.specs.Prelude.{◌==◌, true};
ghost use Rattle.f11_making.specs.Asking.{who_asks};
ghost use Rattle.f11_copying.specs.Copies.{allocates, fills, fills_file, fills_if, pours};
ghost use Rattle.f11_copying.specs.Courses.{Runs, both};

use crate::fault::CopyFault;
use crate::source::Blocks;
use crate::steps::{ask_volume, is_lethal, undo};
use f11_bytes::BLOCK_SIZE;
use f11_making::{Asked, Asker, write};
use f11_store::{FileId, Mode, Request};

/// Writes so many blocks of the source to the file that is accessed, from the first one on.
fn pour<S: Asked, B: Blocks>(
    service: &mut S,
    by: &Asker,
    source: &mut B,
    blocks: u32,
) -> Result<(), CopyFault>
    ensures runs { Runs S.service B.gives (who_asks by.now.task by.now.uic) (pours by.now.lun 0 blocks) result
        (both service.old source.old) (both service.new source.new) }
{
    let mut block = [0; BLOCK_SIZE];
    for place in 0..blocks {
        if !source.next(&mut block) {
            return Err(CopyFault::Unread);
        }
        match write(service, by, place + 1, &mut block) {
            Ok(()) => {}
            Err(refusal) => return Err(CopyFault::Files(refusal)),
        }
    }
    Ok(())
}

/// Gives the file that is accessed so many blocks in one run, or where there is room if the volume grants no run.
fn allocate_run<S: Asked, B: Blocks>(
    service: &mut S,
    by: &Asker,
    source: &B,
    blocks: u32,
) -> Result<(), CopyFault>
    ensures runs { Runs S.service B.gives (who_asks by.now.task by.now.uic) (allocates true by.now.lun blocks) result
        (both service.old source.now) (both service.new source.now) }
{
    match ask_volume(service, by, source, Request::Contiguous(by.lun, blocks)) {
        Ok(()) => Ok(()),
        Err(fault) => {
            if is_lethal(fault) {
                return Err(fault);
            }
            ask_volume(service, by, source, Request::Extend(by.lun, blocks))
        }
    }
}

/// Gives the file that is accessed so many blocks, in one run where that is wanted and the volume has one.
fn allocate<S: Asked, B: Blocks>(
    service: &mut S,
    by: &Asker,
    source: &B,
    blocks: u32,
    in_one_run: bool,
) -> Result<(), CopyFault>
    ensures runs { Runs S.service B.gives (who_asks by.now.task by.now.uic) (allocates in_one_run by.now.lun blocks) result
        (both service.old source.now) (both service.new source.now) }
{
    if in_one_run {
        return allocate_run(service, by, source, blocks);
    }
    ask_volume(service, by, source, Request::Extend(by.lun, blocks))
}

/// Fills the file that is accessed with so many blocks of the source, and gives it up.
fn fill<S: Asked, B: Blocks>(
    service: &mut S,
    by: &Asker,
    source: &mut B,
    blocks: u32,
    in_one_run: bool,
) -> Result<(), CopyFault>
    ensures runs { Runs S.service B.gives (who_asks by.now.task by.now.uic) (fills in_one_run by.now.lun blocks) result
        (both service.old source.old) (both service.new source.new) }
{
    allocate(service, by, source, blocks, in_one_run)?;
    pour(service, by, source, blocks)?;
    ask_volume(service, by, source, Request::Deaccess(by.lun))
}

/// Accesses a file, and fills it; it is given up where that breaks off.
fn fill_accessed<S: Asked, B: Blocks>(
    service: &mut S,
    by: &Asker,
    source: &mut B,
    blocks: u32,
    in_one_run: bool,
    id: FileId,
) -> Result<(), CopyFault>
    ensures runs { Runs S.service B.gives (who_asks by.now.task by.now.uic) (fills_file in_one_run by.now.lun blocks id) result
        (both service.old source.old) (both service.new source.new) }
{
    ask_volume(
        service,
        by,
        source,
        Request::Access(id, Mode::Write, by.lun),
    )?;
    match fill(service, by, source, blocks, in_one_run) {
        Ok(()) => Ok(()),
        Err(fault) => Err(undo(service, by, source, Request::Deaccess(by.lun), fault)),
    }
}

/// Fills a file that is to have blocks.
pub(crate) fn fill_file<S: Asked, B: Blocks>(
    service: &mut S,
    by: &Asker,
    source: &mut B,
    blocks: u32,
    in_one_run: bool,
    id: FileId,
) -> Result<(), CopyFault>
    ensures runs { Runs S.service B.gives (who_asks by.now.task by.now.uic)
        (fills_if (blocks == 0) in_one_run by.now.lun blocks id) result
        (both service.old source.old) (both service.new source.new) }
{
    if blocks == 0 {
        return Ok(());
    }
    fill_accessed(service, by, source, blocks, in_one_run, id)
}
