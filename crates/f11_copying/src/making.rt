//! A file made of the blocks of a source, on whatever answers for the volume.
ghost use Rattle.std.specs.Prelude.{◌≡◌};
ghost use Rattle.f11_making.specs.Asking.{who_asks};
ghost use Rattle.f11_copying.specs.Copies.{copies, enters, fills_and_finishes, finishes, without_end};
ghost use Rattle.f11_copying.specs.Courses.{Runs, both};

use crate::fault::CopyFault;
use crate::file::FileToMake;
use crate::filling::fill_file;
use crate::source::Blocks;
use crate::steps::{ask_volume, ask_volume_for, undo};
use f11_bytes::put_bytes;
use f11_making::{Asked, Asker};
use f11_rad50::Name;
use f11_store::{Change, FileId, Request};

/// F.EFBK and F.FFBY, where the file ends: six bytes.
const END: usize = 8;

/// The attributes without an end.
fn without_end(attr: &[u8; 32]) -> [u8; 32]
    ensures { result ≡ without_end attr.now }
{
    let mut open = *attr;
    put_bytes(&mut open, END, &[0; 6]);
    open
}

/// Enters the file, and protects it; its name is removed where that is refused.
fn enter<S: Asked, B: Blocks>(
    service: &mut S,
    by: &Asker,
    source: &B,
    file: &FileToMake,
    dir: FileId,
    name: &Name,
    id: FileId,
) -> Result<(), CopyFault>
    ensures runs { Runs S.service B.gives (who_asks by.now.task by.now.uic) (enters file.now dir name.now id) result
        (both service.old source.now) (both service.new source.now) }
{
    ask_volume(service, by, source, Request::Enter(dir, *name, id))?;
    let protected = Change::Protect(file.protection);
    match ask_volume(service, by, source, Request::WriteAttr(id, protected)) {
        Ok(()) => Ok(()),
        Err(fault) => Err(undo(service, by, source, Request::Remove(dir, *name), fault)),
    }
}

/// Gives the file its attributes, enters it, and protects it.
fn finish<S: Asked, B: Blocks>(
    service: &mut S,
    by: &Asker,
    source: &B,
    file: &FileToMake,
    dir: FileId,
    name: &Name,
    id: FileId,
) -> Result<(), CopyFault>
    ensures runs { Runs S.service B.gives (who_asks by.now.task by.now.uic) (finishes file.now dir name.now id) result
        (both service.old source.now) (both service.new source.now) }
{
    let stated = Change::Attr(file.attr);
    ask_volume(service, by, source, Request::WriteAttr(id, stated))?;
    enter(service, by, source, file, dir, name, id)
}

/// Fills the file, and finishes it.
fn fill_and_finish<S: Asked, B: Blocks>(
    service: &mut S,
    by: &Asker,
    source: &mut B,
    file: &FileToMake,
    dir: FileId,
    name: &Name,
    id: FileId,
) -> Result<(), CopyFault>
    ensures runs { Runs S.service B.gives (who_asks by.now.task by.now.uic)
        (fills_and_finishes file.now by.now.lun dir name.now id) result
        (both service.old source.old) (both service.new source.new) }
{
    fill_file(service, by, source, file.blocks, file.in_one_run, id)?;
    finish(service, by, source, file, dir, name, id)
}

/// Makes a file: it is created, filled and finished, and deleted where that breaks off.
pub(crate) fn make_file<S: Asked, B: Blocks>(
    service: &mut S,
    by: &Asker,
    source: &mut B,
    file: &FileToMake,
    dir: FileId,
    name: &Name,
) -> Result<FileId, CopyFault>
    ensures runs { Runs S.service B.gives (who_asks by.now.task by.now.uic) (copies file.now by.now.lun dir name.now) result
        (both service.old source.old) (both service.new source.new) }
{
    let asked = Request::Create {
        protection: 0,
        ident: file.ident,
        attr: without_end(&file.attr),
    };
    let id = ask_volume_for(service, by, source, file.owner, asked)?;
    match fill_and_finish(service, by, source, file, dir, name, id) {
        Ok(()) => Ok(id),
        Err(fault) => Err(undo(service, by, source, Request::Delete(id), fault)),
    }
}
