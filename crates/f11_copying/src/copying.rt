//! A file made on a volume, of the blocks of a source.
ghost use Rattle.f11_making.specs.Asking.{who_asks};
ghost use Rattle.f11_copying.specs.Carrying.{CarriesCourse};
ghost use Rattle.f11_copying.specs.Copies.{copies};

use crate::fault::CopyFault;
use crate::file::FileToMake;
use crate::making::make_file;
use crate::source::Blocks;
use f11_dev::Device;
use f11_making::Asker;
use f11_making::f11_fcp::Volume;
use f11_rad50::Name;
use f11_store::FileId;

/// Makes a file of the blocks of a source, under a name in a directory: which one it is.
///
/// It is created for its owner, and bars nobody until the end; it is accessed by the asker's lun, which holds no access, gets its blocks, which
/// are those of the source in order, and is given up; it gets its attributes, is entered, and gets its protection. Until it has its blocks it
/// states no end, so that what is stopped leaves no file that looks whole and isn't.
///
/// # Errors
///
/// [`CopyFault::Files`] with the refusal of the first request that is refused, but that where the volume has no such run, or no headers for
/// it, the blocks are laid where there is room; and [`CopyFault::Unread`] where the source gives fewer blocks. Then the file is given up and
/// deleted; where this meets a device fault or `Damaged`, that is the answer, and nothing is asked behind it.
pub fn copy_file<D: Device, B: Blocks>(
    vol: &mut Volume<D>,
    by: &Asker,
    source: &mut B,
    file: &FileToMake,
    dir: FileId,
    name: &Name,
) -> Result<FileId, CopyFault>
    ensures carries { CarriesCourse B.gives (who_asks by.now.task by.now.uic)
        (copies file.now by.now.lun dir name.now) result vol.old vol.new source.old source.new }
{
    make_file(vol, by, source, file, dir, name)
}
