//! What is done to a file of a volume by its name.
ghost use Rattle.f11_making.specs.Asking.{who_asks};
ghost use Rattle.f11_making.specs.Actions.{plan_of};
ghost use Rattle.f11_making.specs.Carrying.{Carries};
ghost use Rattle.f11_making.specs.Plans.{makes_empty};

use crate::action::Action;
use crate::asked::Asker;
use crate::plans::{act, make_empty};
use f11_dev::Device;
use f11_fcp::Volume;
use f11_rad50::Name;
use f11_store::{FileId, Refusal, Uic};

/// Does to a file what is to be done, where `master` is the directory that has the others.
///
/// A deletion removes the name first, and enters it again where the file can't be deleted; where there is no such file the name was all. A
/// file that is renamed gets its new name first, in its own header and in the directory, and the old one there again where the rest is refused.
/// A file that is truncated keeps the blocks up to its end, and states them; where its attributes name no type of records there is no end:
/// `BadArgument`. A directory that is made is created for its owner, entered, and protected, and deleted where that is refused. To files 1 to
/// 5, the volume's own, nothing is done: `SystemFile`; nor to one of another volume of a set: `BadArgument`.
///
/// # Errors
///
/// The refusal of the first request that is refused: of the look for a directory or the name, or of what is done then; or a device fault or
/// `Damaged` that was met in undoing.
pub fn carry_out<D: Device>(
    vol: &mut Volume<D>,
    by: &Asker,
    master: FileId,
    action: &Action,
) -> Result<(), Refusal>
    ensures carries { Carries (who_asks by.now.task by.now.uic) (plan_of by.now.lun master action.now) result
        vol.old vol.new }
{
    act(vol, by, master, action)
}

/// Makes a file without blocks for its owner: created, entered and protected; it is deleted where its name can't be entered, or the protection
/// isn't granted, and then the name stays.
///
/// # Errors
///
/// As of [`carry_out`]: of the creation, of the entry, or of the protection.
pub fn make<D: Device>(
    vol: &mut Volume<D>,
    by: &Asker,
    owner: Uic,
    dir: FileId,
    name: &Name,
    protection: u16,
    attr: [u8; 32],
) -> Result<(), Refusal>
    ensures carries { Carries (who_asks by.now.task by.now.uic) (makes_empty owner dir name.now protection attr) result
        vol.old vol.new }
{
    make_empty(vol, by, owner, dir, name, protection, attr)
}
