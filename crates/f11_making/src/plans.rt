//! What is done to a file by its name, on whatever answers for the volume.
ghost use Rattle.std.specs.Prelude.{◌≡◌};
ghost use Rattle.f11_making.specs.Asking.{who_asks};
ghost use Rattle.f11_making.specs.Actions.{plan_of, within};
ghost use Rattle.f11_making.specs.Plans.{cuts, cuts_if, deletes, directory_attributes, enters, finds_other, is_gone, is_own, judged_by};
ghost use Rattle.f11_making.specs.Plans.{is_absent, keeps, makes_directory, makes_empty, may_move, moves, moves_if, protects, renames};
ghost use Rattle.f11_making.specs.Plans.{removes, retitles, shortens, truncates};
ghost use Rattle.f11_making.specs.FilesPlan.{Carried};

use crate::action::Action;
use crate::asked::{Asked, Asker};
use crate::attributes::{
    blocks_to_end, is_directory_ident, is_directory_name, states_end, with_blocks, with_name,
};
use crate::purge::purge;
use crate::steps::{ask_attributes, ask_done, ask_file, ask_file_for, ask_length, undo};
use f11_rad50::Name;
use f11_store::{Change, FileId, Mode, Refusal, Request, Uic, ident_with};

/// The attributes of a directory without records: those of 16 bytes (Files-11 On-Disk Structure Level 1, "Directories").
const DIRECTORY_ATTRIBUTES: [u8; 32] = [
    1, 0, 16, 0, 0, 0, 0, 0, 0, 0, 0, 0, 0, 0, 0, 0, 0, 0, 0, 0, 0, 0, 0, 0, 0, 0, 0, 0, 0, 0, 0, 0,
];

/// Whether it says that there is no such file.
fn is_gone(refusal: Refusal) -> bool
    ensures { result ≡ is_gone refusal }
{
    matches!(refusal, Refusal::NoSuchFile)
}

/// Whether it is one of the volume's own files, 1 to 5 (Files-11 On-Disk Structure Level 1, "Known Files").
fn is_own(id: FileId) -> bool
    ensures { result ≡ is_own id }
{
    id.number < 6
}

/// Whether something may be done to a file that was found.
fn judged(id: FileId) -> Result<FileId, Refusal>
    ensures { result ≡ judged_by (is_own id) id }
{
    if is_own(id) {
        Err(Refusal::SystemFile)
    } else if id.volume == 0 {
        Ok(id)
    } else {
        Err(Refusal::BadArgument)
    }
}

/// Finds the file that a directory has under a name, unless it is one of the volume's own, 1 to 5, or of another volume of a set.
pub(crate) fn find_other<S: Asked>(
    service: &mut S,
    by: &Asker,
    dir: FileId,
    name: &Name,
) -> Result<FileId, Refusal>
    ensures goes { Carried S.service (who_asks by.now.task by.now.uic) (finds_other dir name.now) result
        service.old service.new }
{
    let id = ask_file(service, by, Request::Find(dir, *name))?;
    judged(id)
}

/// Removes a name from a directory, and deletes the file that it leads to, if that is there.
pub(crate) fn remove_file<S: Asked>(
    service: &mut S,
    by: &Asker,
    dir: FileId,
    name: &Name,
    id: FileId,
) -> Result<(), Refusal>
    ensures goes { Carried S.service (who_asks by.now.task by.now.uic) (removes dir name.now id) result
        service.old service.new }
{
    ask_done(service, by, Request::Remove(dir, *name))?;
    match ask_done(service, by, Request::Delete(id)) {
        Ok(()) => Ok(()),
        Err(refusal) => {
            if is_gone(refusal) {
                return Ok(());
            }
            Err(undo(service, by, Request::Enter(dir, *name, id), refusal))
        }
    }
}

/// Deletes the file that a directory has under a name, or the name alone where it leads to no file.
fn delete_file<S: Asked>(
    service: &mut S,
    by: &Asker,
    dir: FileId,
    name: &Name,
) -> Result<(), Refusal>
    ensures goes { Carried S.service (who_asks by.now.task by.now.uic) (deletes dir name.now) result
        service.old service.new }
{
    let id = find_other(service, by, dir, name)?;
    remove_file(service, by, dir, name, id)
}

/// Gives a file with this ident area a name in its header, and removes another one from a directory.
fn retitle<S: Asked>(
    service: &mut S,
    by: &Asker,
    dir: FileId,
    old: &Name,
    new: &Name,
    id: FileId,
    ident: [u8; 46],
) -> Result<(), Refusal>
    ensures goes { Carried S.service (who_asks by.now.task by.now.uic) (retitles dir old.now new.now id ident) result
        service.old service.new }
{
    let named = Change::Ident(with_name(new, &ident));
    ask_done(service, by, Request::WriteAttr(id, named))?;
    match ask_done(service, by, Request::Remove(dir, *old)) {
        Ok(()) => Ok(()),
        Err(refusal) => {
            let back = Change::Ident(ident);
            Err(undo(service, by, Request::WriteAttr(id, back), refusal))
        }
    }
}

/// Gives a file with this ident area a name in a directory and in its header, and removes another one.
fn move_name<S: Asked>(
    service: &mut S,
    by: &Asker,
    dir: FileId,
    old: &Name,
    to: FileId,
    new: &Name,
    id: FileId,
    ident: [u8; 46],
) -> Result<(), Refusal>
    ensures goes { Carried S.service (who_asks by.now.task by.now.uic) (moves dir old.now to new.now id ident) result
        service.old service.new }
{
    ask_done(service, by, Request::Enter(to, *new, id))?;
    match retitle(service, by, dir, old, new, id, ident) {
        Ok(()) => Ok(()),
        Err(refusal) => Err(undo(service, by, Request::Remove(to, *new), refusal)),
    }
}

/// Whether a file with this ident area may have this name in the directory `to`: a directory stays one, and no other file becomes one, and no
/// directory is entered into itself.
fn may_move(to: FileId, new: &Name, id: FileId, ident: &[u8; 46]) -> bool
    ensures { result ≡ may_move to new.now id ident.now }
{
    id.number != to.number && is_directory_name(new) == is_directory_ident(ident)
}

/// Does so where it may.
fn move_if<S: Asked>(
    service: &mut S,
    by: &Asker,
    dir: FileId,
    old: &Name,
    to: FileId,
    new: &Name,
    id: FileId,
    ident: [u8; 46],
    may: bool,
) -> Result<(), Refusal>
    ensures goes { Carried S.service (who_asks by.now.task by.now.uic) (moves_if may dir old.now to new.now id ident) result
        service.old service.new }
{
    if may {
        move_name(service, by, dir, old, to, new, id, ident)
    } else {
        Err(Refusal::BadArgument)
    }
}

/// Renames the file that a directory has under a name.
fn rename_file<S: Asked>(
    service: &mut S,
    by: &Asker,
    dir: FileId,
    old: &Name,
    to: FileId,
    new: &Name,
) -> Result<(), Refusal>
    ensures goes { Carried S.service (who_asks by.now.task by.now.uic) (renames dir old.now to new.now) result
        service.old service.new }
{
    let id = find_other(service, by, dir, old)?;
    let was = ask_attributes(service, by, id)?;
    let may = may_move(to, new, id, &was.ident);
    move_if(service, by, dir, old, to, new, id, was.ident, may)
}

/// Renames the file that a directory has under a name, to one in the directory of this name.
fn rename_into<S: Asked>(
    service: &mut S,
    by: &Asker,
    dir: FileId,
    old: &Name,
    master: FileId,
    to: &Name,
    new: &Name,
) -> Result<(), Refusal>
    ensures goes { Carried S.service (who_asks by.now.task by.now.uic)
        (within master to.now (λ into. renames dir old.now into new.now)) result service.old service.new }
{
    let into = ask_file(service, by, Request::Find(master, *to))?;
    rename_file(service, by, dir, old, into, new)
}

/// Protects the file that a directory has under a name.
fn protect_file<S: Asked>(
    service: &mut S,
    by: &Asker,
    dir: FileId,
    name: &Name,
    protection: u16,
) -> Result<(), Refusal>
    ensures goes { Carried S.service (who_asks by.now.task by.now.uic) (protects dir name.now protection) result
        service.old service.new }
{
    let id = find_other(service, by, dir, name)?;
    ask_done(
        service,
        by,
        Request::WriteAttr(id, Change::Protect(protection)),
    )
}

/// Leaves the file that is accessed so many blocks, and states them in its attributes.
fn keep_blocks<S: Asked>(
    service: &mut S,
    by: &Asker,
    id: FileId,
    attr: &[u8; 32],
    blocks: u32,
) -> Result<(), Refusal>
    ensures goes { Carried S.service (who_asks by.now.task by.now.uic) (keeps by.now.lun id attr.now blocks) result
        service.old service.new }
{
    ask_done(service, by, Request::Truncate(by.lun, blocks))?;
    let stated = Change::Attr(with_blocks(attr, blocks));
    ask_done(service, by, Request::WriteAttr(id, stated))
}

/// Leaves the file that is accessed the blocks up to its end.
fn shorten<S: Asked>(
    service: &mut S,
    by: &Asker,
    id: FileId,
    attr: &[u8; 32],
) -> Result<(), Refusal>
    ensures goes { Carried S.service (who_asks by.now.task by.now.uic) (shortens by.now.lun id attr.now) result
        service.old service.new }
{
    let blocks = ask_length(service, by)?;
    keep_blocks(service, by, id, attr, blocks_to_end(attr, blocks))
}

/// Accesses a file, leaves it the blocks up to its end, and gives it up.
fn cut<S: Asked>(service: &mut S, by: &Asker, id: FileId, attr: &[u8; 32]) -> Result<(), Refusal>
    ensures goes { Carried S.service (who_asks by.now.task by.now.uic) (cuts by.now.lun id attr.now) result
        service.old service.new }
{
    ask_done(service, by, Request::Access(id, Mode::Write, by.lun))?;
    match shorten(service, by, id, attr) {
        Ok(()) => ask_done(service, by, Request::Deaccess(by.lun)),
        Err(refusal) => Err(undo(service, by, Request::Deaccess(by.lun), refusal)),
    }
}

/// The same where the attributes state an end.
fn cut_if_stated<S: Asked>(
    service: &mut S,
    by: &Asker,
    id: FileId,
    attr: &[u8; 32],
    stated: bool,
) -> Result<(), Refusal>
    ensures goes { Carried S.service (who_asks by.now.task by.now.uic) (cuts_if stated by.now.lun id attr.now) result
        service.old service.new }
{
    if stated {
        cut(service, by, id, attr)
    } else {
        Err(Refusal::BadArgument)
    }
}

/// Leaves the file that a directory has under a name the blocks up to its end, where it states one.
fn truncate_file<S: Asked>(
    service: &mut S,
    by: &Asker,
    dir: FileId,
    name: &Name,
) -> Result<(), Refusal>
    ensures goes { Carried S.service (who_asks by.now.task by.now.uic) (truncates by.now.lun dir name.now) result
        service.old service.new }
{
    let id = find_other(service, by, dir, name)?;
    let of = ask_attributes(service, by, id)?;
    cut_if_stated(service, by, id, &of.attr, states_end(&of))
}

/// Finds the directories that an action names, and does it there.
pub fn act<S: Asked>(
    service: &mut S,
    by: &Asker,
    master: FileId,
    action: &Action,
) -> Result<(), Refusal>
    ensures goes { Carried S.service (who_asks by.now.task by.now.uic) (plan_of by.now.lun master action.now) result
        service.old service.new }
{
    match action {
        Action::Delete { directory, name } => {
            let dir = ask_file(service, by, Request::Find(master, *directory))?;
            delete_file(service, by, dir, name)
        }
        Action::Purge {
            directory,
            name,
            highest,
        } => {
            let dir = ask_file(service, by, Request::Find(master, *directory))?;
            purge(service, by, dir, name, highest)
        }
        Action::Rename {
            directory,
            name,
            to,
            new,
        } => {
            let dir = ask_file(service, by, Request::Find(master, *directory))?;
            rename_into(service, by, dir, name, master, to, new)
        }
        Action::Protect {
            directory,
            name,
            protection,
        } => {
            let dir = ask_file(service, by, Request::Find(master, *directory))?;
            protect_file(service, by, dir, name, *protection)
        }
        Action::Truncate { directory, name } => {
            let dir = ask_file(service, by, Request::Find(master, *directory))?;
            truncate_file(service, by, dir, name)
        }
        Action::MakeDirectory {
            name,
            owner,
            protection,
        } => make_directory(service, by, *owner, master, name, *protection),
    }
}

/// Enters the file into the directory, and protects it.
fn enter<S: Asked>(
    service: &mut S,
    by: &Asker,
    dir: FileId,
    name: &Name,
    protection: u16,
    id: FileId,
) -> Result<(), Refusal>
    ensures goes { Carried S.service (who_asks by.now.task by.now.uic) (enters dir name.now protection id) result
        service.old service.new }
{
    ask_done(service, by, Request::Enter(dir, *name, id))?;
    ask_done(
        service,
        by,
        Request::WriteAttr(id, Change::Protect(protection)),
    )
}

/// Makes an empty file for its owner.
pub fn make_empty<S: Asked>(
    service: &mut S,
    by: &Asker,
    owner: Uic,
    dir: FileId,
    name: &Name,
    protection: u16,
    attr: [u8; 32],
) -> Result<(), Refusal>
    ensures goes { Carried S.service (who_asks by.now.task by.now.uic) (makes_empty owner dir name.now protection attr) result
        service.old service.new }
{
    let asked = Request::Create {
        protection: 0,
        ident: ident_with(*name),
        attr,
    };
    let id = ask_file_for(service, by, owner, asked)?;
    match enter(service, by, dir, name, protection, id) {
        Ok(()) => Ok(()),
        Err(refusal) => Err(undo(service, by, Request::Delete(id), refusal)),
    }
}

/// Whether it says that there is no such name.
fn is_absent(refusal: Refusal) -> bool
    ensures { result ≡ is_absent refusal }
{
    matches!(refusal, Refusal::NoSuchEntry)
}

/// Makes a directory without records for its owner, whose name the master file directory hasn't yet.
fn make_directory<S: Asked>(
    service: &mut S,
    by: &Asker,
    owner: Uic,
    master: FileId,
    name: &Name,
    protection: u16,
) -> Result<(), Refusal>
    ensures goes { Carried S.service (who_asks by.now.task by.now.uic) (makes_directory owner master name.now protection) result
        service.old service.new }
{
    match ask_file(service, by, Request::Find(master, *name)) {
        Ok(_) => Err(Refusal::DuplicateName),
        Err(refusal) => {
            if !is_absent(refusal) {
                return Err(refusal);
            }
            make_empty(
                service,
                by,
                owner,
                master,
                name,
                protection,
                DIRECTORY_ATTRIBUTES,
            )
        }
    }
}
