//! The steps in which a file is made by asking for it.
ghost use Rattle.std.specs.Prelude.{◌≡◌, ℕ, List, IfErr, IfOk, OnOk};
ghost use Rattle.f11_store.specs.Ident.{ident_with as ident_of};
ghost use Rattle.f11_store.specs.declared.requests.Reply.TheVariants as reply;
ghost use Rattle.f11_store.specs.declared.requests.Request.TheVariants as request;
ghost use Rattle.f11_making.specs.Asking.{BreaksOffAsking, Fails, Granted, Grants, told, who_asks};
ghost use Rattle.f11_making.specs.Making.{as_file, entry as entry_of, extension, is_created};

use crate::asked::{Asked, Asker, ask};
use f11_rad50::Name;
use f11_store::{Change, FileId, Refusal, Reply, Request, ident_with};

/// Where a file that is made is entered, under which name, and its protection.
#[derive(Clone, Copy, Debug)]
pub struct Entry {
    pub dir: FileId,
    pub name: Name,
    pub protection: u16,
}

/// Creates a file that bars nobody.
///
/// # Errors
///
/// The volume's refusal; `Damaged` also where it replies with anything but a file.
pub fn create<S: Asked>(
    service: &mut S,
    by: &Asker,
    name: &Name,
    attr: [u8; 32],
) -> Result<FileId, Refusal>
    ensures created { IfOk result (λ id. Grants S.service (who_asks by.now.task by.now.uic)
        (told (request.Create 0 (ident_of name.now) attr) (reply.Created id))
        service.old service.new) }
    ensures refused { IfErr result (λ e. Fails S.service (who_asks by.now.task by.now.uic)
        is_created (request.Create 0 (ident_of name.now) attr) e service.old service.new) }
{
    let asked = Request::Create {
        protection: 0,
        ident: ident_with(*name),
        attr,
    };
    match ask(service, by, asked) {
        Ok(Reply::Created(id)) => Ok(id),
        Ok(_) => Err(Refusal::Damaged),
        Err(refusal) => Err(refusal),
    }
}

/// Allocates so many blocks to the file that is accessed, if there are any.
///
/// # Errors
///
/// The volume's refusal.
pub fn extend<S: Asked>(service: &mut S, by: &Asker, blocks: u32) -> Result<(), Refusal>
    ensures granted { OnOk result (Granted S.service (who_asks by.now.task by.now.uic)
        (extension by.now.lun blocks) service.old service.new) }
    ensures denied { IfErr result (λ e. BreaksOffAsking S.service (who_asks by.now.task by.now.uic)
        (extension by.now.lun blocks) e service.old service.new) }
{
    if blocks == 0 {
        return Ok(());
    }
    ask(service, by, Request::Extend(by.lun, blocks))?;
    Ok(())
}

/// Enters the file into the directory, and protects it.
///
/// # Errors
///
/// The volume's refusal; where it is of the protection the file stays entered.
pub fn enter<S: Asked>(
    service: &mut S,
    by: &Asker,
    entry: &Entry,
    id: FileId,
) -> Result<(), Refusal>
    ensures granted { (attr : List ℕ) (blocks : List (List ℕ)) → OnOk result (Granted S.service
        (who_asks by.now.task by.now.uic)
        (entry_of (as_file entry.now.name entry.now.dir entry.now.protection attr blocks) id)
        service.old service.new) }
    ensures denied { (attr : List ℕ) (blocks : List (List ℕ)) → IfErr result (λ e. BreaksOffAsking
        S.service (who_asks by.now.task by.now.uic)
        (entry_of (as_file entry.now.name entry.now.dir entry.now.protection attr blocks) id) e
        service.old service.new) }
{
    ask(service, by, Request::Enter(entry.dir, entry.name, id))?;
    let protect = Change::Protect(entry.protection);
    ask(service, by, Request::WriteAttr(id, protect))?;
    Ok(())
}
