//! What a plan asks, one thing at a time, and what undoes something.
ghost use Rattle.std.specs.Prelude.{◌≡◌, ◌≤◌, Err, IfOk};
ghost use Rattle.f11_store.specs.File.{most_blocks};
ghost use Rattle.f11_fcp.specs.files.Answers.{is_fatal as is_fatal_refusal};
ghost use Rattle.f11_making.specs.Asking.{who_asks};
ghost use Rattle.f11_making.specs.FilesPlan.{Carried, attributes_in, counts, describes, done, file_in, names, names_for, one, undoing};

use crate::asked::{Asked, Asker, ask, length};
use f11_store::{Attr, FileId, Refusal, Reply, Request, Uic};

/// Asks that a request is done, whatever its reply is.
///
/// # Errors
///
/// The volume's refusal.
pub fn ask_done<S: Asked>(service: &mut S, by: &Asker, request: Request) -> Result<(), Refusal>
    ensures goes { Carried S.service (who_asks by.now.task by.now.uic) (one (done request)) result
        service.old service.new }
{
    ask(service, by, request)?;
    Ok(())
}

/// Asks which file the reply to a request names, which creates or finds one.
///
/// # Errors
///
/// The volume's refusal; `Damaged` also where it replies with anything but a file.
pub fn ask_file<S: Asked>(service: &mut S, by: &Asker, request: Request) -> Result<FileId, Refusal>
    ensures goes { Carried S.service (who_asks by.now.task by.now.uic) (one (names request)) result
        service.old service.new }
{
    let reply = ask(service, by, request)?;
    match file_in(&request, &reply) {
        Some(id) => Ok(id),
        None => Err(Refusal::Damaged),
    }
}

/// Asks which file the reply to a request names, for another user.
///
/// # Errors
///
/// As of [`ask_file`].
pub fn ask_file_for<S: Asked>(
    service: &mut S,
    by: &Asker,
    user: Uic,
    request: Request,
) -> Result<FileId, Refusal>
    ensures goes { Carried S.service (who_asks by.now.task by.now.uic) (one (names_for user request)) result
        service.old service.new }
{
    let other = Asker {
        task: by.task,
        lun: by.lun,
        uic: user,
    };
    ask_file(service, &other, request)
}

/// Asks what attributes a file has.
///
/// # Errors
///
/// The volume's refusal; `Damaged` also where it replies with anything but attributes.
pub fn ask_attributes<S: Asked>(service: &mut S, by: &Asker, id: FileId) -> Result<Attr, Refusal>
    ensures goes { Carried S.service (who_asks by.now.task by.now.uic) (one (describes id)) result
        service.old service.new }
{
    let reply = ask(service, by, Request::ReadAttr(id))?;
    match attributes_in(&reply) {
        Some(attributes) => Ok(attributes),
        None => Err(Refusal::Damaged),
    }
}

/// Asks how many blocks the file has that is accessed.
///
/// # Errors
///
/// The volume's refusal.
pub fn ask_length<S: Asked>(service: &mut S, by: &Asker) -> Result<u32, Refusal>
    ensures few { IfOk result (λ blocks. blocks ≤ most_blocks) }
    ensures goes { Carried S.service (who_asks by.now.task by.now.uic) (one (counts by.now.lun)) result
        service.old service.new }
{
    length(service, by)
}

/// The attributes that a reply tells.
fn attributes_in(reply: &Reply) -> Option<Attr>
    ensures { result ≡ attributes_in reply.now }
{
    match reply {
        Reply::Attr(attributes) => Some(*attributes),
        _ => None,
    }
}

/// The file that the reply to a request names: the one created, or found.
fn file_in(request: &Request, reply: &Reply) -> Option<FileId>
    ensures { result ≡ file_in request.now reply.now }
{
    match (request, reply) {
        (Request::Create { .. }, Reply::Created(id)) => Some(*id),
        (Request::Find(..), Reply::Found(id)) => Some(*id),
        _ => None,
    }
}

/// Whether it is a device fault or `Damaged`.
pub fn is_fatal(refusal: Refusal) -> bool
    ensures { result ≡ is_fatal_refusal refusal }
{
    matches!(refusal, Refusal::DeviceFault | Refusal::Damaged)
}

/// Asks what undoes something, after a refusal: what is answered then.
pub fn undo<S: Asked>(service: &mut S, by: &Asker, request: Request, refusal: Refusal) -> Refusal
    ensures goes { Carried S.service (who_asks by.now.task by.now.uic) (undoing {T = Unit {0}} request refusal)
        (Err result) service.old service.new }
{
    if is_fatal(refusal) {
        return refusal;
    }
    match ask(service, by, request) {
        Ok(_) => refusal,
        Err(other) => if is_fatal(other) { other } else { refusal },
    }
}
