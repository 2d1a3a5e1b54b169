//! A lower version of a name that goes where the highest stays.
ghost use Rattle.std.specs.Prelude.{◌≡◌};
ghost use Rattle.f11_making.specs.Asking.{who_asks};
ghost use Rattle.f11_making.specs.FilesPlan.{Carried};
ghost use Rattle.f11_making.specs.Plans.{is_lower, judges_kept, purges, purges_by, purges_if, removes_but};

use crate::asked::{Asked, Asker};
use crate::attributes::{is_left_open, is_marked};
use crate::plans::{find_other, remove_file};
use crate::steps::{ask_attributes, ask_done, ask_file};
use f11_rad50::Name;
use f11_store::{Attr, FileId, Refusal, Request};

/// Whether a name is a lower version of another.
fn is_lower(name: &Name, highest: &Name) -> bool
    ensures { result ≡ is_lower name.now highest.now }
{
    let [a, b, c, kind, version] = name.words();
    let [d, e, f, other_kind, other_version] = highest.words();
    a == d && b == e && c == f && kind == other_kind && version < other_version
}

/// Whether others may go for a file: it isn't marked for delete, and it was closed since it was written.
fn judge_kept(of: &Attr) -> Result<(), Refusal>
    ensures { result ≡ judges_kept of.now }
{
    if is_marked(of) {
        Err(Refusal::Marked)
    } else if is_left_open(of) {
        Err(Refusal::BadArgument)
    } else {
        Ok(())
    }
}

/// Removes a name that leads to the file which is kept, and deletes the file that it leads to otherwise.
fn remove_but<S: Asked>(
    service: &mut S,
    by: &Asker,
    dir: FileId,
    name: &Name,
    id: FileId,
    is_kept: bool,
) -> Result<(), Refusal>
    ensures goes { Carried S.service (who_asks by.now.task by.now.uic) (removes_but is_kept dir name.now id) result
        service.old service.new }
{
    if is_kept {
        ask_done(service, by, Request::Remove(dir, *name))
    } else {
        remove_file(service, by, dir, name, id)
    }
}

/// Purges a directory of a name where a file may be kept.
fn purge_by<S: Asked>(
    service: &mut S,
    by: &Asker,
    judged: Result<(), Refusal>,
    kept: FileId,
    dir: FileId,
    name: &Name,
) -> Result<(), Refusal>
    ensures goes { Carried S.service (who_asks by.now.task by.now.uic) (purges_by judged kept dir name.now) result
        service.old service.new }
{
    match judged {
        Ok(()) => {
            let id = find_other(service, by, dir, name)?;
            remove_but(service, by, dir, name, id, id.number == kept.number)
        }
        Err(refusal) => Err(refusal),
    }
}

/// Purges a directory of a name, where the file of the highest version is there, and may be kept.
fn purge_name<S: Asked>(
    service: &mut S,
    by: &Asker,
    dir: FileId,
    name: &Name,
    highest: &Name,
) -> Result<(), Refusal>
    ensures goes { Carried S.service (who_asks by.now.task by.now.uic) (purges dir name.now highest.now) result
        service.old service.new }
{
    let kept = ask_file(service, by, Request::Find(dir, *highest))?;
    let of = ask_attributes(service, by, kept)?;
    purge_by(service, by, judge_kept(&of), kept, dir, name)
}

/// Does so where the name is a lower version.
fn purge_if<S: Asked>(
    service: &mut S,
    by: &Asker,
    dir: FileId,
    name: &Name,
    highest: &Name,
    is_lower: bool,
) -> Result<(), Refusal>
    ensures goes { Carried S.service (who_asks by.now.task by.now.uic) (purges_if is_lower dir name.now highest.now) result
        service.old service.new }
{
    if is_lower {
        purge_name(service, by, dir, name, highest)
    } else {
        Err(Refusal::BadArgument)
    }
}

/// Purges a directory of a lower version of a name, the highest of which stays.
pub(crate) fn purge<S: Asked>(
    service: &mut S,
    by: &Asker,
    dir: FileId,
    name: &Name,
    highest: &Name,
) -> Result<(), Refusal>
    ensures goes { Carried S.service (who_asks by.now.task by.now.uic) (purges_if (is_lower name.now highest.now) dir name.now highest.now)
        result service.old service.new }
{
    purge_if(service, by, dir, name, highest, is_lower(name, highest))
}
