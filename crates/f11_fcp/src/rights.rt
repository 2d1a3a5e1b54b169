//! What is judged of a file by its identification and its header.
ghost use Rattle.std.specs.Prelude.{◌≡◌, ◌==◌};
ghost use Rattle.std.specs.Int.{bit_at};
ghost use Rattle.f11_fcp.specs.Rights.{lacks_by, lacks_change_by};
ghost use Rattle.f11_store.specs.Causes.{is_bad};

use f11_store::{Attr, Change, Class, FileId, Mode, Right, Uic, is_of, may};

/// Whether an identification can be none of a file on this volume.
pub(crate) fn is_bad(id: FileId) -> bool
    ensures { result ≡ is_bad id }
{
    id.number == 0 || id.volume != 0
}

/// Whether a file is marked for delete (SC.MDL).
pub(crate) fn is_marked(attr: &Attr) -> bool
    ensures { result ≡ (bit_at attr.now.characteristics 15 == 1) }
{
    (attr.characteristics >> 15) & 1 == 1
}

/// Whether a caller lacks a right that a mode of access asks for.
pub(crate) fn lacks_for(mode: Mode, caller: Uic, attr: &Attr) -> bool
    ensures { result ≡ lacks_by mode caller attr.now.owner attr.now.protection }
{
    let reads = may(caller, attr.owner, attr.protection, Right::Read);
    let writes = may(caller, attr.owner, attr.protection, Right::Write);
    match mode {
        Mode::Read | Mode::Locked => !reads,
        Mode::Write => !reads || !writes,
    }
}

/// Whether a caller lacks the right to a change: the protection word is for the system and the owner, all else for writers.
pub(crate) fn lacks_change(change: &Change, caller: Uic, attr: &Attr) -> bool
    ensures { result ≡ lacks_change_by change.now caller attr.now.owner attr.now.protection }
{
    match change {
        Change::Attr(_) | Change::Ident(_) => {
            !may(caller, attr.owner, attr.protection, Right::Write)
        }
        Change::Protect(_) => {
            !(is_of(caller, attr.owner, Class::System) || is_of(caller, attr.owner, Class::Owner))
        }
    }
}
