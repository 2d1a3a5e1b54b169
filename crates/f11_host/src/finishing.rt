//! The end of the making of a file: its attributes, its name and its protection.
ghost use Rattle.std.specs.Prelude.{List, ℕ, IfErr, OnOk};
ghost use Rattle.f11_making.specs.Asking.{BreaksOffAsking, Granted, who_asks};
ghost use Rattle.f11_making.specs.Making.{as_stated, entry as entry_of};

use f11_making::{Asked, Asker, Entry, ask, enter};
use f11_store::{Change, FileId, Refusal, Request};

/// Gives a file that was filled its attributes, enters it into the directory, and protects it: what stops before that leaves a file without
/// an end.
///
/// # Errors
///
/// The volume's refusal; where it is of the protection the file stays entered.
pub fn finish<S: Asked>(
    service: &mut S,
    by: &Asker,
    entry: &Entry,
    id: FileId,
    attr: [u8; 32],
) -> Result<(), Refusal>
    ensures granted { (first : List ℕ) (blocks : List (List ℕ)) → OnOk result (Granted S.service
        (who_asks by.now.task by.now.uic)
        (entry_of (as_stated entry.now.name entry.now.dir entry.now.protection first attr blocks) id)
        service.old service.new) }
    ensures denied { (first : List ℕ) (blocks : List (List ℕ)) → IfErr result (λ e. BreaksOffAsking
        S.service (who_asks by.now.task by.now.uic)
        (entry_of (as_stated entry.now.name entry.now.dir entry.now.protection first attr blocks) id) e
        service.old service.new) }
{
    ask(service, by, Request::WriteAttr(id, Change::Attr(attr)))?;
    enter(service, by, entry, id)
}
