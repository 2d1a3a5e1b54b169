//! What a course asks of the volume, one thing at a time, and what undoes something.
ghost use Rattle.std.specs.Prelude.{◌≡◌, Err};
ghost use Rattle.f11_making.specs.Asking.{who_asks};
ghost use Rattle.f11_making.specs.FilesPlan.{done, names_for};
ghost use Rattle.f11_copying.specs.Courses.{Runs, ask, both, is_lethal as is_lethal_fault, undoing};

use crate::fault::CopyFault;
use crate::source::Blocks;
use f11_making::{Asked, Asker, ask_done, ask_file_for, is_fatal};
use f11_store::{FileId, Request, Uic};

/// Asks that a request is done, whatever its reply is.
pub(crate) fn ask_volume<S: Asked, B: Blocks>(
    service: &mut S,
    by: &Asker,
    source: &B,
    request: Request,
) -> Result<(), CopyFault>
    ensures runs { Runs S.service B.gives (who_asks by.now.task by.now.uic) (ask (done request)) result
        (both service.old source.now) (both service.new source.now) }
{
    match ask_done(service, by, request) {
        Ok(()) => Ok(()),
        Err(refusal) => Err(CopyFault::Files(refusal)),
    }
}

/// Asks which file the reply to a request names, for another user.
pub(crate) fn ask_volume_for<S: Asked, B: Blocks>(
    service: &mut S,
    by: &Asker,
    source: &B,
    user: Uic,
    request: Request,
) -> Result<FileId, CopyFault>
    ensures runs { Runs S.service B.gives (who_asks by.now.task by.now.uic) (ask (names_for user request)) result
        (both service.old source.now) (both service.new source.now) }
{
    match ask_file_for(service, by, user, request) {
        Ok(id) => Ok(id),
        Err(refusal) => Err(CopyFault::Files(refusal)),
    }
}

/// Whether it is a device fault of the volume, or `Damaged`.
pub(crate) fn is_lethal(fault: CopyFault) -> bool
    ensures { result ≡ is_lethal_fault fault }
{
    match fault {
        CopyFault::Files(refusal) => is_fatal(refusal),
        CopyFault::Unread => false,
    }
}

/// Asks what undoes something, after a fault: what is answered then.
pub(crate) fn undo<S: Asked, B: Blocks>(
    service: &mut S,
    by: &Asker,
    source: &B,
    request: Request,
    fault: CopyFault,
) -> CopyFault
    ensures runs { Runs S.service B.gives (who_asks by.now.task by.now.uic) (undoing {T = Unit {0}} request fault)
        (Err result) (both service.old source.now) (both service.new source.now) }
{
    if is_lethal(fault) {
        return fault;
    }
    match ask_done(service, by, request) {
        Ok(()) => fault,
        Err(other) => if is_fatal(other) {
            CopyFault::Files(other)
        } else {
            fault
        },
    }
}
