//! A file that is made of a text of the host, on whatever answers for the volume.
ghost use Rattle.std.specs.Prelude.{◌≡◌, ◌≤◌, [], ℕ, List, IfErr, OnOk};
ghost use Rattle.f11_making.specs.Asking.{who_asks};
ghost use Rattle.f11_flx.specs.Making.{FailsToFillOpened, FillsOpened};
ghost use Rattle.f11_host.specs.Filling.{host_file};
ghost use Rattle.f11_host.specs.TextFilling.{are_same as same, as_text, as_unread, CopiesAgain, FailsToCopyAgain};
ghost use Rattle.f11_host.specs.TextFilling.{FailsToFillFromText, FailsToMakeFromText, FillsFromText, MakesFromText};

use crate::finishing::finish;
use crate::text::copy_text;
use f11_flx::{Extent, FlxRefusal, text_attributes, undo};
use f11_making::{Asked, Asker, Entry, ask, create, extend};
use f11_store::{FileId, Mode, Request};
use std::io::Read;

/// Whether two copies have as many blocks, the same end, and as long a longest line.
fn are_same(a: &Extent, b: &Extent) -> bool
    ensures { result ≡ same a.now b.now }
{
    a.blocks == b.blocks && (a.end == b.end && a.longest == b.longest)
}

/// A refusal where the text was judged before: a line that is too long is one of another text.
fn unread(refusal: FlxRefusal) -> FlxRefusal
    ensures { result ≡ as_unread refusal }
{
    match refusal {
        FlxRefusal::Files(refusal) => FlxRefusal::Files(refusal),
        FlxRefusal::Rt(refusal) => FlxRefusal::Rt(refusal),
        FlxRefusal::BadRecord => FlxRefusal::BadRecord,
        FlxRefusal::LineTooLong => FlxRefusal::Unread,
        FlxRefusal::Unread => FlxRefusal::Unread,
    }
}

/// Writes the copy of a text that was judged. Where the host gives fewer bytes, or another text, it is refused as [`FlxRefusal::Unread`].
fn copy_again<R: Read, S: Asked>(
    host: &mut R,
    bytes: u32,
    plan: &Extent,
    service: &mut S,
    by: &Asker,
) -> Result<(), FlxRefusal>
    requires few { bytes ≤ 1073741312 }
    ensures copied { OnOk result ((taken : List ℕ) × CopiesAgain S.service
        (who_asks by.now.task by.now.uic) by.now.lun bytes plan.now taken
        (R.remaining host.old) (R.remaining host.new) service.old service.new) }
    ensures fails { IfErr result (λ e. (taken : List ℕ) × FailsToCopyAgain S.service
        (who_asks by.now.task by.now.uic) by.now.lun bytes plan.now e taken
        (R.remaining host.old) (R.remaining host.new) service.old service.new) }
{
    let extent = match copy_text(host, bytes, service, by) {
        Ok(extent) => extent,
        Err(refusal) => return Err(unread(refusal)),
    };
    if are_same(&extent, plan) {
        Ok(())
    } else {
        Err(FlxRefusal::Unread)
    }
}

/// Fills the file that is accessed with the copy of a text, and gives it up.
fn fill_text<R: Read, S: Asked>(
    host: &mut R,
    bytes: u32,
    plan: &Extent,
    service: &mut S,
    by: &Asker,
) -> Result<(), FlxRefusal>
    requires few { bytes ≤ 1073741312 }
    ensures fills { OnOk result ((taken : List ℕ) × FillsFromText S.service
        (who_asks by.now.task by.now.uic) by.now.lun bytes plan.now
        (host_file (R.remaining host.old) []) (host_file (R.remaining host.new) taken)
        service.old service.new) }
    ensures fails { IfErr result (λ e. (taken : List ℕ) × FailsToFillFromText S.service
        (who_asks by.now.task by.now.uic) by.now.lun bytes plan.now e
        (host_file (R.remaining host.old) []) (host_file (R.remaining host.new) taken)
        service.old service.new) }
{
    match extend(service, by, plan.blocks) {
        Ok(()) => {}
        Err(refusal) => return Err(FlxRefusal::Files(refusal)),
    }
    copy_again(host, bytes, plan, service, by)?;
    match ask(service, by, Request::Deaccess(by.lun)) {
        Ok(_) => Ok(()),
        Err(refusal) => Err(FlxRefusal::Files(refusal)),
    }
}

/// Accesses the file to be written, and fills it.
fn fill_text_file<R: Read, S: Asked>(
    host: &mut R,
    bytes: u32,
    plan: &Extent,
    service: &mut S,
    by: &Asker,
    id: FileId,
) -> Result<(), FlxRefusal>
    requires few { bytes ≤ 1073741312 }
    ensures fills { OnOk result ((taken : List ℕ) × FillsOpened S.service
        (who_asks by.now.task by.now.uic) by.now.lun
        (FillsFromText S.service (who_asks by.now.task by.now.uic) by.now.lun bytes plan.now) id
        (host_file (R.remaining host.old) []) (host_file (R.remaining host.new) taken)
        service.old service.new) }
    ensures fails { IfErr result (λ e. (taken : List ℕ) × FailsToFillOpened S.service
        (who_asks by.now.task by.now.uic) by.now.lun
        (FailsToFillFromText S.service (who_asks by.now.task by.now.uic) by.now.lun bytes plan.now)
        id e (host_file (R.remaining host.old) []) (host_file (R.remaining host.new) taken)
        service.old service.new) }
{
    match ask(service, by, Request::Access(id, Mode::Write, by.lun)) {
        Ok(_) => {}
        Err(refusal) => return Err(FlxRefusal::Files(refusal)),
    }
    match fill_text(host, bytes, plan, service, by) {
        Ok(()) => Ok(()),
        Err(refusal) => Err(undo(service, by, Request::Deaccess(by.lun), refusal)),
    }
}

/// Makes a file of a text of so many bytes that the host gives, whose copy was judged. It ends at its beginning until all its blocks are
/// written. Where the host gives fewer, or another text, it is refused as [`FlxRefusal::Unread`].
pub fn make_text<R: Read, S: Asked>(
    host: &mut R,
    bytes: u32,
    plan: &Extent,
    service: &mut S,
    by: &Asker,
    entry: &Entry,
) -> Result<(), FlxRefusal>
    requires few { bytes ≤ 1073741312 }
    ensures makes { OnOk result ((taken : List ℕ) × ((pieces : List (List ℕ)) →
        MakesFromText S.service (who_asks by.now.task by.now.uic) by.now.lun bytes plan.now
        (as_text entry.now.name entry.now.dir entry.now.protection plan.now pieces)
        (host_file (R.remaining host.old) []) (host_file (R.remaining host.new) taken)
        service.old service.new)) }
    ensures fails { IfErr result (λ e. (taken : List ℕ) × ((pieces : List (List ℕ)) →
        FailsToMakeFromText S.service (who_asks by.now.task by.now.uic) by.now.lun bytes plan.now
        (as_text entry.now.name entry.now.dir entry.now.protection plan.now pieces) e
        (host_file (R.remaining host.old) []) (host_file (R.remaining host.new) taken)
        service.old service.new)) }
{
    let first = text_attributes(plan.longest, plan.blocks, 0);
    let id = match create(service, by, &entry.name, first) {
        Ok(id) => id,
        Err(refusal) => return Err(FlxRefusal::Files(refusal)),
    };
    match fill_text_file(host, bytes, plan, service, by, id) {
        Ok(()) => {}
        Err(refusal) => return Err(undo(service, by, Request::Delete(id), refusal)),
    }
    let attr = text_attributes(plan.longest, plan.blocks, plan.end);
    match finish(service, by, entry, id, attr) {
        Ok(()) => Ok(()),
        Err(refusal) => Err(undo(service, by, Request::Delete(id), FlxRefusal::Files(refusal))),
    }
}
