//! A file that is made of the bytes of a file of the host, on whatever answers for the volume.
ghost use Rattle.std.specs.Prelude.{◌≡◌, [], ℕ, List, IfErr, IfOk, OnOk};
ghost use Rattle.f11_making.specs.Asking.{who_asks};
ghost use Rattle.f11_flx.specs.Making.{FailsToFillOpened, FillsOpened};
ghost use Rattle.f11_host.specs.CopyFromHost.{as_image};
ghost use Rattle.f11_host.specs.Filling.{FailsToFillFromHost, FailsToMakeFromHost, FillsFromHost, MakesFromHost, host_file};
ghost use Rattle.f11_host.specs.Pieces.{blocks_for};

use crate::filling::fill;
use crate::finishing::finish;
use f11_bytes::BLOCK_SIZE;
use f11_flx::{FlxRefusal, image_attributes_to, undo};
use f11_making::{Asked, Asker, Entry, ask, create};
use f11_store::{FileId, Mode, Request};
use std::io::Read;

/// Accesses the file to be written, and fills it.
fn fill_file<R: Read, S: Asked>(
    host: &mut R,
    bytes: u32,
    service: &mut S,
    by: &Asker,
    id: FileId,
) -> Result<(), FlxRefusal>
    ensures fills { OnOk result ((taken : List ℕ) × FillsOpened S.service
        (who_asks by.now.task by.now.uic) by.now.lun
        (FillsFromHost S.service (who_asks by.now.task by.now.uic) by.now.lun bytes) id
        (host_file (R.remaining host.old) []) (host_file (R.remaining host.new) taken)
        service.old service.new) }
    ensures fails { IfErr result (λ e. (taken : List ℕ) × FailsToFillOpened S.service
        (who_asks by.now.task by.now.uic) by.now.lun
        (FailsToFillFromHost S.service (who_asks by.now.task by.now.uic) by.now.lun bytes) id e
        (host_file (R.remaining host.old) []) (host_file (R.remaining host.new) taken)
        service.old service.new) }
{
    match ask(service, by, Request::Access(id, Mode::Write, by.lun)) {
        Ok(_) => {}
        Err(refusal) => return Err(FlxRefusal::Files(refusal)),
    }
    match fill(host, bytes, service, by) {
        Ok(()) => Ok(()),
        Err(refusal) => Err(undo(service, by, Request::Deaccess(by.lun), refusal)),
    }
}

/// Makes a file of so many bytes that the host gives: how many blocks it has. It ends at its beginning until all its blocks are written. Where
/// the host gives fewer it is refused as [`FlxRefusal::Unread`].
pub fn make<R: Read, S: Asked>(
    host: &mut R,
    bytes: u32,
    service: &mut S,
    by: &Asker,
    entry: &Entry,
) -> Result<u32, FlxRefusal>
    ensures count { IfOk result (λ blocks. blocks ≡ blocks_for bytes) }
    ensures makes { OnOk result ((taken : List ℕ) × ((pieces : List (List ℕ)) →
        MakesFromHost S.service (who_asks by.now.task by.now.uic) by.now.lun bytes
        (as_image entry.now.name entry.now.dir entry.now.protection bytes pieces)
        (host_file (R.remaining host.old) []) (host_file (R.remaining host.new) taken)
        service.old service.new)) }
    ensures fails { IfErr result (λ e. (taken : List ℕ) × ((pieces : List (List ℕ)) →
        FailsToMakeFromHost S.service (who_asks by.now.task by.now.uic) by.now.lun bytes
        (as_image entry.now.name entry.now.dir entry.now.protection bytes pieces) e
        (host_file (R.remaining host.old) []) (host_file (R.remaining host.new) taken)
        service.old service.new)) }
{
    let blocks = bytes.div_ceil(BLOCK_SIZE as u32);
    let first = image_attributes_to(blocks, 0);
    let id = match create(service, by, &entry.name, first) {
        Ok(id) => id,
        Err(refusal) => return Err(FlxRefusal::Files(refusal)),
    };
    match fill_file(host, bytes, service, by, id) {
        Ok(()) => {}
        Err(refusal) => return Err(undo(service, by, Request::Delete(id), refusal)),
    }
    let attr = image_attributes_to(blocks, bytes);
    match finish(service, by, entry, id, attr) {
        Ok(()) => Ok(blocks),
        Err(refusal) => Err(undo(service, by, Request::Delete(id), FlxRefusal::Files(refusal))),
    }
}
