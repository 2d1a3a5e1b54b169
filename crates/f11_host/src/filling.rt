//! A file that is accessed is filled with the bytes of a file of the host.
ghost use Rattle.std.specs.Prelude.{◌≡◌, [], ℕ, List, IfErr, OnOk};
ghost use Rattle.f11_making.specs.Asking.{who_asks};
ghost use Rattle.f11_host.specs.Filling.{FailsToFillFromHost, FailsToWriteBytes, FillsFromHost, WritesBytes, host_file};
ghost use Rattle.f11_host.specs.Pieces.{blocks_for};

use crate::piece::read_piece;
use f11_bytes::BLOCK_SIZE;
use f11_flx::FlxRefusal;
use f11_making::{Asked, Asker, ask, extend, write};
use f11_store::Request;
use std::io::Read;

/// Writes so many bytes that the host gives to the file that is accessed, in so many blocks, the last one filled up.
fn write_bytes<R: Read, S: Asked>(
    host: &mut R,
    bytes: u32,
    blocks: u32,
    service: &mut S,
    by: &Asker,
) -> Result<(), FlxRefusal>
    requires count { blocks ≡ blocks_for bytes }
    ensures writes { OnOk result ((taken : List ℕ) × WritesBytes S.service
        (who_asks by.now.task by.now.uic) by.now.lun bytes (R.remaining host.old)
        (R.remaining host.new) taken service.old service.new) }
    ensures fails { IfErr result (λ e. (taken : List ℕ) × FailsToWriteBytes S.service
        (who_asks by.now.task by.now.uic) by.now.lun bytes e (R.remaining host.old)
        (R.remaining host.new) taken service.old service.new) }
{
    let mut block = [0; BLOCK_SIZE];
    let mut left = bytes;
    for place in 0..blocks {
        let count = left.min(BLOCK_SIZE as u32);
        match read_piece(host, count as usize, &mut block) {
            Ok(()) => {}
            Err(_) => return Err(FlxRefusal::Unread),
        }
        match write(service, by, place + 1, &mut block) {
            Ok(()) => {}
            Err(refusal) => return Err(FlxRefusal::Files(refusal)),
        }
        left -= count;
    }
    Ok(())
}

/// Fills the file that is accessed with so many bytes that the host gives, and gives it up. Where the host gives fewer it is refused as
/// [`FlxRefusal::Unread`].
pub fn fill<R: Read, S: Asked>(
    host: &mut R,
    bytes: u32,
    service: &mut S,
    by: &Asker,
) -> Result<(), FlxRefusal>
    ensures fills { OnOk result ((taken : List ℕ) × FillsFromHost S.service
        (who_asks by.now.task by.now.uic) by.now.lun bytes (host_file (R.remaining host.old) [])
        (host_file (R.remaining host.new) taken) service.old service.new) }
    ensures fails { IfErr result (λ e. (taken : List ℕ) × FailsToFillFromHost S.service
        (who_asks by.now.task by.now.uic) by.now.lun bytes e (host_file (R.remaining host.old) [])
        (host_file (R.remaining host.new) taken) service.old service.new) }
{
    let blocks = bytes.div_ceil(BLOCK_SIZE as u32);
    match extend(service, by, blocks) {
        Ok(()) => {}
        Err(refusal) => return Err(FlxRefusal::Files(refusal)),
    }
    write_bytes(host, bytes, blocks, service, by)?;
    match ask(service, by, Request::Deaccess(by.lun)) {
        Ok(_) => Ok(()),
        Err(refusal) => Err(FlxRefusal::Files(refusal)),
    }
}
