//! Room for more blocks of a file.
ghost use Rattle.std.specs.Prelude.{◌≡◌, ◌+◌, ◌-◌, ◌<◌, ◌≤◌, false, length, nat_lt, IsTrue, Some, None, IfErr, IfOk, OnOk};
ghost use Rattle.f11_files.specs.Answers.{FailsToRead};
ghost use Rattle.f11_image_store.specs.FileLaws.{room_in};
ghost use Rattle.f11_files.specs.Operations.{file_causes};
ghost use Rattle.f11_files.specs.Extending.Room.{room_causes, FindsFileEnd};
ghost use Rattle.f11_files.specs.Structure.{index_in, store_on, IsStructureFor};
ghost use Rattle.f11_header.specs.Header.{holds_header};
ghost use Rattle.f11_index.specs.IndexFile.{free_slots_in};
ghost use Rattle.f11_store.specs.Causes.{first_of};
ghost use Rattle.f11_store.specs.Cost.{header_count};
ghost use Rattle.f11_store.specs.File.{need};
ghost use Rattle.f11_store.specs.Store.{file_named};

use crate::answer::refusal_for;
use crate::structure::Structure;
use f11_bytes::Block;
use f11_chain::{FileEnd, MOST_HEADERS, last_from};
use f11_dev::Device;
use f11_map::in_hand::map;
use f11_store::{FileId, Refusal};

/// How many blocks a header of its own is reckoned for (profile): so many pointers it has places for.
const POINTERS: usize = 102;

/// As many, as a count of blocks is made of it.
pub(crate) const PLACES: u32 = 102;

/// How many more retrieval pointers a header has places for.
pub(crate) fn room_of(block: &Block) -> usize
    requires { IsTrue (holds_header block.now) }
    ensures { result ≡ room_in block.now }
{
    map(block).places_left()
}

/// How many headers `n` blocks may need, beside one with room for so many pointers (profile).
pub(crate) fn need(room: usize, n: u32) -> u32
    ensures need { result ≡ need room n }
    ensures few { result ≤ n }
{
    (n as usize).saturating_sub(room).div_ceil(POINTERS) as u32
}

/// Whether a file may have `n` blocks more, which has so many headers, the last of them with room for so many pointers, where so
/// many blocks and headers are free.
///
/// # Errors
///
/// `TooManySegments`, `DeviceFull` or `NoHeader`, the first that holds.
pub(crate) fn judge(
    headers: u16,
    room: usize,
    free: u32,
    free_headers: u32,
    n: u32,
) -> Result<(), Refusal>
    requires { headers ≤ 256 }
    ensures room { OnOk result (first_of (room_causes headers room free free_headers n) ≡ None) }
    ensures refused { IfErr result (λ refusal.
        first_of (room_causes headers room free free_headers n) ≡ Some refusal) }
{
    if is_too_long(headers, room, n) {
        return Err(Refusal::TooManySegments);
    }
    if free < n {
        return Err(Refusal::DeviceFull);
    }
    if free_headers < need(room, n) {
        return Err(Refusal::NoHeader);
    }
    Ok(())
}

/// Whether a file that has so many headers, the last of them with room for so many pointers, might have over 256 headers with `n`
/// blocks more.
pub(crate) fn is_too_long(headers: u16, room: usize, n: u32) -> bool
    requires { headers ≤ 256 }
    ensures { result ≡ nat_lt 256 (headers + need room n) }
{
    need(room, n) > u32::from(MOST_HEADERS - headers)
}

impl Structure {
    /// Reads the first header of a file, and the last, and counts its headers and blocks. It reads each of the file's headers once.
    ///
    /// # Errors
    ///
    /// `NoSuchFile` where no file has this identification, `DeviceFault` where a transfer failed, `Damaged` where a header or a link
    /// isn't as it should be.
    pub(crate) fn find_end<D: Device>(
        &self,
        device: &mut D,
        f: FileId,
        first: &mut Block,
        last: &mut Block,
    ) -> Result<FileEnd, Refusal>
        requires is_for { IsStructureFor self.now (D.disk device.old) }
        ensures end { IfOk result (λ end. FindsFileEnd self.now f end first.new last.new
            (D.disk device.old) (D.disk device.new)) }
        ensures refused { IfErr result (λ refusal. FailsToRead false
            (file_causes (store_on self.now (D.disk device.old)) f)
            (header_count (file_named (store_on self.now (D.disk device.old)) f)) refusal
            (D.disk device.old) (D.disk device.new)) }
    {
        self.read_first(device, f, first)?;
        *last = *first;
        match last_from(device, &self.index, f.number, last) {
            Ok(end) => Ok(end),
            Err(fault) => Err(refusal_for(fault)),
        }
    }

    /// As many headers as are free, where `more` are needed: where none is, they aren't counted.
    pub(crate) fn headers_for(&self, more: u32) -> u32
        ensures { more - result ≡ more - length (free_slots_in (index_in self.now)) }
    {
        if more == 0 {
            0
        } else {
            self.index.free_headers()
        }
    }
}
