//! Calls on the files of an open volume, made one after another from tables.
use f11_bytes::Block;
use f11_dev::{Device, DeviceFault, Memory};
use f11_files::Files;
use f11_fixtures::{SEVENS, SYSTEM, file};
use f11_store::{Attr, Change, FileId, Refusal, Uic};
use f11_vfy::{Accepted, Report, verify};
use std::alloc::Global;
use std::test::Fail;

/// The user of the files that are made with [`Call::CreateWith`].
pub const USER: Uic = Uic {
    group: 0o200,
    member: 1,
};

/// A file's number and its sequence number.
pub type Id = (u16, u16);

/// A call, mostly on a file.
#[derive(Clone, Copy, Debug)]
pub enum Call {
    /// Makes a file of [1,1] without blocks.
    Create,
    /// Makes files in these slots one after another, each with sequence number 1.
    CreateIn(u16, u16),
    /// Makes a file of [200,1] with this protection, and these bytes all over its ident area and attributes.
    CreateWith(u16, u8, u8),
    ReadAttr(Id),
    WriteAttr(Id, Change),
    Mark(Id),
    Length(Id),
    /// Reads a block of this number.
    Read(Id, u32),
    /// Writes a block of this number, with this byte all over it.
    Write(Id, u32, u8),
    Extend(Id, u32),
    /// Extends files 6,1 and 7,1 by a block each in turn, so many times.
    ExtendInTurn(u32),
    /// Lays a file out in one run of so many blocks.
    Contiguous(Id, u32),
    Truncate(Id, u32),
    Delete(Id),
    GrowIndex(u32),
    /// Extends file 6,1 by a block and the index file by a slot in turn, from so many slots on up to so many.
    GrowInTurn(u32, u32),
    Space,
}

/// What a call gives.
#[derive(Clone, Copy, PartialEq, Debug)]
pub enum Given {
    Done,
    File(u16, u16),
    Attr(Attr),
    /// How many blocks a file has, or how many slots there are.
    Count(u32),
    /// A block with this byte all over it.
    Block(u8),
    /// A block of several bytes.
    Mixed,
    /// Free blocks, free headers, and slots.
    Space(u32, u32, u32),
    /// What it shouldn't.
    Wrong,
}

pub type Answer = Result<Given, Refusal>;

/// A call, its answer, and how many transfers it makes, where they are counted.
pub type Row = (Call, Answer, Option<u64>);

fn done(answer: Result<(), Refusal>) -> Answer {
    answer?;
    Ok(Given::Done)
}

fn count(answer: Result<u32, Refusal>) -> Answer {
    Ok(Given::Count(answer?))
}

fn create<D: Device>(
    files: &mut Files<D>,
    owner: Uic,
    protection: u16,
    ident: u8,
    attr: u8,
) -> Answer {
    let made = files.create(owner, protection, &[ident; 46], &[attr; 32])?;
    if made.volume != 0 {
        return Ok(Given::Wrong);
    }
    Ok(Given::File(made.number, made.sequence))
}

fn create_in<D: Device>(files: &mut Files<D>, first: u16, last: u16) -> Answer {
    for number in first..=last {
        if create(files, SYSTEM, 0, 0, 0)? != Given::File(number, 1) {
            return Ok(Given::Wrong);
        }
    }
    Ok(Given::Done)
}

fn read_attr<D: Device>(files: &mut Files<D>, id: FileId) -> Answer {
    if id.number == 0 || id.volume != 0 {
        return Ok(Given::Wrong);
    }
    Ok(Given::Attr(files.read_attr(id)?))
}

fn write_attr<D: Device>(files: &mut Files<D>, id: FileId, change: &Change) -> Answer {
    if id.number < 4 || id.volume != 0 {
        return Ok(Given::Wrong);
    }
    done(files.write_attr(id, change))
}

fn mark<D: Device>(files: &mut Files<D>, id: FileId) -> Answer {
    if id.number < 6 || id.volume != 0 {
        return Ok(Given::Wrong);
    }
    done(files.mark(id))
}

fn length<D: Device>(files: &mut Files<D>, id: FileId) -> Answer {
    if id.number < 4 || id.volume != 0 {
        return Ok(Given::Wrong);
    }
    count(files.length(id))
}

/// The byte that stands all over a block.
fn only_byte(block: &Block) -> Given {
    if block.iter().all(|byte| *byte == block[0]) {
        Given::Block(block[0])
    } else {
        Given::Mixed
    }
}

/// Reads a block into sevens, which stay where it is refused.
fn read<D: Device>(files: &mut Files<D>, id: FileId, vbn: u32) -> Answer {
    if id.number < 4 || id.volume != 0 || vbn == 0 {
        return Ok(Given::Wrong);
    }
    let mut block: Block = SEVENS;
    match files.read_block(id, vbn, &mut block) {
        Ok(()) => Ok(only_byte(&block)),
        Err(_) if block != SEVENS => Ok(Given::Wrong),
        Err(refusal) => Err(refusal),
    }
}

fn write<D: Device>(files: &mut Files<D>, id: FileId, vbn: u32, byte: u8) -> Answer {
    if id.number < 4 || id.volume != 0 || vbn == 0 {
        return Ok(Given::Wrong);
    }
    done(files.write_block(id, vbn, &[byte; 512]))
}

fn extend<D: Device>(files: &mut Files<D>, id: FileId, n: u32) -> Answer {
    if id.number < 4 || id.volume != 0 || n == 0 {
        return Ok(Given::Wrong);
    }
    count(files.extend(id, n))
}

fn contiguous<D: Device>(files: &mut Files<D>, id: FileId, n: u32) -> Answer {
    if id.number < 4 || id.volume != 0 || n == 0 {
        return Ok(Given::Wrong);
    }
    count(files.contiguous(id, n))
}

fn extend_in_turn<D: Device>(files: &mut Files<D>, times: u32) -> Answer {
    for blocks in 1..=times {
        for number in [6, 7] {
            if extend(files, file(number, 1), 1)? != Given::Count(blocks) {
                return Ok(Given::Wrong);
            }
        }
    }
    Ok(Given::Done)
}

fn truncate<D: Device>(files: &mut Files<D>, id: FileId, to: u32) -> Answer {
    if id.number < 4 || id.volume != 0 {
        return Ok(Given::Wrong);
    }
    count(files.truncate(id, to))
}

fn delete<D: Device>(files: &mut Files<D>, id: FileId) -> Answer {
    if id.number < 6 || id.volume != 0 {
        return Ok(Given::Wrong);
    }
    done(files.delete(id))
}

fn grow_index<D: Device>(files: &mut Files<D>, n: u32) -> Answer {
    if n == 0 {
        return Ok(Given::Wrong);
    }
    count(files.grow_index(n))
}

fn grow_in_turn<D: Device>(files: &mut Files<D>, first: u32, last: u32) -> Answer {
    for slots in first..=last {
        let _ = extend(files, file(6, 1), 1)?;
        if grow_index(files, 1)? != Given::Count(slots) {
            return Ok(Given::Wrong);
        }
    }
    Ok(Given::Done)
}

fn space<D: Device>(files: &Files<D>) -> Answer {
    let (free, headers, slots) = files.space();
    Ok(Given::Space(free, headers, slots))
}

fn id_of(id: Id) -> FileId {
    file(id.0, id.1)
}

impl Call {
    /// Makes the call.
    pub fn make<D: Device>(&self, files: &mut Files<D>) -> Answer {
        match *self {
            Call::Create => create(files, SYSTEM, 0, 0, 0),
            Call::CreateIn(first, last) => create_in(files, first, last),
            Call::CreateWith(protection, ident, attr) => {
                create(files, USER, protection, ident, attr)
            }
            Call::ReadAttr(id) => read_attr(files, id_of(id)),
            Call::WriteAttr(id, change) => write_attr(files, id_of(id), &change),
            Call::Mark(id) => mark(files, id_of(id)),
            Call::Length(id) => length(files, id_of(id)),
            Call::Read(id, vbn) => read(files, id_of(id), vbn),
            Call::Write(id, vbn, byte) => write(files, id_of(id), vbn, byte),
            Call::Extend(id, n) => extend(files, id_of(id), n),
            Call::ExtendInTurn(times) => extend_in_turn(files, times),
            Call::Contiguous(id, n) => contiguous(files, id_of(id), n),
            Call::Truncate(id, to) => truncate(files, id_of(id), to),
            Call::Delete(id) => delete(files, id_of(id)),
            Call::GrowIndex(n) => grow_index(files, n),
            Call::GrowInTurn(first, last) => grow_in_turn(files, first, last),
            Call::Space => space(files),
        }
    }
}

/// Opens an accepted volume.
fn opened_of<D: Device + Drop>(alloc: Global, accepted: Accepted<D>) -> Result<Files<D>, Fail> {
    match Files::open(alloc, accepted) {
        Ok(files) => Ok(files),
        Err(_) => Err(DeviceFault)?,
    }
}

/// Opens the volume of a device.
pub fn opened<D: Device + Drop>(alloc: Global, device: D) -> Result<Files<D>, Fail> {
    match verify(alloc, device) {
        Ok(Report::Accepted(accepted, _)) => opened_of(alloc, accepted),
        _ => Err(DeviceFault)?,
    }
}

/// Whether the volume of a device is accepted.
pub fn is_accepted<D: Device + Drop>(alloc: Global, device: D) -> bool {
    matches!(verify(alloc, device), Ok(Report::Accepted(_, _)))
}

/// The transfers so far.
pub fn transfers(files: &Files<Memory>) -> u64 {
    files.lent().transfers()
}

fn is_right(files: &mut Files<Memory>, row: &Row) -> bool {
    let (call, answer, counted) = row;
    let before = transfers(files);
    let is_answer = call.make(files) == *answer;
    let made = transfers(files).saturating_sub(before);
    is_answer && counted.is_none_or(|counted| made == counted)
}

/// Makes the calls of rows one after another, and gives the first row that isn't so.
fn first_wrong(files: &mut Files<Memory>, rows: &[Row]) -> Option<usize> {
    for (i, row) in rows.iter().enumerate() {
        if !is_right(files, row) {
            return Some(i);
        }
    }
    None
}

/// Opens the volume of a device, and makes the calls of rows one after another: the device then, which no call may have failed and
/// whose volume has to be accepted, and the first row that isn't so.
pub fn go(alloc: Global, device: Memory, rows: &[Row]) -> Result<(Memory, Option<usize>), Fail> {
    let mut files = opened(alloc, device)?;
    let wrong = first_wrong(&mut files, rows);
    if files.failed() {
        return Err(DeviceFault)?;
    }
    let files = opened(alloc, files.abandon())?;
    Ok((files.abandon(), wrong))
}
