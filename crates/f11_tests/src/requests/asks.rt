//! Requests of tasks, asked one after another from tables.

use f11_bytes::{Block, word_bytes};
use f11_dev::{Device, DeviceFault, Memory};
use f11_dir::put_words;
use f11_fcp::{Call, Volume};
pub use f11_fixtures::volumes::mounted;
use f11_fixtures::{SEVENS, SYSTEM, ZEROS, file, volumes};
use f11_rad50::Name;
use f11_store::{Change, FileId, Lun, Mode, Refusal, Reply, Request, Task, Uic};
use f11_vfy::{Report, verify};
use std::alloc::Global;
use std::test::Fail;

/// A user who isn't of the system class.
pub const USER: Uic = Uic {
    group: 0o200,
    member: 1,
};

/// A file's number and its sequence number.
pub type Id = (u16, u16);

/// A file's number, its sequence number and its relative volume.
pub type FullId = (u16, u16, u16);

/// The five words of a name.
pub type Words = [u16; 5];

/// Three records of a directory.
pub type Records = [[u16; 8]; 3];

/// F.HIBK, F.EFBK and F.FFBY of a directory.
pub type End = (u8, u8, u16);

/// The master file directory, and the first file that is made.
pub const MASTER: FullId = (4, 4, 0);

pub const SIX: FullId = (6, 1, 0);

/// The words of X.TXT;1.
pub const X: Words = [38400, 0, 0, 32980, 1];

/// What a task asks; luns stand as their numbers.
#[derive(Clone, Copy, Debug)]
pub enum Ask {
    /// A file without blocks, which everybody may use.
    Create,
    /// A directory without blocks, 200001.DIR;1, which everybody may use.
    CreateDirectory,
    Access(Id, Mode, u8),
    Deaccess(u8),
    Release,
    Extend(u8, u32),
    Contiguous(u8, u32),
    Truncate(u8, u32),
    Delete(Id),
    GrowIndex(u32),
    /// The block at this VBN, which has to hold zeros.
    Read(u8, u32),
    /// Sevens into the block at this VBN.
    Write(u8, u32),
    /// The block at this VBN, which has to hold these records and then zeros.
    ReadRecords(u8, u32, Records),
    /// These records and then zeros into the block at this VBN.
    WriteRecords(u8, u32, Records),
    Find(FullId, Words),
    Enter(FullId, Words, FullId),
    Remove(FullId, Words),
    ReadAttr(Id),
    /// The attributes, answered as `Done` where they are those of a directory with this end.
    ReadEnd(Id, End),
    Protect(Id, u16),
    /// Other attributes.
    SetAttr(Id),
    /// The attributes of records of this type and size, with an end of 0.
    SetRecords(Id, u8, u8),
    /// The attributes of a directory with this end.
    SetEnd(Id, End),
    Space,
}

/// A task, the user that it asks for, what it asks, and the answer.
pub type Row = (u8, Uic, Ask, Result<Reply, Refusal>);

/// The lun of a number below 4.
fn lun_of(number: u8) -> Lun {
    match Lun::new(number % 4) {
        Some(lun) => lun,
        None => unreachable!(),
    }
}

/// The identification.
fn id_of(id: FullId) -> FileId {
    FileId {
        number: id.0,
        sequence: id.1,
        volume: id.2,
    }
}

/// The attributes of records of this type and size, with this end.
pub fn attributes(kind: u8, size: u8, end: End) -> [u8; 32] {
    let (blocks, block, byte) = end;
    let [low, high] = word_bytes(byte);
    let mut attr = [0; 32];
    (attr[0], attr[2], attr[6]) = (kind, size, blocks);
    (attr[10], attr[12], attr[13]) = (block, low, high);
    attr
}

/// The ident area of 200001.DIR;1.
fn directory_ident() -> [u8; 46] {
    let mut ident = [0; 46];
    ident[0..10].copy_from_slice(&[0xce, 0xcc, 0x4f, 0xc0, 0, 0, 0x7a, 0x1a, 1, 0]);
    ident
}

/// A block of these records and then zeros.
fn block_of(records: &Records) -> Block {
    let mut block = ZEROS;
    for (i, words) in records.iter().enumerate() {
        if i < 32 {
            put_words(&mut block, i, words);
        }
    }
    block
}

/// A new file without blocks, which everybody may use.
fn create(ident: [u8; 46], attr: [u8; 32]) -> Request {
    Request::Create {
        protection: 0,
        ident,
        attr,
    }
}

/// The request that replaces a file's attributes.
fn set_attr(id: Id, attr: [u8; 32]) -> Request {
    Request::WriteAttr(file(id.0, id.1), Change::Attr(attr))
}

impl Ask {
    /// The request. There is none for words that are those of no name.
    fn request(&self) -> Option<Request> {
        Some(match *self {
            Ask::Create => create([0; 46], [0; 32]),
            Ask::CreateDirectory => create(directory_ident(), attributes(1, 16, (0, 0, 0))),
            Ask::Access(id, mode, lun) => Request::Access(file(id.0, id.1), mode, lun_of(lun)),
            Ask::Deaccess(lun) => Request::Deaccess(lun_of(lun)),
            Ask::Release => Request::Release,
            Ask::Extend(lun, n) => Request::Extend(lun_of(lun), n),
            Ask::Contiguous(lun, n) => Request::Contiguous(lun_of(lun), n),
            Ask::Truncate(lun, to) => Request::Truncate(lun_of(lun), to),
            Ask::Delete(id) => Request::Delete(file(id.0, id.1)),
            Ask::GrowIndex(n) => Request::GrowIndex(n),
            Ask::Read(lun, vbn) | Ask::ReadRecords(lun, vbn, _) => {
                Request::ReadBlock(lun_of(lun), vbn)
            }
            Ask::Write(lun, vbn) | Ask::WriteRecords(lun, vbn, _) => {
                Request::WriteBlock(lun_of(lun), vbn)
            }
            Ask::Find(d, words) => Request::Find(id_of(d), Name::from_words(words)?),
            Ask::Enter(d, words, f) => {
                Request::Enter(id_of(d), Name::from_words(words)?, id_of(f))
            }
            Ask::Remove(d, words) => Request::Remove(id_of(d), Name::from_words(words)?),
            Ask::ReadAttr(id) | Ask::ReadEnd(id, _) => Request::ReadAttr(file(id.0, id.1)),
            Ask::Protect(id, word) => {
                Request::WriteAttr(file(id.0, id.1), Change::Protect(word))
            }
            Ask::SetAttr(id) => set_attr(id, [7; 32]),
            Ask::SetRecords(id, kind, size) => set_attr(id, attributes(kind, size, (0, 0, 0))),
            Ask::SetEnd(id, end) => set_attr(id, attributes(1, 16, end)),
            Ask::Space => Request::Space,
        })
    }

    /// The block that is lent.
    fn lent(&self) -> Block {
        match self {
            Ask::WriteRecords(_, _, records) => block_of(records),
            _ => SEVENS,
        }
    }

    /// The block that is lent as it has to be where the request is served.
    fn wanted(&self) -> Block {
        match self {
            Ask::Read(..) => ZEROS,
            Ask::ReadRecords(_, _, records) => block_of(records),
            _ => self.lent(),
        }
    }

    /// The answer, as rows have it.
    fn told(&self, answer: Result<Reply, Refusal>) -> Result<Reply, Refusal> {
        match (self, answer) {
            (Ask::ReadEnd(_, end), Ok(Reply::Attr(attr))) => {
                if attr.attr == attributes(1, 16, *end) {
                    Ok(Reply::Done)
                } else {
                    answer
                }
            }
            _ => answer,
        }
    }

    /// Asks it of a volume: the answer, or nothing where the block that is lent isn't as it should be.
    pub fn of<D: Device>(
        &self,
        volume: &mut Volume<D>,
        task: u8,
        caller: Uic,
    ) -> Option<Result<Reply, Refusal>> {
        let request = self.request()?;
        let mut block = self.lent();
        let answer = volume.serve(Task::new(task)?, caller, &request, &mut block);
        let wanted = if answer.is_ok() {
            self.wanted()
        } else {
            self.lent()
        };
        if block == wanted {
            Some(self.told(answer))
        } else {
            None
        }
    }
}

/// Asks what rows say, one after another, and gives the first row that isn't so.
pub fn first_wrong<D: Device>(volume: &mut Volume<D>, rows: &[Row]) -> Option<usize> {
    for (i, (task, caller, ask, answer)) in rows.iter().enumerate() {
        if ask.of(volume, *task, *caller) != Some(*answer) {
            return Some(i);
        }
    }
    None
}

impl Ask {
    /// It as a call of a list.
    fn call(&self, task: u8, caller: Uic) -> Option<Call> {
        Some(Call {
            task: Task::new(task)?,
            uic: caller,
            request: self.request()?,
            block: self.lent(),
            answer: None,
        })
    }

    /// Whether a call of a list has this answer, and a block as it should be.
    fn is_answered(&self, call: &Call, answer: Result<Reply, Refusal>) -> bool {
        let wanted = if answer.is_ok() {
            self.wanted()
        } else {
            self.lent()
        };
        match call.answer {
            Some(told) => call.block == wanted && self.told(told) == answer,
            None => false,
        }
    }
}

/// Asks what rows say as one list, and gives the first row that isn't so.
pub fn first_wrong_in_list<D: Device>(
    alloc: Global,
    volume: &mut Volume<D>,
    rows: &[Row],
) -> Result<Option<usize>, Fail> {
    let mut calls = Vec::new(alloc);
    for (task, caller, ask, _) in rows {
        if let Some(call) = ask.call(*task, *caller) {
            calls.push(call)?;
        }
    }
    volume.run(calls.as_mut_slice());
    for (i, (_, _, ask, answer)) in rows.iter().enumerate() {
        match calls.get(i) {
            Some(call) if ask.is_answered(call, *answer) => {}
            _ => return Ok(Some(i)),
        }
    }
    Ok(None)
}

/// Gives the device of a volume back, which no request may have failed, and whose volume has to be accepted.
pub fn dismounted<D: Device + Drop>(alloc: Global, volume: Volume<D>) -> Result<D, Fail> {
    let Ok(accepted) = volume.dismount() else {
        return Err(DeviceFault)?;
    };
    match verify(alloc, accepted.device()) {
        Ok(Report::Accepted(accepted, _)) => Ok(accepted.device()),
        _ => Err(DeviceFault)?,
    }
}

/// Whether 6,1 is entered into a directory as N.TXT with these versions, from one to another.
pub fn enters_all<D: Device>(
    volume: &mut Volume<D>,
    directory: FullId,
    first: u16,
    last: u16,
) -> bool {
    for version in first..=last {
        let ask = Ask::Enter(directory, [22400, 0, 0, 32980, version], SIX);
        if ask.of(volume, 0, SYSTEM) != Some(Ok(Reply::Done)) {
            return false;
        }
    }
    true
}

/// A volume of 400 blocks with a file 6,1, which fills the master file directory's block as N.TXT;1 to N.TXT;33: five records were in it
/// before, and the versions are octal.
pub fn full_directory(alloc: Global) -> Result<Memory, Fail> {
    let mut volume = mounted(alloc, volumes::fresh(alloc, 400)?)?;
    if Ask::Create.of(&mut volume, 0, SYSTEM).is_none() {
        return Err(DeviceFault)?;
    }
    if !enters_all(&mut volume, MASTER, 1, 0o33) {
        return Err(DeviceFault)?;
    }
    dismounted(alloc, volume)
}
