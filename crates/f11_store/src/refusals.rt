//! Why a request is refused (profile).

ghost use Rattle.std.specs.Prelude.{◌≡◌, Some};
ghost use Rattle.f11_store.specs.Refusal.{refusal_name, refusal_number};

use std::fmt;

/// Why a request is refused (profile). The causes are judged in this order, but that of `NotEmpty` and that of `NoRun`.
#[derive(Clone, Copy, PartialEq, Eq, Debug)]
pub enum Refusal {
    /// An earlier request was answered `DeviceFault` or `Damaged`.
    VolumeFailed = 1,
    /// A count or VBN of 0; a file number of 0, or a relative volume other than 0, is given.
    BadArgument,
    /// The lun holds no access, or none to write where one is needed.
    NoSuchAccess,
    /// The lun holds an access already.
    LunInUse,
    /// The file is one of the volume's own.
    SystemFile,
    /// No file has that number and sequence number.
    NoSuchFile,
    /// The file is marked for delete.
    Marked,
    /// The caller hasn't the right.
    NoPrivilege,
    /// Another access to the file stands against it.
    Conflict,
    /// The file is no directory.
    NotDirectory,
    /// The VBN or length is past the allocation.
    EndOfFile,
    /// The directory has no record with that name.
    NoSuchEntry,
    /// The directory has a record with that name.
    DuplicateName,
    /// The index file would have more slots than it may.
    IndexLimit,
    /// The file would have more than 256 headers.
    TooManySegments,
    /// Fewer blocks are free than asked for, with those of slots that the index file is to get first.
    DeviceFull,
    /// Fewer headers are free than needed, and the index file may not get slots for those that lack.
    NoHeader,
    /// Memory was refused.
    NoMemory,
    /// A transfer of a block failed.
    DeviceFault,
    /// The volume's structure was met broken.
    Damaged,
    /// The file has blocks, and only one without may be laid in one run. It is judged behind `DuplicateName`.
    NotEmpty,
    /// Nowhere are so many free blocks in a row. It is judged behind `NoHeader`.
    NoRun,
}

impl Refusal {
    /// Its number, 1 to 22.
    pub fn number(self) -> u8
        ensures { result ≡ refusal_number self }
    {
        self as u8
    }

    /// Its name, as printed.
    pub fn name(self) -> &'static str
        ensures { result.now ≡ refusal_name self }
    {
        match self {
            Refusal::VolumeFailed => "VolumeFailed",
            Refusal::BadArgument => "BadArgument",
            Refusal::NoSuchAccess => "NoSuchAccess",
            Refusal::LunInUse => "LunInUse",
            Refusal::SystemFile => "SystemFile",
            Refusal::NoSuchFile => "NoSuchFile",
            Refusal::Marked => "Marked",
            Refusal::NoPrivilege => "NoPrivilege",
            Refusal::Conflict => "Conflict",
            Refusal::NotDirectory => "NotDirectory",
            Refusal::EndOfFile => "EndOfFile",
            Refusal::NoSuchEntry => "NoSuchEntry",
            Refusal::DuplicateName => "DuplicateName",
            Refusal::IndexLimit => "IndexLimit",
            Refusal::TooManySegments => "TooManySegments",
            Refusal::DeviceFull => "DeviceFull",
            Refusal::NoHeader => "NoHeader",
            Refusal::NoMemory => "NoMemory",
            Refusal::DeviceFault => "DeviceFault",
            Refusal::Damaged => "Damaged",
            Refusal::NotEmpty => "NotEmpty",
            Refusal::NoRun => "NoRun",
        }
    }
}

impl fmt::Display for Refusal {
    ghost output = { λ refusal. Some (refusal_name refusal) };

    fn fmt<W: fmt::Write>(&self, f: &mut fmt::Formatter<W>) -> fmt::Result {
        f.write_str(self.name())
    }
}
