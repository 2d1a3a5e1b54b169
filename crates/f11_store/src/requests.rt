//! What a task may ask of a volume, and what it is answered (profile).

use crate::callers::Lun;
use crate::files::{Attr, Change, FileId, Mode};
use f11_rad50::Name;

/// A request of a task (profile). Blocks have 512 bytes; VBNs count a file's blocks from 1.
#[derive(Clone, Copy, PartialEq, Eq, Debug)]
pub enum Request {
    /// A new file without blocks, owned by the caller. Where no slot is free, the index file gets one first.
    Create {
        /// Its protection word.
        protection: u16,
        /// Its ident area.
        ident: [u8; 46],
        /// Its user attributes.
        attr: [u8; 32],
    },
    /// So many blocks of zeros more at the end of the file accessed by the lun. The index file first gets a slot for each header that lacks.
    Extend(Lun, u32),
    /// So many blocks of zeros in one run for the file accessed by the lun, which has none: it gets the contiguous mark.
    Contiguous(Lun, u32),
    /// The file accessed by the lun keeps its first so many blocks.
    Truncate(Lun, u32),
    /// The file is deleted, or marked for it while it is accessed.
    Delete(FileId),
    /// So many slots more in the index file.
    GrowIndex(u32),
    /// The lun gets an access to the file.
    Access(FileId, Mode, Lun),
    /// The lun gives its access up.
    Deaccess(Lun),
    /// Each lun of the task gives its access up.
    Release,
    /// The block at this VBN of the file accessed by the lun.
    ReadBlock(Lun, u32),
    /// The block at this VBN of the file accessed by the lun is replaced.
    WriteBlock(Lun, u32),
    /// The identification that the directory has under the name.
    Find(FileId, Name),
    /// The directory gets a record with the name and the identification after it, and where it needs one, a block first, as `Extend`.
    Enter(FileId, Name, FileId),
    /// The directory loses its first record with the name.
    Remove(FileId, Name),
    /// The file's attributes.
    ReadAttr(FileId),
    /// The file's attributes are changed.
    WriteAttr(FileId, Change),
    /// The counts of the volume.
    Space,
}

/// The answer to a request that was served (profile).
#[derive(Clone, Copy, PartialEq, Eq, Debug)]
pub enum Reply {
    /// It is done.
    Done,
    /// The new file.
    Created(FileId),
    /// The length of the file, in blocks.
    Length(u32),
    /// The number of slots of the index file.
    Slots(u32),
    /// The identification found.
    Found(FileId),
    /// The file's attributes.
    Attr(Attr),
    /// The counts of the volume.
    Space {
        /// Free blocks.
        free: u32,
        /// Free headers.
        headers: u32,
        /// Slots of the index file.
        slots: u32,
    },
}
