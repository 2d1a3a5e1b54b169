//! What becomes of a file that is to be copied.

use rt11_volume::RtRefusal;

/// Why the file of an entry isn't copied, in the order in which the causes are judged (profile).
///
/// Nothing is written then, unless a transfer to the volume failed (`Refused(DeviceFault)`).
#[derive(Clone, Copy, Debug, PartialEq, Eq)]
pub enum RtUncopied {
    /// The entry is that of an empty or a tentative area, which is no file's.
    NoFile,
    /// The entry's status says none of the three kinds, or several.
    StatusWrong,
    /// The words of its name are no name.
    NoName,
    /// A block of the file lies past the end of its device, or past block 65534.
    PastEnd,
    /// A transfer failed while the file was read.
    Unreadable,
    /// The volume has no place for it: as the calls of an accepted volume are refused. `NoMemory` where there was none for its blocks.
    Refused(RtRefusal),
}

/// What became of the file of an entry.
#[derive(Clone, Copy, Debug, PartialEq, Eq)]
pub enum RtCopied {
    /// It is on the volume.
    Copied,
    /// It isn't, for this.
    NotCopied(RtUncopied),
}
