//! What a user has done to a file by its name.

use f11_rad50::Name;
use f11_store::Uic;

/// What is done to a file of a Files-11 volume by its name. A directory is told by the name that the master file directory has for it.
#[derive(Clone, Copy, Debug)]
pub enum Action {
    /// Its name is removed, and it is deleted, if it is there.
    Delete {
        directory: Name,
        name: Name,
    },
    /// It is deleted as `Delete` does, as a lower version of a name whose file is there; where both names lead to one file, the lower one alone
    /// is removed.
    Purge {
        directory: Name,
        name: Name,
        highest: Name,
    },
    /// It gets a name in this directory or another, and the old one is removed.
    Rename {
        directory: Name,
        name: Name,
        to: Name,
        new: Name,
    },
    /// It gets this protection (Files-11 On-Disk Structure Level 1, "File Protection").
    Protect {
        directory: Name,
        name: Name,
        protection: u16,
    },
    /// It loses the blocks behind the end that its attributes state (Files-11 On-Disk Structure Level 1, file attributes).
    Truncate {
        directory: Name,
        name: Name,
    },
    /// A directory without records is made, for its owner and with this protection, and gets this name in the master file directory.
    MakeDirectory {
        name: Name,
        owner: Uic,
        protection: u16,
    },
}
