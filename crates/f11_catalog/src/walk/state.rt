//! How far a walk over all files has come.
ghost use Rattle.std.specs.Prelude.{◌≡◌, ◌≤◌, vec_len};

use crate::directory_name::DirectoryName;
use crate::found::FoundDirectory;
use f11_store::FileId;

/// A directory, whose records are read.
#[derive(Clone, Copy)]
pub(crate) struct OpenDirectory {
    pub(crate) name: DirectoryName,
    pub(crate) id: FileId,
    pub(crate) found: FoundDirectory,
}

/// File numbers, one after another, and which of them were met.
#[derive(Drop)]
pub(crate) struct Numbers {
    /// Of each number, whether it was met.
    pub(crate) met: Vec<bool>,
    /// The least number that wasn't looked at, from 1.
    pub(crate) next: u32,
    /// A file number has 16 bits.
    pub ghost room: { vec_len met ≡ 65536 },
    pub ghost few: { next ≤ 65536 },
}

/// The directories, one after another: those that the master file directory names, and behind them, by their numbers and under the names
/// that their own headers have, those that it doesn't name, and then those whose slots aren't in use and to which others lead.
#[derive(Drop)]
pub(crate) struct Directories {
    /// The master file directory, of whose records those of further directories are still to come, if it can be read.
    pub(crate) master: Option<FoundDirectory>,
    /// The numbers that weren't met there as those of a directory.
    pub(crate) others: Numbers,
    /// The numbers that were met as those to which directories lead.
    pub(crate) led: Numbers,
}

/// What directories name, one record after another.
#[derive(Drop)]
pub(crate) struct EnteredFiles {
    /// The directory in hand, if there is one.
    pub(crate) hand: Option<OpenDirectory>,
    /// Those that are still to come.
    pub(crate) directories: Directories,
}

/// All files of a volume, one after another: what the directories name that the master file directory names, a record at a time, in the
/// order in which [`crate::list_directories`] goes over them; then what the other directories name whose own headers have names, in the
/// order of their numbers; then what those directories name whose slots aren't in use and to which one that is gone over leads; and behind
/// all that, by their numbers, the files that none of these directories names.
#[derive(Drop)]
pub struct AllFiles {
    pub(crate) entered: EnteredFiles,
    /// The numbers that weren't met in a directory as those of a file.
    pub(crate) others: Numbers,
}
