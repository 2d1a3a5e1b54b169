//! A file that is to be made.

use f11_store::Uic;

/// A file that is to be made, but for its blocks, its directory and its name.
#[derive(Clone, Copy, Debug, PartialEq, Eq)]
pub struct FileToMake {
    /// Its owner.
    pub owner: Uic,
    /// Its protection word.
    pub protection: u16,
    /// Its ident area: name, revision, dates.
    pub ident: [u8; 46],
    /// Its user attributes, at the end: record type, and where it ends.
    pub attr: [u8; 32],
    /// How many blocks it has.
    pub blocks: u32,
    /// Whether they are to be laid in one run, with the contiguous mark, where the volume has one.
    pub in_one_run: bool,
}
