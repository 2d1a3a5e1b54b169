//! What a request says of a file.

ghost use Rattle.std.specs.Prelude.{◌≡◌, ◌<◌, length};
ghost use Rattle.f11_store.specs.File.{name_words};

use crate::callers::Uic;
use f11_bytes::read_word;
use std::fmt;

/// A file identification: slot number, sequence number, relative volume
/// (Files-11 On-Disk Structure Level 1, file identification).
#[derive(Clone, Copy, PartialEq, Eq, Debug)]
pub struct FileId {
    /// The slot of the file's first header, from 1.
    pub number: u16,
    /// The sequence number, which tells the files apart that a slot has held one after another.
    pub sequence: u16,
    /// The relative volume, 0 on a volume that stands alone.
    pub volume: u16,
}

impl fmt::Display for FileId {
    ghost use Rattle.std.specs.Prelude.{Some};
    ghost use Rattle.f11_store.specs.Text.{id_text};

    ghost output = { λ id. Some (id_text id) };

    /// Writes `NUMBER,SEQUENCE`, and `,VOLUME` behind it where the relative volume isn't 0, in
    /// decimal (profile).
    fn fmt<W: fmt::Write>(&self, f: &mut fmt::Formatter<W>) -> fmt::Result {
        write!(f, "{},{}", self.number, self.sequence)?;
        if self.volume != 0 {
            write!(f, ",{}", self.volume)?;
        }
        Ok(())
    }
}

/// How a file is accessed (profile).
#[derive(Clone, Copy, PartialEq, Eq, Debug)]
pub enum Mode {
    /// To read, whoever else reads or writes.
    Read,
    /// To read, while nobody writes.
    Locked,
    /// To read, write, extend and truncate, while nobody else writes or locks.
    Write,
}

/// A change of a file's attributes (profile).
#[derive(Clone, Copy, PartialEq, Eq, Debug)]
pub enum Change {
    /// The user attributes (Files-11 On-Disk Structure Level 1, file header, H.UFAT).
    Attr([u8; 32]),
    /// The ident area (Files-11 On-Disk Structure Level 1, ident area).
    Ident([u8; 46]),
    /// The protection word (Files-11 On-Disk Structure Level 1, file header, H.FPRO).
    Protect(u16),
}

/// The attributes of a file (Files-11 On-Disk Structure Level 1, file header).
#[derive(Clone, Copy, PartialEq, Eq, Debug)]
pub struct Attr {
    /// The owner, H.FOWN.
    pub owner: Uic,
    /// The protection word, H.FPRO.
    pub protection: u16,
    /// The characteristics, H.UCHA in the low byte and H.SCHA in the high one.
    pub characteristics: u16,
    /// The ident area.
    pub ident: [u8; 46],
    /// The user attributes, H.UFAT.
    pub attr: [u8; 32],
}

/// The five words at the front of an ident area: three of the name, type and version, whatever they are
/// (Files-11 On-Disk Structure Level 1, ident area).
pub fn name_words(ident: &[u8]) -> [u16; 5]
    requires { 9 < length ident.now }
    ensures { result ≡ name_words ident.now }
{
    [
        read_word(ident, 0),
        read_word(ident, 2),
        read_word(ident, 4),
        read_word(ident, 6),
        read_word(ident, 8),
    ]
}
