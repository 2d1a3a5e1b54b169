//! How the records of a file are kept.
ghost use Rattle.std.specs.Prelude.{◌≡◌, Some, length};
ghost use Rattle.f11_catalog.specs.LongLine.{records_in, type_name};

use f11_bytes::read_word;
use std::fmt;

/// How the records of a file are kept (Files-11 On-Disk Structure Level 1, "File Attributes").
#[derive(Clone, Copy)]
pub(crate) struct RecordForm {
    /// Their type (F.RTYP).
    pub(crate) kind: u8,
    /// Their attributes (F.RATT).
    pub(crate) attributes: u8,
    /// Their size in bytes, of those of variable length the most (F.RSIZ).
    pub(crate) size: u16,
}

impl RecordForm {
    /// As the attributes of a file say.
    pub(crate) fn of(attributes: &[u8; 32]) -> RecordForm
        ensures { result ≡ records_in attributes.now }
    {
        RecordForm {
            kind: attributes[0],
            attributes: attributes[1],
            size: read_word(attributes, 2),
        }
    }
}

/// What a type of records is called.
fn type_name(kind: u8) -> &'static str
    ensures { result.now ≡ type_name kind }
{
    match kind {
        1 => " fixed ",
        2 => " variable ",
        3 => " sequenced ",
        _ => " records ",
    }
}

/// The attributes of records.
#[derive(Clone, Copy)]
struct ShownAttributes(u8);

impl fmt::Display for ShownAttributes {
    ghost use Rattle.f11_catalog.specs.LongLine.{attributes_shown};

    ghost output = { λ a. Some (attributes_shown a.0) };

    fn fmt<W: fmt::Write>(&self, f: &mut fmt::Formatter<W>) -> fmt::Result {
        let fortran = if self.0 >> 0 & 1 == 1 { " fortran" } else { "" };
        let carriage = if self.0 >> 1 & 1 == 1 {
            " carriage"
        } else {
            ""
        };
        let print = if self.0 >> 2 & 1 == 1 { " print" } else { "" };
        let unspanned = if self.0 >> 3 & 1 == 1 {
            " unspanned"
        } else {
            ""
        };
        write!(f, "{fortran}{carriage}{print}{unspanned}")
    }
}

impl fmt::Display for RecordForm {
    ghost use Rattle.f11_catalog.specs.LongLine.{records_shown};

    ghost output = { λ r. Some (records_shown r) };

    fn fmt<W: fmt::Write>(&self, f: &mut fmt::Formatter<W>) -> fmt::Result {
        let size = self.size;
        if self.kind == 0 {
            return Ok(());
        }
        let kind = type_name(self.kind);
        let attributes = ShownAttributes(self.attributes);
        write!(f, "{kind}{size}{attributes}")
    }
}
