//! Parts of a file's line.
ghost use Rattle.std.specs.Prelude.{Some};

use crate::facts::FileFacts;
use crate::line_form::LineForm;
use f11_numbers::ShownRights;
use f11_rad50::Name;
use std::fmt;

/// A name, or `?`.
#[derive(Clone, Copy)]
pub(crate) struct ShownName(pub(crate) Option<Name>);

impl fmt::Display for ShownName {
    ghost use Rattle.f11_catalog.specs.Lines.{found_shown};

    ghost output = { λ n. Some (found_shown n.0) };

    fn fmt<W: fmt::Write>(&self, f: &mut fmt::Formatter<W>) -> fmt::Result {
        match self.0 {
            Some(name) => write!(f, "{name}"),
            None => write!(f, "?"),
        }
    }
}

/// What a file's characteristics say of it.
#[derive(Clone, Copy)]
pub(crate) struct ShownMarks(pub(crate) u16);

impl fmt::Display for ShownMarks {
    ghost use Rattle.f11_catalog.specs.Lines.{marks_shown};

    ghost output = { λ m. Some (marks_shown m.0) };

    fn fmt<W: fmt::Write>(&self, f: &mut fmt::Formatter<W>) -> fmt::Result {
        let contiguous = if self.0 >> 7 & 1 == 1 {
            " contiguous"
        } else {
            ""
        };
        let marked = if self.0 >> 15 & 1 == 1 { " marked" } else { "" };
        let open = if self.0 >> 6 & 1 == 1 { " open" } else { "" };
        write!(f, "{contiguous}{marked}{open}")
    }
}

/// Whether the bit of a file's slot is 1.
#[derive(Clone, Copy)]
pub(crate) struct ShownUse(pub(crate) bool);

impl fmt::Display for ShownUse {
    ghost use Rattle.f11_catalog.specs.Lines.{use_shown};

    ghost output = { λ u. Some (use_shown u.0) };

    fn fmt<W: fmt::Write>(&self, f: &mut fmt::Formatter<W>) -> fmt::Result {
        let out_of_use = if self.0 { "" } else { " out of use" };
        write!(f, "{out_of_use}")
    }
}

/// A protection word, in octal or by what each class is granted.
#[derive(Clone, Copy)]
pub(crate) struct ShownProtection(pub(crate) LineForm, pub(crate) u16);

impl fmt::Display for ShownProtection {
    ghost use Rattle.f11_catalog.specs.Lines.{protection_shown};

    ghost output = { λ p. Some (protection_shown p.0 p.1) };

    fn fmt<W: fmt::Write>(&self, f: &mut fmt::Formatter<W>) -> fmt::Result {
        let word = self.1;
        match self.0 {
            LineForm::Short => write!(f, "{word:o}"),
            LineForm::Long => {
                let rights = ShownRights(word);
                write!(f, "{rights}")
            }
        }
    }
}

/// What the long line of a file tells beside.
#[derive(Clone, Copy)]
pub(crate) struct ShownMore(pub(crate) LineForm, pub(crate) FileFacts);

impl fmt::Display for ShownMore {
    ghost use Rattle.f11_catalog.specs.Lines.{more_shown};

    ghost output = { λ m. Some (more_shown m.0 m.1) };

    fn fmt<W: fmt::Write>(&self, f: &mut fmt::Formatter<W>) -> fmt::Result {
        let FileFacts { dates, records, .. } = self.1;
        match self.0 {
            LineForm::Short => Ok(()),
            LineForm::Long => write!(f, "{dates}{records}"),
        }
    }
}
