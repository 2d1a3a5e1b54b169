//! Where a file of a volume stands.

ghost use Rattle.std.specs.Prelude.{◌≡◌, Some};

use crate::directory_name::DirectoryName;
use crate::shown::ShownName;
use crate::walk::content::Content;
use f11_rad50::Name;
use f11_store::FileId;
use std::fmt;

/// Where a file of a volume stands.
#[derive(Clone, Copy)]
pub enum Place {
    /// In a directory, under a name, or under words that are none.
    Entered(DirectoryName, Option<Name>, FileId),
    /// In no directory. The name is its own header's, if it has one.
    Lost(Option<Name>, FileId),
}

impl Place {
    ghost use Rattle.f11_catalog.specs.AllFiles.{id_of};

    /// The identification of the file that stands there.
    pub fn id(&self) -> FileId
        ensures { result ≡ id_of self.now }
    {
        match self {
            Place::Entered(_, _, id) => *id,
            Place::Lost(_, id) => *id,
        }
    }
}

impl fmt::Display for Place {
    ghost use Rattle.f11_catalog.specs.Lines.{place_text};

    ghost output = { λ place. Some (place_text place) };

    /// Writes `[g,m] NAME.TYP;V`, `?` standing for a name that is none, or `lost N,S` and the name that the file's own header has
    /// (profile).
    fn fmt<W: fmt::Write>(&self, f: &mut fmt::Formatter<W>) -> fmt::Result {
        match self {
            Place::Entered(directory, name, _) => {
                let name = ShownName(*name);
                write!(f, "{directory} {name}")
            }
            Place::Lost(None, id) => write!(f, "lost {id}"),
            Place::Lost(Some(name), id) => write!(f, "lost {id} {name}"),
        }
    }
}

/// What stands in a place of a volume; of a file no block was read.
#[derive(Clone, Copy)]
pub struct FileAt {
    /// The place.
    pub place: Place,
    /// What stands there.
    pub content: Content,
}
