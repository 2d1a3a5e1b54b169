//! One record of a directory.
ghost use Rattle.std.specs.Prelude.{◌≡◌, ◌≢◌, ◌↔◌, IsTrue, SomeIff};
ghost use Rattle.f11_store.specs.rad50.Name.{IsName};

use f11_store::FileId;
use f11_store::f11_rad50::Name;

/// A record of a directory: a file's identification, and the five words of its name
/// (Files-11 On-Disk Structure Level 1, directories).
#[derive(Clone, Copy, PartialEq, Eq, Debug)]
pub struct Record {
    /// The file. In an empty record its number is 0.
    pub id: FileId,
    /// Three words of the name and one of the type in Radix-50, and the version. A block that was
    /// read may hold any five words.
    pub words: [u16; 5],
}

impl Record {
    /// Whether it is empty: the file number is 0, whatever its other words are.
    pub fn is_empty(&self) -> bool
        ensures { IsTrue result ↔ (self.now.id.number ≡ 0) }
    {
        self.id.number == 0
    }

    /// The name. `None` for an empty record, and where its words are those of no name.
    pub fn name(&self) -> Option<Name>
        ensures { SomeIff result ((self.now.id.number ≢ 0) × IsName self.now.words) self.now.words }
    {
        if self.is_empty() {
            return None;
        }
        Name::from_words(self.words)
    }

    /// Whether it isn't empty and has this name.
    pub fn has_name(&self, name: &Name) -> bool
        ensures { IsTrue result ↔ ((self.now.id.number ≢ 0) × (self.now.words ≡ name.now)) }
    {
        !self.is_empty() && self.words == name.words()
    }
}
