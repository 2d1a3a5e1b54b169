//! A file's first header and its last, which are in hand still once the index file grew.
ghost use Rattle.std.specs.Prelude.{IfErr, OnOk};
ghost use Rattle.f11_files.specs.Extending.Again.{AreInUse, AreNot};
ghost use Rattle.f11_files.specs.Structure.{index_in};

use crate::structure::Structure;
use f11_chain::FileEnd;
use f11_store::{FileId, Refusal};

impl Structure {
    /// Whether the slots of a file's first header and of its last are in use still, where slots came meanwhile: on an honest device they
    /// are, and the headers, which are in hand, are what they were.
    ///
    /// # Errors
    ///
    /// `Damaged` where one isn't.
    pub(crate) fn find_still(&self, f: FileId, end: FileEnd) -> Result<(), Refusal>
        ensures found { OnOk result (AreInUse (index_in self.now) f end) }
        ensures refused { IfErr result (λ refusal. AreNot (index_in self.now) f end refusal) }
    {
        if self.index.in_use(f.number) && self.index.in_use(end.number) {
            Ok(())
        } else {
            Err(Refusal::Damaged)
        }
    }
}
