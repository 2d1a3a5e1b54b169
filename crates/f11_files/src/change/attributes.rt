//! What a file's first header says of it.
ghost use Rattle.std.specs.Option.{option_copied};
ghost use Rattle.std.specs.Prelude.{◌≡◌, ◌+◌, ◌≤◌, false, IfErr, IfOk, IfSome, IsTrue, OnOk};
ghost use Rattle.f11_chain.specs.Calls.{HoldsHeader};
ghost use Rattle.f11_files.specs.Answers.{FailsToRead, is_fatal, is_refused, KeepsUnused, MakesAtMost, WritesFirstOf};
ghost use Rattle.f11_files.specs.Calls.{ReadsAttr};
ghost use Rattle.f11_files.specs.Changing.Fields.{altered_by, Alters, FailsToAlter};
ghost use Rattle.f11_files.specs.Finding.First.{IsFirstHeaderOf, reads_for};
ghost use Rattle.f11_files.specs.Operations.{attr_in, file_causes};
ghost use Rattle.f11_files.specs.Structure.{home_of, index_in, store_on, IsStructureFor, StaysFor, WritesParts};
ghost use Rattle.f11_files.specs.declared.change.fields.Alteration.TheVariants.{MarkContiguous};
ghost use Rattle.f11_image_store.specs.Allocation.{GainsBlocks};
ghost use Rattle.f11_image_store.specs.Confines.{only_header};
ghost use Rattle.f11_store.specs.Changes.{with_replacement, with_delete_mark};
ghost use Rattle.f11_volume.specs.Volume.{volume_of};

use crate::answer::is_fatal;
use crate::change::fields::{Alteration, apply};
use crate::extend::tail::Tail;
use crate::files::Files;
use crate::structure::Structure;
use f11_bytes::{BLOCK_SIZE, Block};
use f11_dev::Device;
use f11_header::Header;
use f11_store::{Attr, Change, FileId, Refusal};

/// What a first header says of its file.
fn attr_of(block: &Block, f: FileId) -> Attr
    requires { IsFirstHeaderOf f block.now }
    ensures { result ≡ attr_in block.now }
{
    let header = Header::new(block);
    let mut ident = [0; 46];
    ident.copy_from_slice(header.ident());
    Attr {
        owner: header.owner(),
        protection: header.protection(),
        characteristics: header.characteristics(),
        ident,
        attr: header.attributes(),
    }
}

impl Structure {
    /// Reads what a file's header says of it: one transfer at most.
    ///
    /// # Errors
    ///
    /// Those of [`Structure::read_first`].
    pub(crate) fn read_attr<D: Device>(&self, device: &mut D, f: FileId) -> Result<Attr, Refusal>
        requires is_for { IsStructureFor self.now (D.disk device.old) }
        ensures read { IfOk result (λ attr. ReadsAttr (home_of self.now) f attr
            (D.disk device.old) (D.disk device.new)) }
        ensures refused { IfErr result (λ refusal. FailsToRead false
            (file_causes (store_on self.now (D.disk device.old)) f) 1 refusal
            (D.disk device.old) (D.disk device.new)) }
        ensures bounded { MakesAtMost 1 (D.disk device.old) (D.disk device.new) }
    {
        let mut block = [0; BLOCK_SIZE];
        self.read_first(device, f, &mut block)?;
        Ok(attr_of(&block, f))
    }

    /// Alters what a file's first header says: one read and one write at most. The header is read where the one in hand, if there is one,
    /// isn't it.
    ///
    /// # Errors
    ///
    /// Those of [`Structure::get_first`], and `DeviceFault` where the transfer failed.
    pub(crate) fn alter<D: Device>(
        &self,
        device: &mut D,
        f: FileId,
        held: Option<&Tail>,
        alteration: Alteration,
    ) -> Result<(), Refusal>
        requires is_for { IsStructureFor self.now (D.disk device.old) }
        requires own { 4 ≤ f.number }
        requires holds { IfSome held (λ tail. HoldsHeader (index_in self.now) tail.now.number
            tail.now.block (D.disk device.old)) }
        ensures altered { OnOk result (Alters (altered_by alteration) (home_of self.now) f
            (D.disk device.old) (D.disk device.new)) }
        ensures gains { let home = home_of self.now in
            alteration ≡ MarkContiguous → OnOk result
            (IsTrue (D.disk device.old).honest → KeepsUnused (GainsBlocks f.number 0)
            (volume_of (D.disk device.old).image home) (volume_of (D.disk device.new).image home)) }
        ensures refused { IfErr result (λ refusal. FailsToAlter false (altered_by alteration)
            (home_of self.now) f refusal (D.disk device.old) (D.disk device.new)) }
        ensures stays { StaysFor (is_refused is_fatal result) self.now self.now
            (D.disk device.new) }
        ensures confined { WritesParts self.now (only_header f.number) (D.disk device.old)
            (D.disk device.new) }
        ensures bounded { MakesAtMost (reads_for f (option_copied held.entry) + 1) (D.disk device.old)
            (D.disk device.new) }
    {
        let mut block = [0; BLOCK_SIZE];
        self.get_first(device, f, held, &mut block)?;
        apply(&mut block, f, alteration);
        match device.write(self.index.lbn_of_header(f.number), &block) {
            Ok(()) => Ok(()),
            Err(_) => Err(Refusal::DeviceFault),
        }
    }
}

impl<D: Device> Files<D> {
    ghost use Rattle.f11_files.specs.Open.{disk_in, has_failed, home_in, store_in, AnswersCall, IsIdFrom, CallSparesLost, KeepsTold};

    /// What a file's header says of it, of one that is marked for delete too, and of the volume's own files. One transfer at most.
    ///
    /// # Errors
    ///
    /// `VolumeFailed` where an earlier call answered `DeviceFault` or `Damaged`, `NoSuchFile` where no file has this identification,
    /// `DeviceFault` where the transfer failed, `Damaged` where the header is neither valid nor dead.
    pub fn read_attr(&mut self, f: FileId) -> Result<Attr, Refusal>
        requires id { IsIdFrom 1 f }
        ensures answers { AnswersCall result self.old self.new }
        ensures told { KeepsTold self.old self.new }
        ensures read { IfOk result (λ attr.
            ReadsAttr (home_in self.old) f attr (disk_in self.old) (disk_in self.new)) }
        ensures refused { IfErr result (λ refusal. FailsToRead (has_failed self.old)
            (file_causes (store_in self.old) f) 1 refusal (disk_in self.old) (disk_in self.new)) }
        ensures lost { CallSparesLost self.old self.new }
        ensures bounded { MakesAtMost 1 (disk_in self.old) (disk_in self.new) }
    {
        if self.failed {
            return Err(Refusal::VolumeFailed);
        }
        let answer = self.structure.read_attr(&mut self.device, f);
        self.failed = is_fatal(&answer);
        answer
    }

    /// Alters what a file's first header says. One read and one write at most; where it is refused, but for `DeviceFault` and `Damaged`,
    /// nothing is written.
    ///
    /// # Errors
    ///
    /// Those of [`Files::read_attr`].
    fn alter(&mut self, f: FileId, alteration: Alteration) -> Result<(), Refusal>
        requires id { IsIdFrom 4 f }
        ensures answers { AnswersCall result self.old self.new }
        ensures altered { OnOk result (Alters (altered_by alteration) (home_in self.old) f
            (disk_in self.old) (disk_in self.new)) }
        ensures refused { IfErr result (λ refusal. FailsToAlter (has_failed self.old)
            (altered_by alteration) (home_in self.old) f refusal
            (disk_in self.old) (disk_in self.new)) }
        ensures confined { WritesFirstOf f (home_in self.old) (disk_in self.old) (disk_in self.new) }
        ensures lost { CallSparesLost self.old self.new }
        ensures bounded { MakesAtMost 2 (disk_in self.old) (disk_in self.new) }
    {
        if self.failed {
            return Err(Refusal::VolumeFailed);
        }
        self.seen = None;
        let answer = self.structure.alter(&mut self.device, f, None, alteration);
        self.failed = is_fatal(&answer);
        answer
    }

    /// Replaces a part of a file's attributes: the user attributes, the ident area or the protection word. One read and one write at
    /// most; where it is refused, but for `DeviceFault` and `Damaged`, nothing is written.
    ///
    /// # Errors
    ///
    /// Those of [`Files::read_attr`].
    pub fn write_attr(&mut self, f: FileId, change: &Change) -> Result<(), Refusal>
        requires id { IsIdFrom 4 f }
        ensures answers { AnswersCall result self.old self.new }
        ensures altered { OnOk result (Alters (with_replacement change.now) (home_in self.old) f
            (disk_in self.old) (disk_in self.new)) }
        ensures refused { IfErr result (λ refusal. FailsToAlter (has_failed self.old)
            (with_replacement change.now) (home_in self.old) f refusal
            (disk_in self.old) (disk_in self.new)) }
        ensures confined { WritesFirstOf f (home_in self.old) (disk_in self.old) (disk_in self.new) }
        ensures lost { CallSparesLost self.old self.new }
        ensures bounded { MakesAtMost 2 (disk_in self.old) (disk_in self.new) }
    {
        self.alter(f, Alteration::Replace(*change))
    }

    /// Marks a file for delete (SC.MDL). One read and one write at most; where it is refused, but for `DeviceFault` and `Damaged`, nothing
    /// is written.
    ///
    /// # Errors
    ///
    /// Those of [`Files::read_attr`].
    pub fn mark(&mut self, f: FileId) -> Result<(), Refusal>
        requires id { IsIdFrom 6 f }
        ensures answers { AnswersCall result self.old self.new }
        ensures altered { OnOk result (Alters with_delete_mark (home_in self.old) f
            (disk_in self.old) (disk_in self.new)) }
        ensures refused { IfErr result (λ refusal. FailsToAlter (has_failed self.old)
            with_delete_mark (home_in self.old) f refusal (disk_in self.old) (disk_in self.new)) }
        ensures confined { WritesFirstOf f (home_in self.old) (disk_in self.old) (disk_in self.new) }
        ensures lost { CallSparesLost self.old self.new }
        ensures bounded { MakesAtMost 2 (disk_in self.old) (disk_in self.new) }
    {
        self.alter(f, Alteration::Mark)
    }
}
