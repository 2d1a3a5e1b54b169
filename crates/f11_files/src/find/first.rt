//! A file's first header.
ghost use Rattle.std.specs.Option.{option_copied};
ghost use Rattle.std.specs.Prelude.{◌≡◌, false, OnOk, IfErr, IfSome};
ghost use Rattle.f11_chain.specs.Calls.{HoldsHeader};
ghost use Rattle.f11_files.specs.Answers.{FailsToRead, MakesAtMost};
ghost use Rattle.f11_files.specs.Finding.First.{FindsFile, IsFirstHeaderOf, IsOther, reads_for};
ghost use Rattle.f11_files.specs.Operations.{file_causes};
ghost use Rattle.f11_files.specs.Structure.{index_in, store_on, IsStructureFor};

use crate::extend::tail::Tail;
use crate::structure::Structure;
use f11_bytes::Block;
use f11_dev::Device;
use f11_header::{Header, HeaderFault, check};
use f11_map::in_hand::segment;
use f11_store::{FileId, Refusal};

/// Whether a block is the first header of the file with this identification.
///
/// # Errors
///
/// `Damaged` where it is no header, nor a dead one; `NoSuchFile` where it is any other.
fn judge_first(block: &Block, f: FileId) -> Result<(), Refusal>
    ensures first { OnOk result (IsFirstHeaderOf f block.now) }
    ensures refused { IfErr result (λ refusal. IsOther f block.now refusal) }
{
    match check(block, f.number) {
        Ok(()) => {}
        Err(HeaderFault::Dead) => return Err(Refusal::NoSuchFile),
        Err(HeaderFault::Bad) => return Err(Refusal::Damaged),
    }
    if segment(block) != 0 || Header::new(block).id().sequence != f.sequence {
        return Err(Refusal::NoSuchFile);
    }
    Ok(())
}

impl Structure {
    /// Reads the first header of a file into the block, where it has this identification, whatever the relative volume. One transfer
    /// at most.
    ///
    /// # Errors
    ///
    /// `NoSuchFile` where there is no such file, `DeviceFault` where the transfer failed, `Damaged` where the header is neither valid
    /// nor dead.
    pub(crate) fn read_first<D: Device>(
        &self,
        device: &mut D,
        f: FileId,
        block: &mut Block,
    ) -> Result<(), Refusal>
        requires is_for { IsStructureFor self.now (D.disk device.old) }
        ensures found { OnOk result
            (FindsFile (index_in self.now) f block.new (D.disk device.old) (D.disk device.new)) }
        ensures refused { IfErr result (λ refusal. FailsToRead false
            (file_causes (store_on self.now (D.disk device.old)) f) 1 refusal
            (D.disk device.old) (D.disk device.new)) }
        ensures bounded { MakesAtMost 1 (D.disk device.old) (D.disk device.new) }
    {
        if !self.index.in_use(f.number) {
            return Err(Refusal::NoSuchFile);
        }
        match device.read(self.index.lbn_of_header(f.number), block) {
            Ok(()) => judge_first(block, f),
            Err(_) => Err(Refusal::DeviceFault),
        }
    }

    /// Puts the first header of a file into the block: the header in hand, if there is one, and it is that by its number; else it is
    /// read, as [`Structure::read_first`] does. No transfer where it is in hand, and else one at most.
    ///
    /// # Errors
    ///
    /// `NoSuchFile` where the header in hand isn't the first one of the file with this identification, and those of
    /// [`Structure::read_first`].
    pub(crate) fn get_first<D: Device>(
        &self,
        device: &mut D,
        f: FileId,
        held: Option<&Tail>,
        block: &mut Block,
    ) -> Result<(), Refusal>
        requires is_for { IsStructureFor self.now (D.disk device.old) }
        requires holds { IfSome held (λ tail. HoldsHeader (index_in self.now) tail.now.number
            tail.now.block (D.disk device.old)) }
        ensures found { OnOk result
            (FindsFile (index_in self.now) f block.new (D.disk device.old) (D.disk device.new)) }
        ensures refused { IfErr result (λ refusal. FailsToRead false
            (file_causes (store_on self.now (D.disk device.old)) f) 1 refusal
            (D.disk device.old) (D.disk device.new)) }
        ensures bounded { MakesAtMost (reads_for f (option_copied held.entry)) (D.disk device.old)
            (D.disk device.new) }
    {
        match held {
            None => self.read_first(device, f, block),
            Some(tail) => {
                if tail.number != f.number {
                    return self.read_first(device, f, block);
                }
                *block = tail.block;
                judge_first(block, f)
            }
        }
    }
}
