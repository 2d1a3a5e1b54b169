//! Where a block of a file is.
ghost use Rattle.std.specs.Prelude.{◌<◌, ◌≤◌, false, IfOk, IfErr};
ghost use Rattle.f11_files.specs.Answers.{FailsToRead, MakesAtMost};
ghost use Rattle.f11_files.specs.Finding.Blocks.{FindsBlock};
ghost use Rattle.f11_files.specs.Finding.Reached.{LiesSeen};
ghost use Rattle.f11_files.specs.Operations.{length_causes};
ghost use Rattle.f11_files.specs.Structure.{home_of, store_on, IsStructureFor};
ghost use Rattle.f11_store.specs.Cost.{header_count};
ghost use Rattle.f11_store.specs.Store.{file_named};

use crate::find::reach::Seen;
use crate::structure::Structure;
use f11_bytes::BLOCK_SIZE;
use f11_chain::block_at;
use f11_dev::Device;
use f11_store::{FileId, Refusal};

impl Structure {
    /// Where block `vbn` of a file is, from 1. It reads the headers that [`Structure::reach`] does.
    ///
    /// # Errors
    ///
    /// `NoSuchFile` where no file has this identification, `EndOfFile` where it has fewer blocks, `DeviceFault` where a transfer failed,
    /// `Damaged` where a header, a link or the place isn't as it should be.
    pub(crate) fn locate<D: Device>(
        &self,
        device: &mut D,
        f: FileId,
        vbn: u32,
        seen: &mut Option<Seen>,
    ) -> Result<u32, Refusal>
        requires is_for { IsStructureFor self.now (D.disk device.old) }
        requires own { 4 ≤ f.number }
        requires some { 0 < vbn }
        requires seen { LiesSeen seen.old (home_of self.now) (D.disk device.old) }
        ensures found { IfOk result (λ lbn. FindsBlock (home_of self.now) f vbn lbn
            (D.disk device.old) (D.disk device.new)) }
        ensures seen { LiesSeen seen.new (home_of self.now) (D.disk device.old) }
        ensures refused { IfErr result (λ refusal. FailsToRead false
            (length_causes (store_on self.now (D.disk device.old)) f vbn)
            (header_count (file_named (store_on self.now (D.disk device.old)) f)) refusal
            (D.disk device.old) (D.disk device.new)) }
        ensures bounded { MakesAtMost 256 (D.disk device.old) (D.disk device.new) }
    {
        let mut block = [0; BLOCK_SIZE];
        let place = self.reach(device, f, vbn, seen, &mut block)?;
        match block_at(&block, place.left, device.blocks()) {
            Some(lbn) => Ok(lbn),
            None => Err(Refusal::Damaged),
        }
    }
}
