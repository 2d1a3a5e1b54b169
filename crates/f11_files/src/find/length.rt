//! How many blocks a file has.
ghost use Rattle.std.specs.Prelude.{◌≤◌, false, IfErr, IfOk};
ghost use Rattle.f11_files.specs.Answers.{FailsToRead, MakesAtMost};
ghost use Rattle.f11_files.specs.Finding.Length.{CountsBlocks};
ghost use Rattle.f11_files.specs.Operations.{file_causes};
ghost use Rattle.f11_files.specs.Structure.{home_of, store_on, IsStructureFor};
ghost use Rattle.f11_store.specs.Cost.{header_count};
ghost use Rattle.f11_store.specs.Store.{file_named};

use crate::answer::{is_fatal, refusal_for};
use crate::files::Files;
use crate::structure::Structure;
use f11_bytes::BLOCK_SIZE;
use f11_chain::last_from;
use f11_dev::Device;
use f11_store::{FileId, Refusal};

impl Structure {
    /// How many blocks a file has.
    ///
    /// # Errors
    ///
    /// `NoSuchFile` where no file has this identification, `DeviceFault` where a transfer failed, `Damaged` where a header or a link
    /// isn't as it should be.
    pub(crate) fn length<D: Device>(&self, device: &mut D, f: FileId) -> Result<u32, Refusal>
        requires is_for { IsStructureFor self.now (D.disk device.old) }
        requires own { 4 ≤ f.number }
        ensures counts { IfOk result (λ blocks. CountsBlocks (home_of self.now) f blocks
            (D.disk device.old) (D.disk device.new)) }
        ensures refused { IfErr result (λ refusal. FailsToRead false
            (file_causes (store_on self.now (D.disk device.old)) f)
            (header_count (file_named (store_on self.now (D.disk device.old)) f)) refusal
            (D.disk device.old) (D.disk device.new)) }
        ensures bounded { MakesAtMost 256 (D.disk device.old) (D.disk device.new) }
    {
        let mut block = [0; BLOCK_SIZE];
        self.read_first(device, f, &mut block)?;
        match last_from(device, &self.index, f.number, &mut block) {
            Ok(last) => Ok(last.blocks),
            Err(fault) => Err(refusal_for(fault)),
        }
    }
}

impl<D: Device> Files<D> {
    ghost use Rattle.f11_files.specs.Open.{disk_in, has_failed, home_in, store_in, AnswersCall, IsIdFrom, CallSparesLost, KeepsTold};

    /// How many blocks a file has. It reads each of the file's headers once, on any device 256 at most.
    ///
    /// # Errors
    ///
    /// `VolumeFailed` where an earlier call answered `DeviceFault` or `Damaged`, `NoSuchFile` where no file has this identification,
    /// `DeviceFault` where a transfer failed, `Damaged` where a header or a link isn't as it should be.
    pub fn length(&mut self, f: FileId) -> Result<u32, Refusal>
        requires id { IsIdFrom 4 f }
        ensures answers { AnswersCall result self.old self.new }
        ensures told { KeepsTold self.old self.new }
        ensures counts { IfOk result (λ blocks. CountsBlocks (home_in self.old) f blocks
            (disk_in self.old) (disk_in self.new)) }
        ensures refused { IfErr result (λ refusal. FailsToRead (has_failed self.old)
            (file_causes (store_in self.old) f)
            (header_count (file_named (store_in self.old) f)) refusal
            (disk_in self.old) (disk_in self.new)) }
        ensures lost { CallSparesLost self.old self.new }
        ensures bounded { MakesAtMost 256 (disk_in self.old) (disk_in self.new) }
    {
        if self.failed {
            return Err(Refusal::VolumeFailed);
        }
        let answer = self.structure.length(&mut self.device, f);
        self.failed = is_fatal(&answer);
        answer
    }
}
