//! The blocks of a file.
ghost use Rattle.std.specs.Prelude.{◌≡◌, ◌+◌, ◌<◌, ◌≤◌, false, IfErr, OnOk, OnErr, IsTrue};
ghost use Rattle.f11_files.specs.Answers.{FailsToRead, blocks_of, is_fatal, is_refused, MakesAtMost, WritesBlocksOf};
ghost use Rattle.f11_files.specs.Finding.Blocks.{ReadsBlock, StoresBlock, FailsToStore};
ghost use Rattle.f11_files.specs.Finding.Reached.{LiesSeen};
ghost use Rattle.f11_image_store.specs.Confines.{no_header};
ghost use Rattle.f11_files.specs.Operations.{length_causes};
ghost use Rattle.f11_files.specs.Structure.{home_of, store_on, IsStructureFor, StaysFor, ConfinesTo};
ghost use Rattle.f11_store.specs.Cost.{header_count};
ghost use Rattle.f11_store.specs.Store.{file_named};

use crate::answer::is_fatal;
use crate::files::Files;
use crate::find::reach::Seen;
use crate::structure::Structure;
use f11_bytes::Block;
use f11_dev::Device;
use f11_store::{FileId, Refusal};

impl Structure {
    /// Reads block `vbn` of a file into the block that is lent.
    ///
    /// # Errors
    ///
    /// Those of [`Structure::locate`]. What the block holds after `DeviceFault` or `Damaged` is open.
    pub(crate) fn read_block<D: Device>(
        &self,
        device: &mut D,
        f: FileId,
        vbn: u32,
        seen: &mut Option<Seen>,
        block: &mut Block,
    ) -> Result<(), Refusal>
        requires is_for { IsStructureFor self.now (D.disk device.old) }
        requires own { 4 ≤ f.number }
        requires some { 0 < vbn }
        requires seen { LiesSeen seen.old (home_of self.now) (D.disk device.old) }
        ensures seen { LiesSeen seen.new (home_of self.now) (D.disk device.old) }
        ensures read { OnOk result (ReadsBlock (home_of self.now) f vbn block.new
            (D.disk device.old) (D.disk device.new)) }
        ensures refused { IfErr result (λ refusal. FailsToRead false
            (length_causes (store_on self.now (D.disk device.old)) f vbn)
            (header_count (file_named (store_on self.now (D.disk device.old)) f) + 1) refusal
            (D.disk device.old) (D.disk device.new)) }
        ensures kept { is_refused is_fatal result ≡ false → OnErr result (block.new ≡ block.old) }
        ensures bounded { MakesAtMost 257 (D.disk device.old) (D.disk device.new) }
    {
        let lbn = self.locate(device, f, vbn, seen)?;
        match device.read(lbn, block) {
            Ok(()) => Ok(()),
            Err(_) => Err(Refusal::DeviceFault),
        }
    }

    /// Writes block `vbn` of a file: one write, behind the headers that are read.
    ///
    /// # Errors
    ///
    /// Those of [`Structure::locate`].
    pub(crate) fn write_block<D: Device>(
        &self,
        device: &mut D,
        f: FileId,
        vbn: u32,
        seen: &mut Option<Seen>,
        block: &Block,
    ) -> Result<(), Refusal>
        requires is_for { IsStructureFor self.now (D.disk device.old) }
        requires own { 4 ≤ f.number }
        requires some { 0 < vbn }
        requires seen { LiesSeen seen.old (home_of self.now) (D.disk device.old) }
        ensures seen { is_refused is_fatal result ≡ false
            → LiesSeen seen.new (home_of self.now) (D.disk device.new) }
        ensures stored { OnOk result (StoresBlock (home_of self.now) f vbn block.now
            (D.disk device.old) (D.disk device.new)) }
        ensures refused { IfErr result (λ refusal. FailsToStore false (home_of self.now) f vbn
            block.now refusal (D.disk device.old) (D.disk device.new)) }
        ensures stays { StaysFor (is_refused is_fatal result) self.now self.now
            (D.disk device.new) }
        ensures confined { IsTrue (D.disk device.old).honest → ConfinesTo self.now no_header
            (blocks_of (home_of self.now) f (D.disk device.old).image)
            (D.disk device.old) (D.disk device.new) }
        ensures bounded { MakesAtMost 257 (D.disk device.old) (D.disk device.new) }
    {
        let lbn = self.locate(device, f, vbn, seen)?;
        match device.write(lbn, block) {
            Ok(()) => Ok(()),
            Err(_) => Err(Refusal::DeviceFault),
        }
    }
}

impl<D: Device> Files<D> {
    ghost use Rattle.f11_files.specs.Open.{counts_in, disk_in, has_failed, home_in, store_in, AnswersCall, IsIdFrom, CallSparesLost};

    /// Reads block `vbn` of a file, from 1, into the block that is lent, which stays as it is where the call is refused for another cause
    /// than `DeviceFault` and `Damaged`. It reads the file's headers up to the one that names the block, from where [`Files::window`] goes
    /// on, each once and on any device 256 at most, and the block.
    ///
    /// # Errors
    ///
    /// `VolumeFailed` where an earlier call answered `DeviceFault` or `Damaged`, `NoSuchFile` where no file has this identification,
    /// `EndOfFile` where it has fewer blocks, `DeviceFault` where a transfer failed, `Damaged` where a header, a link or the block's place
    /// isn't as it should be.
    pub fn read_block(&mut self, f: FileId, vbn: u32, block: &mut Block) -> Result<(), Refusal>
        requires id { IsIdFrom 4 f }
        requires some { 0 < vbn }
        ensures answers { AnswersCall result self.old self.new }
        ensures told { counts_in self.new ≡ counts_in self.old }
        ensures read { OnOk result (ReadsBlock (home_in self.old) f vbn block.new
            (disk_in self.old) (disk_in self.new)) }
        ensures refused { IfErr result (λ refusal. FailsToRead (has_failed self.old)
            (length_causes (store_in self.old) f vbn)
            (header_count (file_named (store_in self.old) f) + 1) refusal
            (disk_in self.old) (disk_in self.new)) }
        ensures lost { CallSparesLost self.old self.new }
        ensures kept { is_refused is_fatal result ≡ false → OnErr result (block.new ≡ block.old) }
        ensures bounded { MakesAtMost 257 (disk_in self.old) (disk_in self.new) }
    {
        if self.failed {
            return Err(Refusal::VolumeFailed);
        }
        let answer = self
            .structure
            .read_block(&mut self.device, f, vbn, &mut self.seen, block);
        self.failed = is_fatal(&answer);
        answer
    }

    /// Writes block `vbn` of a file, from 1. It reads the file's headers up to the one that names the block, from where [`Files::window`]
    /// goes on, each once and on any device 256 at most, and writes the block. Where it is refused, but for `DeviceFault` and `Damaged`, nothing is written.
    ///
    /// # Errors
    ///
    /// Those of [`Files::read_block`].
    pub fn write_block(&mut self, f: FileId, vbn: u32, block: &Block) -> Result<(), Refusal>
        requires id { IsIdFrom 4 f }
        requires some { 0 < vbn }
        ensures answers { AnswersCall result self.old self.new }
        ensures stored { OnOk result (StoresBlock (home_in self.old) f vbn block.now
            (disk_in self.old) (disk_in self.new)) }
        ensures refused { IfErr result (λ refusal. FailsToStore (has_failed self.old)
            (home_in self.old) f vbn block.now refusal (disk_in self.old) (disk_in self.new)) }
        ensures confined { WritesBlocksOf f (home_in self.old) (disk_in self.old) (disk_in self.new) }
        ensures lost { CallSparesLost self.old self.new }
        ensures bounded { MakesAtMost 257 (disk_in self.old) (disk_in self.new) }
    {
        if self.failed {
            return Err(Refusal::VolumeFailed);
        }
        let answer = self
            .structure
            .write_block(&mut self.device, f, vbn, &mut self.seen, block);
        self.failed = is_fatal(&answer);
        answer
    }
}
