//! Windows over a file's blocks.
ghost use Rattle.std.specs.Prelude.{◌≡◌, ◌<◌, ◌≤◌, false, length, IfErr, IfOk, OnOk, Option};
ghost use Rattle.f11_chain.specs.Windows.{HoldsBlock, LiesOn, ReadsIn};
ghost use Rattle.f11_files.specs.Answers.{FailsToRead, is_fatal, is_refused, MakesAtMost};
ghost use Rattle.f11_files.specs.Finding.Windows.{FailsToReadBy, FailsToStoreBy, FindsFileWindow, IsOfFile, ReadsBy, StoresBy};
ghost use Rattle.f11_files.specs.Finding.Reached.{LiesSeen, ReachesOn};
ghost use Rattle.f11_files.specs.declared.find.reach.Seen.{Seen};
ghost use Rattle.f11_files.specs.Open.{IsIdFrom};
ghost use Rattle.f11_files.specs.Operations.{length_causes};
ghost use Rattle.f11_files.specs.Structure.{home_of, store_on, IsStructureFor, StaysFor};
ghost use Rattle.f11_store.specs.Cost.{header_count};
ghost use Rattle.f11_store.specs.Store.{file_named};

use crate::answer::is_fatal;
use crate::files::Files;
use crate::find::reach::Seen;
use crate::structure::Structure;
use f11_bytes::{BLOCK_SIZE, Block};
use f11_chain::{Window, window_at};
use f11_dev::Device;
use f11_store::{FileId, Refusal};

impl Structure {
    /// The window of block `vbn` of a file, from 1. It reads the headers that [`Structure::reach`] does.
    ///
    /// # Errors
    ///
    /// `NoSuchFile` where no file has this identification, `EndOfFile` where it has fewer blocks, `DeviceFault` where a transfer failed,
    /// `Damaged` where a header, a link or a place in the window isn't as it should be.
    pub(crate) fn window<D: Device>(
        &self,
        device: &mut D,
        f: FileId,
        vbn: u32,
        seen: &mut Option<Seen>,
    ) -> Result<Window, Refusal>
        requires is_for { IsStructureFor self.now (D.disk device.old) }
        requires id { IsIdFrom 4 f }
        requires some { 0 < vbn }
        requires seen { LiesSeen seen.old (home_of self.now) (D.disk device.old) }
        ensures found { IfOk result (λ window. FindsFileWindow (home_of self.now) f vbn window
            (D.disk device.old) (D.disk device.new)) }
        ensures seen { LiesSeen seen.new (home_of self.now) (D.disk device.old) }
        ensures near { OnOk result (ReachesOn f vbn seen.old seen.new (home_of self.now)
            (D.disk device.old) (D.disk device.new)) }
        ensures refused { IfErr result (λ refusal. FailsToRead false
            (length_causes (store_on self.now (D.disk device.old)) f vbn)
            (header_count (file_named (store_on self.now (D.disk device.old)) f)) refusal
            (D.disk device.old) (D.disk device.new)) }
        ensures bounded { MakesAtMost 256 (D.disk device.old) (D.disk device.new) }
    {
        let mut block = [0; BLOCK_SIZE];
        let place = self.reach(device, f, vbn, seen, &mut block)?;
        match window_at(&block, place.left, vbn, device.blocks()) {
            Some(window) => Ok(window),
            None => Err(Refusal::Damaged),
        }
    }

    /// Writes block `vbn`, which stands in a window of a file: one transfer.
    ///
    /// # Errors
    ///
    /// `DeviceFault` where it failed.
    pub(crate) fn write_in<D: Device>(
        &self,
        device: &mut D,
        window: &Window,
        vbn: u32,
        block: &Block,
    ) -> Result<(), Refusal>
        requires is_for { IsStructureFor self.now (D.disk device.old) }
        requires of_file { IsOfFile (home_of self.now) window.now (D.disk device.old) }
        requires on { LiesOn window.now (length (D.disk device.old).image) }
        requires holds { HoldsBlock window.now vbn }
        ensures stored { OnOk result (StoresBy (home_of self.now) window.now vbn block.now
            (D.disk device.old) (D.disk device.new)) }
        ensures refused { IfErr result (λ refusal. FailsToStoreBy false (home_of self.now)
            window.now vbn block.now refusal (D.disk device.old) (D.disk device.new)) }
        ensures stays { StaysFor (is_refused is_fatal result) self.now self.now
            (D.disk device.new) }
        ensures seen { is_refused is_fatal result ≡ false → (seen : Option Seen)
            → LiesSeen seen (home_of self.now) (D.disk device.old)
            → LiesSeen seen (home_of self.now) (D.disk device.new) }
    {
        match window.write_in(device, vbn, block) {
            Ok(()) => Ok(()),
            Err(_) => Err(Refusal::DeviceFault),
        }
    }
}

/// Reads block `vbn`, which stands in a window, into the block that is lent: one transfer.
///
/// # Errors
///
/// `DeviceFault` where it failed.
fn read_in<D: Device>(
    device: &mut D,
    window: &Window,
    vbn: u32,
    block: &mut Block,
) -> Result<(), Refusal>
    requires on { LiesOn window.now (length (D.disk device.old).image) }
    requires holds { HoldsBlock window.now vbn }
    ensures reads { ReadsIn window.now vbn result block.new
        (D.disk device.old) (D.disk device.new) }
    ensures fault { IfErr result (λ refusal. refusal ≡ Refusal.DeviceFault) }
{
    match window.read_in(device, vbn, block) {
        Ok(()) => Ok(()),
        Err(_) => Err(Refusal::DeviceFault),
    }
}

impl<D: Device> Files<D> {
    ghost use Rattle.f11_files.specs.Open.{counts_in, disk_in, has_failed, home_in, seen_in, store_in, AnswersCall, CallSparesLost, KeepsTold};
    ghost use Rattle.std.specs.Prelude.{OnErr};

    /// The window of block `vbn` of a file, from 1: the retrieval pointer that names the block, and those that follow it in its header,
    /// seven at most. It reads the file's headers up to that one, each once and on any device 256 at most: from the one that a call on
    /// blocks reached last, where that is one of the file and not behind it, and no call that may write a header was made since.
    ///
    /// # Errors
    ///
    /// `VolumeFailed` where an earlier call answered `DeviceFault` or `Damaged`, `NoSuchFile` where no file has this identification,
    /// `EndOfFile` where it has fewer blocks, `DeviceFault` where a transfer failed, `Damaged` where a header, a link or the place of a
    /// block in the window isn't as it should be.
    pub fn window(&mut self, f: FileId, vbn: u32) -> Result<Window, Refusal>
        requires id { IsIdFrom 4 f }
        requires some { 0 < vbn }
        ensures answers { AnswersCall result self.old self.new }
        ensures told { counts_in self.new ≡ counts_in self.old }
        ensures found { IfOk result (λ window. FindsFileWindow (home_in self.old) f vbn window
            (disk_in self.old) (disk_in self.new)) }
        ensures refused { IfErr result (λ refusal. FailsToRead (has_failed self.old)
            (length_causes (store_in self.old) f vbn)
            (header_count (file_named (store_in self.old) f)) refusal
            (disk_in self.old) (disk_in self.new)) }
        ensures near { OnOk result (ReachesOn f vbn (seen_in self.old) (seen_in self.new)
            (home_in self.old) (disk_in self.old) (disk_in self.new)) }
        ensures lost { CallSparesLost self.old self.new }
        ensures bounded { MakesAtMost 256 (disk_in self.old) (disk_in self.new) }
    {
        if self.failed {
            return Err(Refusal::VolumeFailed);
        }
        let answer = self
            .structure
            .window(&mut self.device, f, vbn, &mut self.seen);
        self.failed = is_fatal(&answer);
        answer
    }

    /// Reads block `vbn`, which stands in a window, into the block that is lent: one transfer. Where the window is one of a file, that is the
    /// file's block. The block that is lent stays as it is where `VolumeFailed` is answered.
    ///
    /// # Errors
    ///
    /// `VolumeFailed` where an earlier call answered `DeviceFault` or `Damaged`, `DeviceFault` where the transfer failed.
    pub fn read_in(&mut self, window: &Window, vbn: u32, block: &mut Block) -> Result<(), Refusal>
        requires on { LiesOn window.now (length (disk_in self.old).image) }
        requires holds { HoldsBlock window.now vbn }
        ensures answers { AnswersCall result self.old self.new }
        ensures told { KeepsTold self.old self.new }
        ensures read { OnOk result (ReadsBy (home_in self.old) window.now vbn block.new
            (disk_in self.old) (disk_in self.new)) }
        ensures refused { IfErr result (λ refusal. FailsToReadBy (has_failed self.old) refusal
            (disk_in self.old) (disk_in self.new)) }
        ensures lost { CallSparesLost self.old self.new }
        ensures kept { is_refused is_fatal result ≡ false → OnErr result (block.new ≡ block.old) }
    {
        if self.failed {
            return Err(Refusal::VolumeFailed);
        }
        let answer = read_in(&mut self.device, window, vbn, block);
        self.failed = is_fatal(&answer);
        answer
    }

    /// Writes block `vbn`, which stands in a window of a file, from number 4 on: one transfer, that of the file's block.
    ///
    /// # Errors
    ///
    /// Those of [`Files::read_in`].
    pub fn write_in(&mut self, window: &Window, vbn: u32, block: &Block) -> Result<(), Refusal>
        requires of_file { has_failed self.old ≡ false
            → IsOfFile (home_in self.old) window.now (disk_in self.old) }
        requires on { LiesOn window.now (length (disk_in self.old).image) }
        requires holds { HoldsBlock window.now vbn }
        ensures answers { AnswersCall result self.old self.new }
        ensures told { KeepsTold self.old self.new }
        ensures stored { OnOk result (StoresBy (home_in self.old) window.now vbn block.now
            (disk_in self.old) (disk_in self.new)) }
        ensures refused { IfErr result (λ refusal. FailsToStoreBy (has_failed self.old)
            (home_in self.old) window.now vbn block.now refusal
            (disk_in self.old) (disk_in self.new)) }
        ensures lost { CallSparesLost self.old self.new }
    {
        if self.failed {
            return Err(Refusal::VolumeFailed);
        }
        let answer = self
            .structure
            .write_in(&mut self.device, window, vbn, block);
        self.failed = is_fatal(&answer);
        answer
    }
}
