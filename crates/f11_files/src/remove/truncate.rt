//! A file that is cut to its first blocks.
ghost use Rattle.std.specs.Prelude.{◌≡◌, ◌≤◌, false, IfErr, IfOk, IsTrue, true};
ghost use Rattle.f11_files.specs.Answers.{is_fatal, is_clean, is_refused, FailsToRead, WritesHeadersOf};
ghost use Rattle.f11_files.specs.Removing.Truncate.{Cuts, CutsOff, FailsToCut, FindsLastKept};
ghost use Rattle.f11_files.specs.Operations.{length_causes};
ghost use Rattle.f11_files.specs.Structure.{counts_of, home_of, index_in, store_on, IsStructureFor, StaysFor, WritesParts};
ghost use Rattle.f11_header.specs.Header.{holds_header};
ghost use Rattle.f11_store.specs.Changes.{is_in};
ghost use Rattle.f11_store.specs.Cost.{header_count};
ghost use Rattle.f11_store.specs.Store.{file_named};

use crate::answer::{is_fatal, refusal_for};
use crate::files::Files;
use crate::structure::Structure;
use f11_bytes::{BLOCK_SIZE, Block};
use f11_chain::seek;
use f11_dev::Device;
use f11_map::in_hand;
use f11_store::{FileId, Refusal};

/// No header.
const NONE: FileId = FileId {
    number: 0,
    sequence: 0,
    volume: 0,
};

/// Keeps the first `keep` blocks of a header, and no link.
fn cut_off(block: &mut Block, keep: u32)
    requires { IsTrue (holds_header block.old) }
    ensures { CutsOff keep block.old block.new }
{
    in_hand::cut(block, keep);
    in_hand::set_link(block, NONE);
}

impl Structure {
    /// Reads the header of a file that names the last of its first `to` blocks into the block, or the first where `to` is 0, and gives
    /// its number, and how many of them it names itself.
    ///
    /// # Errors
    ///
    /// `NoSuchFile` where no file has this identification, `EndOfFile` where it has fewer blocks, `DeviceFault` where a transfer failed,
    /// `Damaged` where a header or a link isn't as it should be.
    fn last_kept<D: Device>(
        &self,
        device: &mut D,
        f: FileId,
        to: u32,
        block: &mut Block,
    ) -> Result<(u16, u32), Refusal>
        requires is_for { IsStructureFor self.now (D.disk device.old) }
        requires own { 4 ≤ f.number }
        ensures found { IfOk result (λ found. FindsLastKept (home_of self.now)
            (index_in self.now) f to
            found.0 found.1 block.new (D.disk device.old) (D.disk device.new)) }
        ensures refused { IfErr result (λ refusal. FailsToRead false
            (length_causes (store_on self.now (D.disk device.old)) f to)
            (header_count (file_named (store_on self.now (D.disk device.old)) f)) refusal
            (D.disk device.old) (D.disk device.new)) }
    {
        self.read_first(device, f, block)?;
        if to == 0 {
            return Ok((f.number, 0));
        }
        match seek(device, &self.index, f.number, to - 1, block) {
            // no fewer blocks of the file are before it than of this header
            Ok(place) => Ok((place.number, place.left.min(to - 1) + 1)),
            Err(fault) => Err(refusal_for(fault)),
        }
    }

    /// Cuts a file to its first `to` blocks.
    ///
    /// # Errors
    ///
    /// Those of [`Structure::last_kept`], and those of [`Structure::drop_behind`].
    pub(crate) fn truncate<D: Device>(
        &mut self,
        device: &mut D,
        f: FileId,
        to: u32,
    ) -> Result<u32, Refusal>
        requires is_for { IsStructureFor self.old (D.disk device.old) }
        requires own { 4 ≤ f.number }
        ensures cut { IfOk result (λ blocks. (blocks ≡ to)
            × Cuts (home_of self.old) f to (D.disk device.old) (D.disk device.new)) }
        ensures refused { IfErr result (λ refusal. FailsToCut false (home_of self.old) f to refusal
            (D.disk device.old) (D.disk device.new)) }
        ensures stays { StaysFor (is_refused is_fatal result) self.old self.new
            (D.disk device.new) }
        ensures counts { is_refused is_clean result ≡ true → counts_of self.new ≡ counts_of
            self.old }
        ensures confined { IsTrue (D.disk device.old).honest → WritesParts self.old
            (is_in (file_named (store_on self.old (D.disk device.old)) f).held)
            (D.disk device.old) (D.disk device.new) }
    {
        let mut block = [0; BLOCK_SIZE];
        let (n, keep) = self.last_kept(device, f, to, &mut block)?;
        let mut cut = block;
        cut_off(&mut cut, keep);
        match device.write(self.index.lbn_of_header(n), &cut) {
            Ok(()) => {}
            Err(_) => return Err(Refusal::DeviceFault),
        }
        self.give_from(device, &block, keep)?;
        self.drop_behind(device, &mut block)?;
        Ok(to)
    }
}

impl<D: Device> Files<D> {
    ghost use Rattle.f11_files.specs.Open.{disk_in, has_failed, home_in, AnswersCall, IsIdFrom, CallSparesLost};

    /// Cuts a file to its first `to` blocks, and answers how many it has then. The header that names the last of them, or the first one
    /// where none stays, is written with those blocks and no link; then its other blocks are marked free; and then each header behind
    /// it goes as where a file is deleted. Where it is refused, but for `DeviceFault` and `Damaged`, nothing is
    /// written.
    ///
    /// # Errors
    ///
    /// `VolumeFailed` where an earlier call answered `DeviceFault` or `Damaged`, `NoSuchFile` where no file has this identification,
    /// `EndOfFile` where it has fewer blocks, `DeviceFault` where a transfer failed, `Damaged` where a header, a link or a block isn't as
    /// it should be.
    pub fn truncate(&mut self, f: FileId, to: u32) -> Result<u32, Refusal>
        requires id { IsIdFrom 4 f }
        ensures answers { AnswersCall result self.old self.new }
        ensures cut { IfOk result (λ blocks. (blocks ≡ to)
            × Cuts (home_in self.old) f to (disk_in self.old) (disk_in self.new)) }
        ensures refused { IfErr result (λ refusal. FailsToCut (has_failed self.old)
            (home_in self.old) f to refusal (disk_in self.old) (disk_in self.new)) }
        ensures confined { WritesHeadersOf f (home_in self.old) (disk_in self.old)
            (disk_in self.new) }
        ensures lost { CallSparesLost self.old self.new }
    {
        if self.failed {
            return Err(Refusal::VolumeFailed);
        }
        self.seen = None;
        let answer = self.structure.truncate(&mut self.device, f, to);
        self.failed = is_fatal(&answer);
        answer
    }
}
