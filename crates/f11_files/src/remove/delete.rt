//! A file that is deleted.
ghost use Rattle.std.specs.Prelude.{◌≡◌, ◌≤◌, false, IfErr, IsTrue, OnOk, true};
ghost use Rattle.f11_files.specs.Answers.{is_fatal, is_clean, is_refused, WritesHeadersOf};
ghost use Rattle.f11_files.specs.Removing.Delete.{Deletes, FailsToDelete};
ghost use Rattle.f11_files.specs.Structure.{counts_of, home_of, store_on, IsStructureFor, StaysFor, WritesParts};
ghost use Rattle.f11_store.specs.Changes.{is_in};
ghost use Rattle.f11_store.specs.Store.{file_named};

use crate::answer::is_fatal;
use crate::files::Files;
use crate::structure::Structure;
use f11_bytes::BLOCK_SIZE;
use f11_dev::Device;
use f11_store::{FileId, Refusal};

impl Structure {
    /// Deletes a file: its headers go in order.
    ///
    /// # Errors
    ///
    /// Those of [`Structure::read_first`], and those of [`Structure::drop_behind`].
    pub(crate) fn delete<D: Device>(&mut self, device: &mut D, f: FileId) -> Result<(), Refusal>
        requires is_for { IsStructureFor self.old (D.disk device.old) }
        requires late { 6 ≤ f.number }
        ensures deleted { OnOk result
            (Deletes (home_of self.old) f (D.disk device.old) (D.disk device.new)) }
        ensures refused { IfErr result (λ refusal. FailsToDelete false (home_of self.old) f refusal
            (D.disk device.old) (D.disk device.new)) }
        ensures stays { StaysFor (is_refused is_fatal result) self.old self.new
            (D.disk device.new) }
        ensures counts { is_refused is_clean result ≡ true → counts_of self.new ≡ counts_of
            self.old }
        ensures confined { IsTrue (D.disk device.old).honest → WritesParts self.old
            (is_in (file_named (store_on self.old (D.disk device.old)) f).held)
            (D.disk device.old) (D.disk device.new) }
    {
        let mut block = [0; BLOCK_SIZE];
        self.read_first(device, f, &mut block)?;
        self.drop_header(device, f.number, &block)?;
        self.drop_behind(device, &mut block)
    }
}

impl<D: Device> Files<D> {
    ghost use Rattle.f11_files.specs.Open.{disk_in, has_failed, home_in, AnswersCall, IsIdFrom, CallSparesLost};

    /// Deletes a file, one that is marked for delete too. For each of its headers, in order, three things are written: the header, killed;
    /// the bit of its slot, so that it isn't in use; and the bits of its blocks, so that they are free. So each header is killed
    /// before any of its blocks is given back.
    ///
    /// # Errors
    ///
    /// `VolumeFailed` where an earlier call answered `DeviceFault` or `Damaged`, `NoSuchFile` where no file has this identification,
    /// `DeviceFault` where a transfer failed, `Damaged` where a header, a link or a block isn't as it should be.
    pub fn delete(&mut self, f: FileId) -> Result<(), Refusal>
        requires id { IsIdFrom 6 f }
        ensures answers { AnswersCall result self.old self.new }
        ensures deleted { OnOk result
            (Deletes (home_in self.old) f (disk_in self.old) (disk_in self.new)) }
        ensures refused { IfErr result (λ refusal. FailsToDelete (has_failed self.old)
            (home_in self.old) f refusal (disk_in self.old) (disk_in self.new)) }
        ensures confined { WritesHeadersOf f (home_in self.old) (disk_in self.old)
            (disk_in self.new) }
        ensures lost { CallSparesLost self.old self.new }
    {
        if self.failed {
            return Err(Refusal::VolumeFailed);
        }
        self.seen = None;
        let answer = self.structure.delete(&mut self.device, f);
        self.failed = is_fatal(&answer);
        answer
    }
}
