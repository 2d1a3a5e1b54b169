//! How long files are that are accessed.
ghost use Rattle.std.specs.Prelude.{◌≡◌, false};
ghost use Rattle.f11_files.specs.Answers.{is_fatal, is_refused};
ghost use Rattle.f11_fcp.specs.Handles.{IsOpen, state_of};
ghost use Rattle.f11_fcp.specs.Lengths.{Measures};
ghost use Rattle.f11_fcp.specs.Places.{access_table_of};
ghost use Rattle.f11_files.specs.Open.{CallSparesLost};

use crate::answer::of_known;
use crate::table::Accesses;
use crate::volume::Volume;
use f11_dev::Device;
use f11_files::Files;
use f11_store::{Lun, Refusal, Task};

impl Accesses {
    /// How many blocks the file has that is accessed.
    ///
    /// # Errors
    ///
    /// `NoSuchAccess`.
    pub(crate) fn length<D: Device>(
        &self,
        files: &mut Files<D>,
        task: Task,
        lun: Lun,
    ) -> Result<u32, Refusal>
        requires open { IsOpen (access_table_of self.now) files.old }
        ensures measures { Measures task lun result (state_of (access_table_of self.now) files.old)
            (state_of (access_table_of self.now) files.new) }
        ensures open { is_refused is_fatal result ≡ false → IsOpen (access_table_of self.now) files.new }
        ensures lost { CallSparesLost files.old files.new }
    {
        let held = match self.held(task, lun) {
            Some(held) => held,
            None => return Err(Refusal::NoSuchAccess),
        };
        match files.length(held.file) {
            Ok(blocks) => Ok(blocks),
            Err(refusal) => Err(of_known(refusal)),
        }
    }
}

impl<D: Device> Volume<D> {
    ghost use Rattle.f11_fcp.specs.Lengths.{AnswersLength};
    ghost use Rattle.f11_fcp.specs.Serving.{StaysAccepted, state_in};

    /// How many blocks the file has that the task accesses by the lun: no request, but what a copy asks that is to end where the file's
    /// blocks do. Each of the file's headers is read once; nothing is written.
    ///
    /// # Errors
    ///
    /// `VolumeFailed` where an earlier request or call answered `DeviceFault` or `Damaged`; `NoSuchAccess` where the lun holds no
    /// access; `DeviceFault` where a transfer failed, and `Damaged` where a device that isn't honest gave what no accepted
    /// volume has. These two fail the volume as they do where a request is answered so.
    pub fn length(&mut self, task: Task, lun: Lun) -> Result<u32, Refusal>
        ensures answers { AnswersLength task lun result self.old self.new }
        ensures accepted { StaysAccepted (state_in self.new) }
    {
        if self.files.failed() {
            return Err(Refusal::VolumeFailed);
        }
        let answer = self.accesses.length(&mut self.files, task, lun);
        self.files.note(&answer);
        answer
    }
}
