//! Files that are cut.
ghost use Rattle.std.specs.Prelude.{[], OnOk};
ghost use Rattle.f11_fcp.specs.ByWindow.{WindowsAfter};
ghost use Rattle.f11_fcp.specs.Handles.{Handles, IsOpen, StaysOpen, state_of};
ghost use Rattle.f11_fcp.specs.Places.{access_table_of};
ghost use Rattle.f11_store.specs.declared.requests.Request.TheVariants as asked;
ghost use Rattle.f11_files.specs.Open.{CallSparesLost};

use crate::answer::of_accessed;
use crate::table::Accesses;
use f11_dev::Device;
use f11_files::Files;
use f11_store::{Lun, Refusal, Reply, Task, Uic};

impl Accesses {
    /// The file that is accessed keeps its first `to` blocks, and each access to it a window that holds no run.
    ///
    /// # Errors
    ///
    /// `NoSuchAccess`, `EndOfFile`.
    pub(crate) fn truncate<D: Device>(
        &mut self,
        files: &mut Files<D>,
        task: Task,
        caller: Uic,
        lun: Lun,
        to: u32,
    ) -> Result<Reply, Refusal>
        requires open { IsOpen (access_table_of self.old) files.old }
        ensures handles { Handles task caller (asked.Truncate lun to) result
            (state_of (access_table_of self.old) files.old) [] (state_of (access_table_of self.new) files.new) [] }
        ensures open { StaysOpen result (access_table_of self.new) files.new }
        ensures windows { OnOk result (WindowsAfter task (asked.Truncate lun to)
            (state_of (access_table_of self.old) files.old) (state_of (access_table_of self.new) files.new)) }
        ensures lost { CallSparesLost files.old files.new }
    {
        let held = match self.writer(task, lun) {
            Some(held) => held,
            None => return Err(Refusal::NoSuchAccess),
        };
        match files.truncate(held.file, to) {
            Ok(length) => {
                self.empty_windows(held.file);
                Ok(Reply::Length(length))
            }
            Err(refusal) => Err(of_accessed(refusal)),
        }
    }
}
