//! A task that gives up all it holds.
ghost use Rattle.std.specs.Prelude.{[], OnOk};
ghost use Rattle.f11_fcp.specs.ByWindow.{WindowsAfter};
ghost use Rattle.f11_fcp.specs.Handles.{Handles, IsOpen, StaysOpen, state_of};
ghost use Rattle.f11_fcp.specs.Places.{access_table_of};
ghost use Rattle.f11_store.specs.declared.requests.Request.TheVariants as asked;
ghost use Rattle.f11_files.specs.Open.{CallSparesLost};

use crate::table::Accesses;
use f11_dev::Device;
use f11_files::Files;
use f11_store::{Lun, Refusal, Reply, Task, Uic};

impl Accesses {
    /// Each lun of the task gives its access up, from 0 on.
    pub(crate) fn release<D: Device>(
        &mut self,
        files: &mut Files<D>,
        task: Task,
        caller: Uic,
    ) -> Result<Reply, Refusal>
        requires open { IsOpen (access_table_of self.old) files.old }
        ensures handles { Handles task caller (asked.Release) result
            (state_of (access_table_of self.old) files.old) [] (state_of (access_table_of self.new) files.new) [] }
        ensures open { StaysOpen result (access_table_of self.new) files.new }
        ensures windows { OnOk result (WindowsAfter task asked.Release
            (state_of (access_table_of self.old) files.old) (state_of (access_table_of self.new) files.new)) }
        ensures lost { CallSparesLost files.old files.new }
    {
        for unit in 0..4 {
            let lun = match Lun::new(unit) {
                Some(lun) => lun,
                None => continue,
            };
            let held = match self.held(task, lun) {
                Some(held) => held,
                None => continue,
            };
            self.give_up(files, task, caller, lun, held)?;
        }
        Ok(Reply::Done)
    }
}
