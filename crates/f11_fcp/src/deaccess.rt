//! An access that is given up.
ghost use Rattle.std.specs.Prelude.{[], ◌≡◌, IfErr, Some, true, OnOk};
ghost use Rattle.f11_fcp.specs.ByWindow.{WindowsAfter};
ghost use Rattle.f11_fcp.specs.Handles.{Handles, IsOpen, StaysOpen, state_of};
ghost use Rattle.f11_fcp.specs.Places.{entry_of, access_table_of};
ghost use Rattle.f11_files.specs.Answers.{is_fatal};
ghost use Rattle.f11_store.specs.declared.requests.Request.TheVariants as asked;
ghost use Rattle.f11_files.specs.Open.{CallSparesLost};

use crate::answer::of_known;
use crate::table::{Accesses, Held};
use f11_dev::Device;
use f11_files::Files;
use f11_store::{Lun, Refusal, Reply, Task, Uic};

impl Accesses {
    /// The lun gives its access up; with the last access a marked file is deleted.
    ///
    /// # Errors
    ///
    /// `NoSuchAccess`.
    pub(crate) fn deaccess<D: Device>(
        &mut self,
        files: &mut Files<D>,
        task: Task,
        caller: Uic,
        lun: Lun,
    ) -> Result<Reply, Refusal>
        requires open { IsOpen (access_table_of self.old) files.old }
        ensures handles { Handles task caller (asked.Deaccess lun) result
            (state_of (access_table_of self.old) files.old) [] (state_of (access_table_of self.new) files.new) [] }
        ensures open { StaysOpen result (access_table_of self.new) files.new }
        ensures windows { OnOk result (WindowsAfter task (asked.Deaccess lun)
            (state_of (access_table_of self.old) files.old) (state_of (access_table_of self.new) files.new)) }
        ensures lost { CallSparesLost files.old files.new }
    {
        match self.held(task, lun) {
            Some(held) => self.give_up(files, task, caller, lun, held),
            None => Err(Refusal::NoSuchAccess),
        }
    }

    /// The lun gives up the access that it holds; with the last access a marked file is deleted. It is refused only where that fails the
    /// volume.
    pub(crate) fn give_up<D: Device>(
        &mut self,
        files: &mut Files<D>,
        task: Task,
        caller: Uic,
        lun: Lun,
        held: Held,
    ) -> Result<Reply, Refusal>
        requires open { IsOpen (access_table_of self.old) files.old }
        requires held { access_table_of self.old task lun ≡ Some (entry_of held) }
        ensures handles { Handles task caller (asked.Deaccess lun) result
            (state_of (access_table_of self.old) files.old) [] (state_of (access_table_of self.new) files.new) [] }
        ensures open { StaysOpen result (access_table_of self.new) files.new }
        ensures windows { OnOk result (WindowsAfter task (asked.Deaccess lun)
            (state_of (access_table_of self.old) files.old) (state_of (access_table_of self.new) files.new)) }
        ensures fatal { IfErr result (λ refusal. is_fatal refusal ≡ true) }
        ensures lost { CallSparesLost files.old files.new }
    {
        self.set(task, lun, None);
        if !held.marked {
            return Ok(Reply::Done);
        }
        if self.is_accessed(held.file) {
            return Ok(Reply::Done);
        }
        match files.delete(held.file) {
            Ok(()) => Ok(Reply::Done),
            Err(refusal) => Err(of_known(refusal)),
        }
    }
}
