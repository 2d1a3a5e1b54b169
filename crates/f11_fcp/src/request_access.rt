//! An access that is taken.
ghost use Rattle.std.specs.Prelude.{[], OnOk};
ghost use Rattle.f11_fcp.specs.ByWindow.{WindowsAfter};
ghost use Rattle.f11_fcp.specs.Handles.{Handles, IsOpen, StaysOpen, state_of};
ghost use Rattle.f11_fcp.specs.Places.{access_table_of};
ghost use Rattle.f11_store.specs.declared.requests.Request.TheVariants as asked;
ghost use Rattle.f11_files.specs.Open.{CallSparesLost};

use crate::rights::{is_bad, is_marked, lacks_for};
use crate::table::{Accesses, Held};
use f11_chain::Window;
use f11_dev::Device;
use f11_files::Files;
use f11_store::{FileId, Lun, Mode, Refusal, Reply, Task, Uic};

impl Accesses {
    /// The lun gets an access to the file.
    ///
    /// # Errors
    ///
    /// `BadArgument`, `LunInUse`, `SystemFile`, `NoSuchFile`, `Marked`, `NoPrivilege`, `Conflict`.
    pub(crate) fn access<D: Device>(
        &mut self,
        files: &mut Files<D>,
        task: Task,
        caller: Uic,
        file: FileId,
        mode: Mode,
        lun: Lun,
    ) -> Result<Reply, Refusal>
        requires open { IsOpen (access_table_of self.old) files.old }
        ensures handles { Handles task caller (asked.Access file mode lun) result
            (state_of (access_table_of self.old) files.old) [] (state_of (access_table_of self.new) files.new) [] }
        ensures open { StaysOpen result (access_table_of self.new) files.new }
        ensures windows { OnOk result (WindowsAfter task (asked.Access file mode lun)
            (state_of (access_table_of self.old) files.old) (state_of (access_table_of self.new) files.new)) }
        ensures lost { CallSparesLost files.old files.new }
    {
        if is_bad(file) {
            return Err(Refusal::BadArgument);
        }
        match self.held(task, lun) {
            None => {}
            Some(_) => return Err(Refusal::LunInUse),
        }
        if file.number < 4 {
            return Err(Refusal::SystemFile);
        }
        let attr = files.read_attr(file)?;
        if is_marked(&attr) {
            return Err(Refusal::Marked);
        }
        if lacks_for(mode, caller, &attr) {
            return Err(Refusal::NoPrivilege);
        }
        if self.is_barred(mode, file) {
            return Err(Refusal::Conflict);
        }
        let held = Held {
            file,
            mode,
            marked: false,
            window: Window::empty(),
        };
        self.set(task, lun, Some(held));
        Ok(Reply::Done)
    }
}
