//! Files that are laid out in one run.
ghost use Rattle.std.specs.Prelude.{[]};
ghost use Rattle.f11_fcp.specs.Handles.{Handles, IsOpen, StaysOpen, state_of};
ghost use Rattle.f11_fcp.specs.InOneRun.{InOneRun};
ghost use Rattle.f11_fcp.specs.Places.{access_table_of};
ghost use Rattle.f11_store.specs.declared.requests.Request.TheVariants as asked;
ghost use Rattle.f11_files.specs.Open.{CallSparesLost};

use crate::answer::of_accessed;
use crate::table::Accesses;
use f11_dev::Device;
use f11_files::Files;
use f11_store::{Lun, Refusal, Reply, Task, Uic};

impl Accesses {
    /// So many blocks of zeros in one run for a file that has none, the lowest that are free, and the contiguous mark.
    ///
    /// # Errors
    ///
    /// `BadArgument`, `NoSuchAccess`, `NoPrivilege`, `NotEmpty`, `TooManySegments`, `DeviceFull`, `NoHeader`, and `NoRun` where nowhere
    /// so many free blocks follow one another.
    pub(crate) fn contiguous<D: Device>(
        &self,
        files: &mut Files<D>,
        task: Task,
        caller: Uic,
        lun: Lun,
        n: u32,
    ) -> Result<Reply, Refusal>
        requires open { IsOpen (access_table_of self.now) files.old }
        ensures handles { Handles task caller (asked.Contiguous lun n) result
            (state_of (access_table_of self.now) files.old) [] (state_of (access_table_of self.now) files.new) [] }
        ensures open { StaysOpen result (access_table_of self.now) files.new }
        ensures run { InOneRun task caller (asked.Contiguous lun n) result
            (state_of (access_table_of self.now) files.old) (state_of (access_table_of self.now) files.new) }
        ensures lost { CallSparesLost files.old files.new }
    {
        let file = self.may_lengthen(files, task, caller, lun, n)?;
        match files.contiguous(file, n) {
            Ok(length) => Ok(Reply::Length(length)),
            Err(refusal) => Err(of_accessed(refusal)),
        }
    }
}
