//! The index file that grows.
ghost use Rattle.std.specs.Prelude.{[]};
ghost use Rattle.f11_fcp.specs.Handles.{Handles, IsOpen, StaysOpen, state_of};
ghost use Rattle.f11_fcp.specs.Places.{access_table_of};
ghost use Rattle.f11_store.specs.declared.requests.Request.TheVariants as asked;
ghost use Rattle.f11_files.specs.Open.{CallSparesLost};

use crate::table::Accesses;
use f11_dev::Device;
use f11_files::Files;
use f11_store::{Class, Refusal, Reply, Task, Uic, is_of};

impl Accesses {
    /// So many slots more in the index file, for callers of the system class.
    ///
    /// # Errors
    ///
    /// `BadArgument`, `NoPrivilege`, `IndexLimit`, `TooManySegments`, `DeviceFull`, `NoHeader`, `NoMemory`.
    pub(crate) fn grow_index<D: Device>(
        &self,
        files: &mut Files<D>,
        task: Task,
        caller: Uic,
        n: u32,
    ) -> Result<Reply, Refusal>
        requires open { IsOpen (access_table_of self.now) files.old }
        ensures handles { Handles task caller (asked.GrowIndex n) result
            (state_of (access_table_of self.now) files.old) [] (state_of (access_table_of self.now) files.new) [] }
        ensures open { StaysOpen result (access_table_of self.now) files.new }
        ensures lost { CallSparesLost files.old files.new }
    {
        if n == 0 {
            return Err(Refusal::BadArgument);
        }
        if !is_of(caller, caller, Class::System) {
            return Err(Refusal::NoPrivilege);
        }
        let slots = files.grow_index(n)?;
        Ok(Reply::Slots(slots))
    }
}
