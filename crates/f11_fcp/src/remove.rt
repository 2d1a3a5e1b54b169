//! A record of a directory that is emptied.
ghost use Rattle.std.specs.Prelude.{[]};
ghost use Rattle.f11_fcp.specs.Handles.{Handles, IsOpen, StaysOpen, state_of};
ghost use Rattle.f11_fcp.specs.Places.{access_table_of};
ghost use Rattle.f11_store.specs.declared.requests.Request.TheVariants as asked;
ghost use Rattle.f11_files.specs.Open.{CallSparesLost};

use crate::entry::clear_entry;
use crate::purpose::Purpose;
use crate::rights::is_bad;
use crate::table::Accesses;
use f11_dev::Device;
use f11_entries::Looked;
use f11_files::Files;
use f11_rad50::Name;
use f11_store::{FileId, Refusal, Reply, Task, Uic};

impl Accesses {
    /// The first record of a directory with the name becomes empty.
    ///
    /// # Errors
    ///
    /// `BadArgument`, `SystemFile`, `NoSuchFile`, `Marked`, `NoPrivilege`, `Conflict`, `NotDirectory`, `NoSuchEntry`.
    pub(crate) fn remove<D: Device>(
        &self,
        files: &mut Files<D>,
        task: Task,
        caller: Uic,
        directory: FileId,
        name: &Name,
    ) -> Result<Reply, Refusal>
        requires open { IsOpen (access_table_of self.now) files.old }
        ensures handles { Handles task caller (asked.Remove directory name.now) result
            (state_of (access_table_of self.now) files.old) [] (state_of (access_table_of self.now) files.new) [] }
        ensures open { StaysOpen result (access_table_of self.now) files.new }
        ensures lost { CallSparesLost files.old files.new }
    {
        if is_bad(directory) {
            return Err(Refusal::BadArgument);
        }
        let found = self.search(files, caller, directory, name, Purpose::Change)?;
        match found.looked {
            Looked::Found(spot, _) => match clear_entry(files, directory, &spot) {
                Ok(()) => Ok(Reply::Done),
                Err(refusal) => Err(refusal),
            },
            Looked::Absent(_) => Err(Refusal::NoSuchEntry),
        }
    }
}
