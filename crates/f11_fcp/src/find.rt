//! The file that a directory names.
ghost use Rattle.std.specs.Prelude.{[]};
ghost use Rattle.f11_fcp.specs.Handles.{Handles, IsOpen, IsUnwritten, StaysOpen, state_of};
ghost use Rattle.f11_fcp.specs.Places.{access_table_of};
ghost use Rattle.f11_store.specs.declared.requests.Request.TheVariants as asked;
ghost use Rattle.f11_files.specs.Open.{disk_in, CallSparesLost};

use crate::purpose::Purpose;
use crate::rights::is_bad;
use crate::table::Accesses;
use f11_dev::Device;
use f11_entries::Looked;
use f11_files::Files;
use f11_rad50::Name;
use f11_store::{FileId, Refusal, Reply, Task, Uic};

impl Accesses {
    /// The identification in the first record of a directory with the name; whether that file is there isn't asked.
    ///
    /// # Errors
    ///
    /// `BadArgument`, `SystemFile`, `NoSuchFile`, `Marked`, `NoPrivilege`, `NotDirectory`, `NoSuchEntry`.
    pub(crate) fn find<D: Device>(
        &self,
        files: &mut Files<D>,
        task: Task,
        caller: Uic,
        directory: FileId,
        name: &Name,
    ) -> Result<Reply, Refusal>
        requires open { IsOpen (access_table_of self.now) files.old }
        ensures handles { Handles task caller (asked.Find directory name.now) result
            (state_of (access_table_of self.now) files.old) [] (state_of (access_table_of self.now) files.new) [] }
        ensures open { StaysOpen result (access_table_of self.now) files.new }
        ensures lost { CallSparesLost files.old files.new }
        ensures unwritten { IsUnwritten (disk_in files.old) (disk_in files.new) }
    {
        if is_bad(directory) {
            return Err(Refusal::BadArgument);
        }
        let found = self.search(files, caller, directory, name, Purpose::Look)?;
        match found.looked {
            Looked::Found(_, file) => Ok(Reply::Found(file)),
            Looked::Absent(_) => Err(Refusal::NoSuchEntry),
        }
    }
}
