//! A file that is entered into a directory.
ghost use Rattle.std.specs.Prelude.{[]};
ghost use Rattle.f11_fcp.specs.Handles.{Handles, IsOpen, StaysOpen, state_of};
ghost use Rattle.f11_fcp.specs.Places.{access_table_of};
ghost use Rattle.f11_store.specs.declared.requests.Request.TheVariants as asked;
ghost use Rattle.f11_files.specs.Open.{CallSparesLost};

use crate::append::put_entry;
use crate::purpose::Purpose;
use crate::rights::is_bad;
use crate::table::Accesses;
use f11_dev::Device;
use f11_entries::Looked;
use f11_files::Files;
use f11_rad50::Name;
use f11_store::{FileId, Refusal, Reply, Task, Uic};

impl Accesses {
    /// A directory gets a record of a file under a name: in place of the first empty one, or at its end. Whether the file is there isn't asked.
    ///
    /// # Errors
    ///
    /// `BadArgument`, `SystemFile`, `NoSuchFile`, `Marked`, `NoPrivilege`, `Conflict`, `NotDirectory`, `DuplicateName`, and where one more
    /// block is needed `TooManySegments`, `DeviceFull`, `NoHeader`, `NoMemory`, as extending a file by it.
    pub(crate) fn enter<D: Device>(
        &self,
        files: &mut Files<D>,
        task: Task,
        caller: Uic,
        directory: FileId,
        name: &Name,
        file: FileId,
    ) -> Result<Reply, Refusal>
        requires open { IsOpen (access_table_of self.now) files.old }
        ensures handles { Handles task caller (asked.Enter directory name.now file) result
            (state_of (access_table_of self.now) files.old) [] (state_of (access_table_of self.now) files.new) [] }
        ensures open { StaysOpen result (access_table_of self.now) files.new }
        ensures lost { CallSparesLost files.old files.new }
    {
        if is_bad(directory) {
            return Err(Refusal::BadArgument);
        }
        if is_bad(file) {
            return Err(Refusal::BadArgument);
        }
        let found = self.search(files, caller, directory, name, Purpose::Change)?;
        match found.looked {
            Looked::Found(..) => Err(Refusal::DuplicateName),
            Looked::Absent(empty) => {
                put_entry(files, directory, &found, empty, file, name)?;
                Ok(Reply::Done)
            }
        }
    }
}
