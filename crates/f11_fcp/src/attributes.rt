//! What headers say of files.
ghost use Rattle.std.specs.Prelude.{[]};
ghost use Rattle.f11_fcp.specs.Handles.{Handles, IsOpen, IsUnwritten, StaysOpen, state_of};
ghost use Rattle.f11_fcp.specs.Places.{access_table_of};
ghost use Rattle.f11_store.specs.declared.requests.Request.TheVariants as asked;
ghost use Rattle.f11_files.specs.Open.{disk_in, CallSparesLost};

use crate::rights::{is_bad, is_marked, lacks_change};
use crate::table::Accesses;
use f11_dev::Device;
use f11_files::Files;
use f11_store::{Change, FileId, Refusal, Reply, Task, Uic};

impl Accesses {
    /// What a file's header says of it, of one that is marked for delete and of files 1 to 3 too.
    ///
    /// # Errors
    ///
    /// `BadArgument`, `NoSuchFile`.
    pub(crate) fn read_attr<D: Device>(
        &self,
        files: &mut Files<D>,
        task: Task,
        caller: Uic,
        file: FileId,
    ) -> Result<Reply, Refusal>
        requires open { IsOpen (access_table_of self.now) files.old }
        ensures handles { Handles task caller (asked.ReadAttr file) result
            (state_of (access_table_of self.now) files.old) [] (state_of (access_table_of self.now) files.new) [] }
        ensures open { StaysOpen result (access_table_of self.now) files.new }
        ensures lost { CallSparesLost files.old files.new }
        ensures unwritten { IsUnwritten (disk_in files.old) (disk_in files.new) }
    {
        if is_bad(file) {
            return Err(Refusal::BadArgument);
        }
        let attr = files.read_attr(file)?;
        Ok(Reply::Attr(attr))
    }

    /// A part of what a file's header says of it is replaced.
    ///
    /// # Errors
    ///
    /// `BadArgument`, `SystemFile`, `NoSuchFile`, `Marked`, `NoPrivilege`.
    pub(crate) fn write_attr<D: Device>(
        &self,
        files: &mut Files<D>,
        task: Task,
        caller: Uic,
        file: FileId,
        change: &Change,
    ) -> Result<Reply, Refusal>
        requires open { IsOpen (access_table_of self.now) files.old }
        ensures handles { Handles task caller (asked.WriteAttr file change.now) result
            (state_of (access_table_of self.now) files.old) [] (state_of (access_table_of self.now) files.new) [] }
        ensures open { StaysOpen result (access_table_of self.now) files.new }
        ensures lost { CallSparesLost files.old files.new }
    {
        if is_bad(file) {
            return Err(Refusal::BadArgument);
        }
        if file.number < 4 {
            return Err(Refusal::SystemFile);
        }
        let attr = files.read_attr(file)?;
        if is_marked(&attr) {
            return Err(Refusal::Marked);
        }
        if lacks_change(change, caller, &attr) {
            return Err(Refusal::NoPrivilege);
        }
        files.write_attr(file, change)?;
        Ok(Reply::Done)
    }
}
