//! Files that are deleted, or marked for it.
ghost use Rattle.std.specs.Prelude.{[], ◌≡◌, ◌==◌, ◌&&◌, OnOk};
ghost use Rattle.std.specs.Int.{bit_at};
ghost use Rattle.f11_fcp.specs.ByWindow.{WindowsAfter};
ghost use Rattle.f11_fcp.specs.Handles.{Handles, IsOpen, StaysOpen, state_of};
ghost use Rattle.f11_fcp.specs.Places.{access_table_of};
ghost use Rattle.f11_store.specs.declared.requests.Request.TheVariants as asked;
ghost use Rattle.f11_files.specs.Open.{CallSparesLost};

use crate::rights::{is_bad, is_marked};
use crate::table::Accesses;
use f11_dev::Device;
use f11_files::Files;
use f11_store::{Attr, FileId, Refusal, Reply, Right, Task, Uic, may};

/// Whether a file is marked for delete already, and stays for those alone who access it.
fn is_going(attr: &Attr, accessed: bool) -> bool
    ensures { result ≡ ((bit_at attr.now.characteristics 15 == 1) && accessed) }
{
    is_marked(attr) && accessed
}

impl Accesses {
    /// The file goes, or is marked where it is accessed.
    ///
    /// # Errors
    ///
    /// `BadArgument`, `SystemFile`, `NoSuchFile`, `Marked`, `NoPrivilege`.
    pub(crate) fn delete<D: Device>(
        &mut self,
        files: &mut Files<D>,
        task: Task,
        caller: Uic,
        file: FileId,
    ) -> Result<Reply, Refusal>
        requires open { IsOpen (access_table_of self.old) files.old }
        ensures handles { Handles task caller (asked.Delete file) result
            (state_of (access_table_of self.old) files.old) [] (state_of (access_table_of self.new) files.new) [] }
        ensures open { StaysOpen result (access_table_of self.new) files.new }
        ensures windows { OnOk result (WindowsAfter task (asked.Delete file)
            (state_of (access_table_of self.old) files.old) (state_of (access_table_of self.new) files.new)) }
        ensures lost { CallSparesLost files.old files.new }
    {
        if is_bad(file) {
            return Err(Refusal::BadArgument);
        }
        if file.number < 6 {
            return Err(Refusal::SystemFile);
        }
        let attr = files.read_attr(file)?;
        let accessed = self.is_accessed(file);
        if is_going(&attr, accessed) {
            return Err(Refusal::Marked);
        }
        if !may(caller, attr.owner, attr.protection, Right::Delete) {
            return Err(Refusal::NoPrivilege);
        }
        if !accessed {
            return match files.delete(file) {
                Ok(()) => Ok(Reply::Done),
                Err(refusal) => Err(refusal),
            };
        }
        files.mark(file)?;
        self.set_marks(file);
        Ok(Reply::Done)
    }
}
