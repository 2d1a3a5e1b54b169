//! Each request's answer.
ghost use Rattle.std.specs.Prelude.{◌≡◌, false, true, OnOk};
ghost use Rattle.f11_fcp.specs.ByWindow.{WindowsAfter, TakesOneTransfer};
ghost use Rattle.f11_fcp.specs.Handles.{Handles, IsOpen, IsUnwritten, StaysOpen, state_of};
ghost use Rattle.f11_fcp.specs.InOneRun.{InOneRun};
ghost use Rattle.f11_fcp.specs.Places.{access_table_of};
ghost use Rattle.f11_fcp.specs.Serving.{fills_block, only_reads};
ghost use Rattle.f11_files.specs.Open.{disk_in, CallSparesLost};

use crate::table::Accesses;
use f11_bytes::Block;
use f11_dev::Device;
use f11_files::Files;
use f11_store::{Refusal, Reply, Request, Task, Uic};

impl Accesses {
    /// Answers a request.
    pub(crate) fn answer<D: Device>(
        &mut self,
        files: &mut Files<D>,
        task: Task,
        caller: Uic,
        request: &Request,
        block: &mut Block,
    ) -> Result<Reply, Refusal>
        requires open { IsOpen (access_table_of self.old) files.old }
        ensures handles { Handles task caller request.now result (state_of (access_table_of self.old) files.old) block.old
            (state_of (access_table_of self.new) files.new) block.new }
        ensures open { StaysOpen result (access_table_of self.new) files.new }
        ensures windows { OnOk result (WindowsAfter task request.now
            (state_of (access_table_of self.old) files.old) (state_of (access_table_of self.new) files.new)) }
        ensures once { TakesOneTransfer task request.now
            (state_of (access_table_of self.old) files.old) (state_of (access_table_of self.new) files.new) }
        ensures run { InOneRun task caller request.now result
            (state_of (access_table_of self.old) files.old) (state_of (access_table_of self.new) files.new) }
        ensures spared { fills_block request.now ≡ false → block.new ≡ block.old }
        ensures lost { CallSparesLost files.old files.new }
        ensures unwritten { only_reads request.now ≡ true → IsUnwritten (disk_in files.old) (disk_in files.new) }
    {
        match request {
            Request::Create {
                protection,
                ident,
                attr,
            } => self.create(files, task, caller, *protection, ident, attr),
            Request::Extend(lun, n) => self.extend(files, task, caller, *lun, *n),
            Request::Contiguous(lun, n) => self.contiguous(files, task, caller, *lun, *n),
            Request::Truncate(lun, to) => self.truncate(files, task, caller, *lun, *to),
            Request::Delete(file) => self.delete(files, task, caller, *file),
            Request::GrowIndex(n) => self.grow_index(files, task, caller, *n),
            Request::Access(file, mode, lun) => {
                self.access(files, task, caller, *file, *mode, *lun)
            }
            Request::Deaccess(lun) => self.deaccess(files, task, caller, *lun),
            Request::Release => self.release(files, task, caller),
            Request::ReadBlock(lun, vbn) => self.read_block(files, task, caller, *lun, *vbn, block),
            Request::WriteBlock(lun, vbn) => {
                self.write_block(files, task, caller, *lun, *vbn, block)
            }
            Request::ReadAttr(file) => self.read_attr(files, task, caller, *file),
            Request::WriteAttr(file, change) => {
                self.write_attr(files, task, caller, *file, change)
            }
            Request::Space => self.space(files, task, caller),
            Request::Find(directory, name) => self.find(files, task, caller, *directory, name),
            Request::Enter(directory, name, file) => {
                self.enter(files, task, caller, *directory, name, *file)
            }
            Request::Remove(directory, name) => self.remove(files, task, caller, *directory, name),
        }
    }
}
