//! Lists of requests, served in order.
ghost use Rattle.f11_runs.specs.Each.{Each, answer_with, call_with};
ghost use Rattle.f11_runs.specs.Standing.{IsTasks};
ghost use Rattle.f11_fcp.specs.Lists.{AreAnswered, IsServed, KeepsCosts, KeepsLocks, ServesCall, ServesRun, answers_in, asked_in};
ghost use Rattle.f11_fcp.specs.Serving.{RequestsSpareLost};

use crate::call::Call;
use crate::volume::Volume;
use f11_bytes::Block;
use f11_dev::Device;
use f11_store::{Refusal, Reply, Request, Task, Uic};

impl<D: Device> Volume<D> {
    /// Serves each request of a list in its order, whichever tasks ask, and puts its answer beside it; a refusal stops nothing.
    /// Any interleaving of the tasks is such a list.
    ///
    /// Each call's block is left as [`Volume::serve`] leaves it, and an answer that was there is replaced.
    pub fn run(&mut self, calls: &mut [Call])
        ensures answered { AreAnswered calls.old calls.new }
        ensures served { Each ServesCall self.old (asked_in calls.old) (answers_in calls.new) self.new }
        ensures run { ServesRun self.old (asked_in calls.old) (answers_in calls.new) self.new }
        ensures locked { KeepsLocks self.old (asked_in calls.old) (answers_in calls.new) self.new }
        ensures costs { KeepsCosts self.old (asked_in calls.old) (answers_in calls.new) self.new }
        ensures lost { RequestsSpareLost self.old self.new }
    {
        for call in calls.iter_mut() {
            self.serve_call(call);
        }
    }

    /// Serves a call of a list.
    fn serve_call(&mut self, call: &mut Call)
        ensures { IsServed self.old call.old call.new self.new }
    {
        let answer = self.serve_asked(call.task, call.uic, call.request, &mut call.block);
        call.answer = Some(answer);
    }

    /// Serves a request, of which is known what its type says: it is of a task and a lun that there are.
    fn serve_asked(
        &mut self,
        task: Task,
        caller: Uic,
        request: Request,
        block: &mut Block,
    ) -> Result<Reply, Refusal>
        ensures serves { ServesCall self.old (call_with task caller request block.old)
            (answer_with result block.new) self.new }
        ensures tasks { IsTasks (call_with task caller request block.old) }
    {
        self.serve(task, caller, &request, block)
    }
}
