//! A service that takes blocks and keeps none.
ghost use Rattle.std.specs.Prelude.{◌≡◌, ℕ, Ok, Result};
ghost use Rattle.f11_runs.specs.Each.{answer_with, call_with};
ghost use Rattle.f11_store.specs.declared.refusals.Refusal.{Refusal};
ghost use Rattle.f11_store.specs.declared.requests.Reply.TheVariants as reply;
ghost use Rattle.f11_making.specs.Asking.{FilesService};
ghost use Rattle.f11_flx.specs.Dry.{dry};

use f11_bytes::Block;
use f11_making::Asked;
use f11_store::{Lun, Refusal, Reply, Request, Task, Uic};

/// A service that answers each request `Done`, and does nothing: so a copy is judged and its blocks are counted before a file is made.
#[derive(Clone, Copy, Debug)]
pub struct Dry;

impl Asked for Dry {
    ghost service = { dry };

    fn serve(
        &mut self,
        _task: Task,
        _caller: Uic,
        _request: &Request,
        _block: &mut Block,
    ) -> Result<Reply, Refusal> {
        Ok(Reply::Done)
    }

    fn length(&mut self, _task: Task, _lun: Lun) -> Result<u32, Refusal> {
        Ok(0)
    }
}
