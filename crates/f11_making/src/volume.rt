//! A volume that is asked.

use crate::asked::Asked;
use f11_bytes::Block;
use f11_dev::Device;
use f11_fcp::Volume;
use f11_store::{Lun, Refusal, Reply, Request, Task, Uic};

/// A volume answers as [`Volume::serve`] and [`Volume::length`] do.
impl<D: Device> Asked for Volume<D> {
    ghost use Rattle.f11_making.specs.Volume.{of_volume};

    ghost service = { of_volume };

    fn serve(
        &mut self,
        task: Task,
        caller: Uic,
        request: &Request,
        block: &mut Block,
    ) -> Result<Reply, Refusal> {
        Volume::serve(self, task, caller, request, block)
    }

    fn length(&mut self, task: Task, lun: Lun) -> Result<u32, Refusal> {
        Volume::length(self, task, lun)
    }
}
