//! A volume that serves tasks.
ghost use Rattle.std.specs.Prelude.{◌≡◌, false};
ghost use Rattle.f11_files.specs.Open.{has_failed, is_honest, store_in};
ghost use Rattle.f11_fcp.specs.Accesses.{HasAccessed};
ghost use Rattle.f11_fcp.specs.Places.{access_table_of};
ghost use Rattle.f11_fcp.specs.Windows.{HasWindows};

use crate::table::Accesses;
use f11_bytes::Block;
use f11_dev::Device;
use f11_files::f11_vfy::Accepted;
use f11_files::{Files, OpenFault};
use f11_store::{Refusal, Reply, Request, Task, Uic};
use std::alloc::Global;

/// The device of a volume that a request has failed.
#[derive(Drop)]
pub struct Failed<D: Device>(pub D);

/// An open volume with what tasks hold of it.
#[derive(Drop)]
pub struct Volume<D: Device> {
    pub(crate) files: Files<D>,
    pub(crate) accesses: Accesses,
    /// While no request was answered `DeviceFault` or `Damaged`, each access is to a file that is there, marked as is kept,
    pub ghost kept: { has_failed files ≡ false → is_honest files
        → HasAccessed (access_table_of accesses) (store_in files) },
    /// and keeps a window, whose blocks are the file's.
    pub ghost windows: { has_failed files ≡ false → HasWindows (access_table_of accesses) files },
}

impl<D: Device> Volume<D> {
    ghost use Rattle.std.specs.Prelude.{true, IfOk, IfErr};
    ghost use Rattle.f11_files.specs.Opening.Opened.{FailsToOpen};
    ghost use Rattle.f11_files.specs.vfy.Accepted.{device_of};
    ghost use Rattle.f11_fcp.specs.ByWindow.{ServesWithWindows};
    ghost use Rattle.f11_fcp.specs.Mounting.{Mounts};
    ghost use Rattle.f11_fcp.specs.Serving.{Serving, StaysAccepted, device_in, is_spent, state_in};

    /// Serves a request of a task. A block that stands in the window of its access is read or written without the file's headers, and its
    /// window stays; one that doesn't leaves a window in which it stands.
    ///
    /// # Errors
    ///
    /// `VolumeFailed` where an earlier request answered `DeviceFault` or `Damaged`; else the first refusal whose cause holds;
    /// `NoMemory` where there is none for slots of the index file, which grows for `GrowIndex`, and first for `Create`, `Extend` and
    /// `Enter` where they need a header that isn't free; `NoRun` where nowhere so many free blocks follow one another as `Contiguous` asks
    /// for; `DeviceFault` where a transfer failed, and `Damaged` where a device that isn't
    /// honest gave what no accepted volume has.
    pub fn serve(
        &mut self,
        task: Task,
        caller: Uic,
        request: &Request,
        block: &mut Block,
    ) -> Result<Reply, Refusal>
        ensures serves { Serving task caller request.now result self.old self.new block.old block.new }
        ensures accepted { StaysAccepted (state_in self.new) }
        ensures windows { ServesWithWindows task request.now result self.old self.new }
    {
        if self.files.failed() {
            return Err(Refusal::VolumeFailed);
        }
        let answer = self
            .accesses
            .answer(&mut self.files, task, caller, request, block);
        self.files.note(&answer);
        answer
    }

    /// Opens an accepted volume, of which no task holds anything.
    ///
    /// # Errors
    ///
    /// Those of [`Files::open`].
    pub fn mount(alloc: Global, accepted: Accepted<D>) -> Result<Volume<D>, OpenFault<D>>
        ensures mounts { IfOk result (λ v. Mounts (D.disk (device_of accepted)) v) }
        ensures accepted { IfOk result (λ v. StaysAccepted (state_in v)) }
        ensures refused { IfErr result (λ fault.
            FailsToOpen D.disk (D.disk (device_of accepted)) fault) }
    {
        let files = Files::open(alloc, accepted)?;
        Ok(Volume {
            files,
            accesses: Accesses::none(),
        })
    }

    /// Gives all accesses up, without a transfer, and the volume.
    ///
    /// # Errors
    ///
    /// The device as it is, where a request has answered `DeviceFault` or `Damaged`.
    pub fn dismount(self) -> Result<Accepted<D>, Failed<D>>
        ensures given { IfOk result (λ a. (is_spent self ≡ false) × (device_of a ≡ device_in self)) }
        ensures failed { IfErr result (λ f. (is_spent self ≡ true) × (f.0 ≡ device_in self)) }
    {
        let Volume { files, .. } = self;
        if files.failed() {
            Err(Failed(files.abandon()))
        } else {
            Ok(files.close())
        }
    }

    /// The device as it is, to be looked at.
    pub fn lent(&self) -> &D
        ensures { result.now ≡ device_in self.now }
    {
        self.files.lent()
    }
}
