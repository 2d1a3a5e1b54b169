//! The counts of the volume.
ghost use Rattle.std.specs.Prelude.{◌≡◌, [], false, IsTrue};
ghost use Rattle.f11_fcp.specs.Handles.{Handles, IsOpen, IsUnwritten, StaysOpen, state_of};
ghost use Rattle.f11_fcp.specs.Places.{access_table_of};
ghost use Rattle.f11_store.specs.declared.requests.Request.TheVariants as asked;
ghost use Rattle.f11_files.specs.Open.{disk_in, CallSparesLost};

use crate::table::Accesses;
use crate::volume::Volume;
use f11_dev::Device;
use f11_files::Files;
use f11_store::{Refusal, Reply, Task, Uic};

impl Accesses {
    /// The counts of the volume.
    pub(crate) fn space<D: Device>(
        &self,
        files: &mut Files<D>,
        task: Task,
        caller: Uic,
    ) -> Result<Reply, Refusal>
        requires open { IsOpen (access_table_of self.now) files.old }
        ensures handles { Handles task caller asked.Space result (state_of (access_table_of self.now) files.old) []
            (state_of (access_table_of self.now) files.new) [] }
        ensures open { StaysOpen result (access_table_of self.now) files.new }
        ensures lost { CallSparesLost files.old files.new }
        ensures unwritten { IsUnwritten (disk_in files.old) (disk_in files.new) }
    {
        let (free, headers, slots) = files.space();
        Ok(Reply::Space {
            free,
            headers,
            slots,
        })
    }
}

impl<D: Device> Volume<D> {
    ghost use Rattle.f11_store.specs.Store.{free_headers};
    ghost use Rattle.f11_fcp.specs.Lists.{store_of_volume};
    ghost use Rattle.f11_fcp.specs.Serving.{is_spent, state_in};

    /// How many blocks are free, and how many headers: no request, but what a command asks that gets slots first. No transfer is made. Behind
    /// a request that was answered `DeviceFault` or `Damaged`, and on a device that isn't honest, they may be any numbers.
    pub fn free(&self) -> (u32, u32)
        ensures blocks { IsTrue (state_in self.now).disk.honest → is_spent self.now ≡ false
            → result.0 ≡ (store_of_volume self.now).free }
        ensures headers { IsTrue (state_in self.now).disk.honest → is_spent self.now ≡ false
            → result.1 ≡ free_headers (store_of_volume self.now) }
    {
        let (blocks, headers, _) = self.files.space();
        (blocks, headers)
    }
}
