//! The files of a volume.
ghost use Rattle.std.specs.Prelude.{◌≡◌, false, length, IsTrue};
ghost use Rattle.std.proofs.Props.{props};
ghost use Rattle.f11_files.specs.Finding.Reached.{LiesSeen};
ghost use Rattle.f11_files.specs.Structure.{home_of, FitsOn, IsStructureOf, HasNoOtherHome};
ghost use Rattle.f11_volume.specs.Verdict.{IsAccepted};

use crate::answer::is_fatal;
use crate::find::reach::Seen;
use crate::structure::Structure;
use f11_dev::Device;
use f11_store::Refusal;

/// The files of an accepted volume, without tasks, and the device that it is on.
///
/// After a call has answered `DeviceFault` or `Damaged`, or such an answer was noted, each later one that may be refused answers
/// `VolumeFailed`, until the device is verified again.
#[derive(Drop)]
pub struct Files<D: Device> {
    pub(crate) device: D,
    pub(crate) structure: Structure,
    /// Whether a call has answered `DeviceFault` or `Damaged`, or such an answer was noted.
    pub(crate) failed: bool,
    /// The header that a call on blocks reached last, unless a call that may write one was made since.
    pub(crate) seen: Option<Seen>,
    /// While no call has failed, what is kept lies on the device.
    pub ghost lies: { failed ≡ false → FitsOn structure (length (D.disk device).image) },
    /// The image has no fault where the device is honest,
    pub ghost accepted: { IsTrue (D.disk device).honest → IsAccepted (D.disk device).image },
    /// and its home block is the one that is kept.
    pub ghost home: { IsTrue (D.disk device).honest → HasNoOtherHome (D.disk device).image (home_of structure) },
    /// While no call has failed, what is kept is the image's, too.
    pub ghost keeps: { IsTrue (D.disk device).honest → failed ≡ false → IsStructureOf structure (D.disk device).image },
    /// That header is there still.
    pub ghost lies_seen: { failed ≡ false → LiesSeen seen (home_of structure) (D.disk device) } by { Prim.hlevel props },
}

impl<D: Device> Files<D> {
    ghost use Rattle.f11_files.specs.Open.{counts_in, device_in, has_failed, is_honest, store_in, NotesAnswer};
    ghost use Rattle.f11_files.specs.Operations.{IsSpaceOf};

    /// Gives the device up, as it is. No transfer is made.
    pub fn abandon(self) -> D
        ensures { result ≡ device_in self }
    {
        let Files { device, .. } = self;
        device
    }

    /// Whether a call has answered `DeviceFault` or `Damaged`, or such an answer was noted.
    pub fn failed(&self) -> bool
        ensures { result ≡ has_failed self.now }
    {
        self.failed
    }

    /// Notes an answer that was made of what calls gave: where it is `DeviceFault` or `Damaged` the volume has failed, as where a call
    /// answers so. No transfer is made.
    pub fn note<T>(&mut self, answer: &Result<T, Refusal>)
        ensures { NotesAnswer answer.now self.old self.new }
    {
        if is_fatal(answer) {
            self.failed = true;
        }
    }

    /// The device as it is, to be looked at.
    pub fn lent(&self) -> &D
        ensures { result.now ≡ device_in self.now }
    {
        &self.device
    }

    /// How many blocks are free, how many slots from 6 on are, and how many slots there are. No transfer is made.
    pub fn space(&self) -> (u32, u32, u32)
        ensures told { result ≡ counts_in self.now }
        ensures space { is_honest self.now → has_failed self.now ≡ false
            → IsSpaceOf (store_in self.now) result.0 result.1 result.2 }
    {
        (
            self.structure.storage.free(),
            self.structure.index.free_headers(),
            self.structure.index.slots(),
        )
    }
}
