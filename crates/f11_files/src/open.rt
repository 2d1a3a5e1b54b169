//! Opening an accepted volume, and giving it up.
ghost use Rattle.std.specs.Prelude.{◌≡◌, ◌↔◌, false, IsTrue, IfErr, IfOk};
ghost use Rattle.f11_files.specs.Opening.Opens.{ArePlacesApart, OpensStructure, fault_of, HasNoStructure};
ghost use Rattle.f11_volume.specs.Verdict.{IsAccepted};

use crate::files::Files;
use crate::structure::Structure;
use f11_bits::Storage;
use f11_dev::Device;
use f11_home::{HomeFault, find};
use f11_vfy::fault::ReadFault;
use f11_vfy::{Accepted, Framing, read_frame};
use std::alloc::Global;

/// Why a volume could not be opened.
#[derive(Drop)]
pub enum OpenFault<D: Device> {
    /// A transfer failed. The device comes back.
    DeviceFault(D),
    /// A structural fault was met, which no honest device has. The device comes back.
    Damaged(D),
    /// There was no memory for what is kept of the index file.
    NoMemory(Accepted<D>),
}

/// Why what is to be kept of a volume could not be read.
#[derive(Clone, Copy)]
pub(crate) enum StructureFault {
    /// A transfer failed.
    DeviceFault,
    /// A structural fault was met.
    Damaged,
    /// There was no memory.
    NoMemory,
}

/// What a fault of reading is here.
fn structure_fault(fault: ReadFault) -> StructureFault
    ensures { result ≡ fault_of fault }
{
    match fault {
        ReadFault::DeviceFault => StructureFault::DeviceFault,
        ReadFault::NoMemory => StructureFault::NoMemory,
    }
}

/// Whether no place is there twice.
fn are_apart(places: &[u32]) -> bool
    ensures { IsTrue result ↔ ArePlacesApart places.now }
{
    for i in 0..places.len() {
        if places[..i].contains(&places[i]) {
            return false;
        }
    }
    true
}

impl Structure {
    /// Reads what is kept of an accepted volume: its home block, its index file, and where its storage bitmap is, of which it counts the
    /// free blocks. It takes memory for a bit and an LBN a slot, and for the first blocks of the storage bitmap file.
    ///
    /// # Errors
    ///
    /// `DeviceFault` where a transfer failed, `Damaged` where a structural fault was met, `NoMemory` where there was no memory.
    pub(crate) fn read<D: Device>(
        alloc: Global,
        device: &mut D,
    ) -> Result<Structure, StructureFault>
        requires { IsTrue (D.disk device.old).honest → IsAccepted (D.disk device.old).image }
        ensures reads { IfOk result (λ s. OpensStructure s (D.disk device.old)
            (D.disk device.new)) }
        ensures refused { IfErr result (λ fault.
            HasNoStructure fault (D.disk device.old) (D.disk device.new)) }
    {
        let home = match find(device) {
            Ok(home) => home,
            Err(HomeFault::NoHome) => return Err(StructureFault::Damaged),
            Err(HomeFault::DeviceFault) => return Err(StructureFault::DeviceFault),
        };
        let frame = match read_frame(alloc, device) {
            Ok(Framing::Framed(frame)) => frame,
            Ok(Framing::Faulty { .. }) => return Err(StructureFault::Damaged),
            Err(fault) => return Err(structure_fault(fault)),
        };
        if !are_apart(frame.places()) {
            return Err(StructureFault::Damaged);
        }
        match Storage::load(device, frame.places(), frame.size()) {
            Ok(storage) => Ok(Structure {
                home,
                index: frame.into_index(),
                storage,
            }),
            Err(_) => Err(StructureFault::DeviceFault),
        }
    }
}

impl<D: Device> Files<D> {
    ghost use Rattle.f11_files.specs.Open.{device_in, has_failed, disk_in, home_in, store_in};
    ghost use Rattle.f11_files.specs.Opening.Opened.{Opens, FailsToOpen};
    ghost use Rattle.f11_vfy.specs.Accepted.{device_of};

    /// Opens an accepted volume. It reads the candidates for the home block up to the one found, the frame, for which it looks for the
    /// home block again, and the storage bitmap. It takes memory for a bit and an LBN a slot, and for the first blocks of the storage
    /// bitmap file.
    ///
    /// # Errors
    ///
    /// `DeviceFault` where a transfer failed, `Damaged` where a structural fault was met, which no honest device has, `NoMemory` where
    /// there was no memory, and then the volume is as it was.
    pub fn open(alloc: Global, accepted: Accepted<D>) -> Result<Files<D>, OpenFault<D>>
        ensures opens { IfOk result (λ files. Opens (D.disk (device_of accepted)) files) }
        ensures refused { IfErr result (λ fault.
            FailsToOpen D.disk (D.disk (device_of accepted)) fault) }
    {
        let mut device = accepted.device();
        match Structure::read(alloc, &mut device) {
            Ok(structure) => Ok(Files {
                device,
                structure,
                failed: false,
                seen: None,
            }),
            Err(StructureFault::DeviceFault) => Err(OpenFault::DeviceFault(device)),
            Err(StructureFault::Damaged) => Err(OpenFault::Damaged(device)),
            Err(StructureFault::NoMemory) => Err(OpenFault::NoMemory(Accepted::again(device))),
        }
    }

    /// Gives the volume up, accepted. No transfer is made.
    pub fn close(self) -> Accepted<D>
        requires { has_failed self ≡ false }
        ensures { device_of result ≡ device_in self }
    {
        let Files { device, .. } = self;
        Accepted::again(device)
    }
}
