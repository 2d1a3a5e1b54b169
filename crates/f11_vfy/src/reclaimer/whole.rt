//! Reclaiming a volume.
ghost use Rattle.std.specs.Prelude.{◌≡◌, ℕ, false, IsErrOf, IsTrue, OnOk, OnErr, IfOk, IfErr, length};
ghost use Rattle.f11_index.specs.IndexFile.{slots};
ghost use Rattle.f11_vfy.specs.Accepted.{device_of};
ghost use Rattle.f11_vfy.specs.Frames.Frame.{LieOn};
ghost use Rattle.f11_vfy.specs.Frames.Read.{frame_index, frame_bitmap};
ghost use Rattle.f11_vfy.specs.Reclaiming.Whole.{Reclaims, HasNotReclaimed, GoesOn, GivesBack, LacksRoom, IsFrameOf, IsReadAs, IsSoundWith, reclaim_reads};
ghost use Rattle.f11_vfy.specs.Scanning.Reading.{most_read};
ghost use Rattle.f11_vfy.specs.Surveying.Bits.{has, limit_of};
ghost use Rattle.f11_volume.specs.Verdict.{IsAccepted};

use crate::accepted::Accepted;
use crate::fault::ReadFault;
use crate::findings::kept::Kept;
use crate::findings::reading::Reading;
use crate::frame::framing::{Frame, Framing};
use crate::frame::read::read_frame;
use crate::reclaimer::idle::clear_idle;
use crate::reclaimer::orphans::kill_orphans;
use crate::reclaimer::space::free_unnamed;
use crate::survey::bits::Bits;
use crate::verifier::VfyError;
use f11_dev::{Device, DeviceFault};
use std::alloc::Global;

/// Reclaims what lies idle on an accepted volume (profile): headers that are dead or of no file, and blocks that no header names. The files stay, those
/// that are marked for delete too, and so do their headers and blocks.
///
/// It reads the volume as `verify` does, but for the directories, and nothing after that. Then it writes, each time a volume that is accepted: each
/// orphan header, in the order of their numbers, is killed, by a write; then the index bit of each killed or dead header is cleared, by a write each,
/// that of slot 5 too; and then each block of the storage bitmap that is to change is written, once. So a block is free then exactly where no header
/// names it, and a slot is in use exactly where its header is one of a file.
///
/// It takes four bits for each block of the volume, some 30 bytes a slot, and 512 bytes for each extension header, as orphans are, or up to
/// three times that while their list grows: 32 MiB on the largest volume with extension headers alone. All is asked for before the first write.
///
/// # Errors
///
/// `DeviceFault` where a transfer failed, and `NoMemory` where there was no memory, before anything was written. The device comes back.
pub fn reclaim<D: Device>(alloc: Global, volume: Accepted<D>) -> Result<Accepted<D>, VfyError<D>>
    ensures reclaimed { IfOk result (λ after.
        Reclaims (D.disk (device_of volume)) (D.disk (device_of after))) }
    ensures failed { IfErr result (λ error. HasNotReclaimed D.disk (D.disk (device_of volume)) error) }
{
    let mut device = volume.device();
    match reclaim_image(alloc, &mut device) {
        Ok(()) => Ok(Accepted::again(device)),
        Err(ReadFault::DeviceFault) => Err(VfyError::DeviceFault(device)),
        Err(ReadFault::NoMemory) => Err(VfyError::NoMemory(device)),
    }
}

/// Reclaims what lies idle on an image that is accepted where the device is honest.
fn reclaim_image<D: Device>(alloc: Global, device: &mut D) -> Result<(), ReadFault>
    requires accepted { IsTrue (D.disk device.old).honest → IsAccepted (D.disk device.old).image }
    ensures reclaimed { OnOk result (Reclaims (D.disk device.old) (D.disk device.new)) }
    ensures failed { IsErrOf result ReadFault.DeviceFault → GoesOn IsSoundWith
        (reclaim_reads (D.disk device.old)) (D.disk device.old) (D.disk device.new) 1 }
    ensures no_memory { IsErrOf result ReadFault.NoMemory → LacksRoom IsSoundWith
        (reclaim_reads (D.disk device.old)) (D.disk device.old) (D.disk device.new) }
{
    match read_frame(alloc, device)? {
        Framing::Framed(frame) => {
            reclaim_volume(alloc, device, frame)?;
            Ok(())
        }
        Framing::Faulty { .. } => Ok(()),
    }
}

/// Reclaims what lies idle on a volume whose frame was read.
fn reclaim_volume<D: Device>(alloc: Global, device: &mut D, frame: Frame) -> Result<(), ReadFault>
    requires lie { LieOn (frame_index frame) (frame_bitmap frame)
        (length (D.disk device.old).image) }
    ensures reclaimed { OnOk result (GivesBack (IsFrameOf (frame_index frame) (frame_bitmap frame))
        (λ home. most_read (frame_index frame) (frame_bitmap frame))
        (D.disk device.old) (D.disk device.new)) }
    ensures failed { IsErrOf result ReadFault.DeviceFault
        → GoesOn (IsFrameOf (frame_index frame) (frame_bitmap frame))
        (λ home. most_read (frame_index frame) (frame_bitmap frame))
        (D.disk device.old) (D.disk device.new) 1 }
    ensures no_memory { IsErrOf result ReadFault.NoMemory
        → LacksRoom (IsFrameOf (frame_index frame) (frame_bitmap frame))
        (λ home. most_read (frame_index frame) (frame_bitmap frame))
        (D.disk device.old) (D.disk device.new) }
{
    let mut kept = Kept::all(alloc);
    let index = &frame.index;
    let reading = Reading::read(alloc, device, index, frame.places(), frame.size, &mut kept)?;
    let unreferenced = Bits::new(alloc, frame.size)?;
    give_back(device, frame, &reading, &kept, unreferenced)?;
    Ok(())
}

/// Gives back what lies idle on a volume that was read, with what was kept of its blocks, and a set for the blocks of its orphans.
///
/// # Errors
///
/// `DeviceFault` where a transfer failed.
fn give_back<D: Device>(
    device: &mut D,
    frame: Frame,
    reading: &Reading,
    kept: &Kept,
    unreferenced: Bits,
) -> Result<(), DeviceFault>
    requires lie { LieOn (frame_index frame) (frame_bitmap frame)
        (length (D.disk device.old).image) }
    requires alike { (length reading.now.survey.slots.items ≡ slots (frame_index frame))
        × (limit_of reading.now.free ≡ frame.size) }
    requires unreferenced { (limit_of unreferenced ≡ frame.size) × ((k : ℕ) → has unreferenced k ≡ false) }
    ensures reclaimed { OnOk result (GivesBack
        (IsReadAs (frame_index frame) (frame_bitmap frame) reading.now kept.now) (λ home. 0)
        (D.disk device.old) (D.disk device.new)) }
    ensures failed { OnErr result (GoesOn
        (IsReadAs (frame_index frame) (frame_bitmap frame) reading.now kept.now) (λ home. 0)
        (D.disk device.old) (D.disk device.new) 1) }
{
    let mut frame = frame;
    let mut unreferenced = unreferenced;
    let (extensions, last, size) = (&kept.extensions, &kept.last, frame.size);
    kill_orphans(device, &frame.index, reading, extensions, &mut unreferenced)?;
    clear_idle(device, &mut frame.index, reading)?;
    free_unnamed(device, frame.places(), size, reading, &unreferenced, last)?;
    Ok(())
}
