//! A file is made.
ghost use Rattle.std.specs.Prelude.{◌≡◌, ◌↔◌, ◌<◌, ◌≤◌, false, IsTrue, IfErr, IsErrOf, OnErr, OnOk, length};
ghost use Rattle.f11_dev.specs.Looked.{Looked};
ghost use Rattle.f11_dev.specs.Went.{Went};
ghost use Rattle.rt11_volume.specs.Entry.{area_length};
ghost use Rattle.rt11_volume.specs.Files.{is_device_fault, faults_in, CreatesFile, FailsToCreate, KeepsFiles};
ghost use Rattle.rt11_volume.specs.InHand.{KeepsOthers};
ghost use Rattle.rt11_volume.specs.Searching.Looking.{found_entry, found_segment, CreatesHere, IsOnDevice};
ghost use Rattle.rt11_volume.specs.Verifying.Verdict.{IsSoundDisk};
ghost use Rattle.rt11_volume.specs.Operations.{needs_split};
ghost use Rattle.rt11_volume.specs.Segment.{extra_bytes, HasEnd};
ghost use Rattle.rt11_volume.specs.Rewriting.Split.{HasNext};

use crate::create::room::find_room;
use crate::create::split::{read_first, split_here};
use crate::lookup::entry::Found;
use crate::refusal::RtRefusal;
use crate::rewrite::assembly::header_of;
use crate::rewrite::edit::{NewFile, with_file};
use crate::segment::Segment;
use f11_dev::{Device, DeviceFault};

/// Whether a file in the front of an area needs one entry more than its segment has room for.
fn needs_split(found: &Found, blocks: u16) -> bool
    requires { found.now.i < length (found_segment found.now).entries }
    ensures { result ≡ needs_split (extra_bytes found.now.segment) (found_segment found.now)
        found.now.i blocks }
{
    let most = found.segment.entry_room().saturating_sub(1);
    blocks != found.entry().length && most <= found.segment.entry_count()
}

/// Writes a file in the front of an area, in whose segment there is room for it.
fn create_here<D: Device>(device: &mut D, found: &Found, file: NewFile) -> Result<(), DeviceFault>
    requires inside { found.now.i < length (found_segment found.now).entries }
    requires on_device { IsOnDevice found.now.number (length (D.disk device.old).image) }
    requires fits { file.blocks ≤ area_length (found_entry found.now) }
    requires ends { HasEnd (extra_bytes found.now.segment) found.now.segment }
    requires room { needs_split (extra_bytes found.now.segment) (found_segment found.now)
        found.now.i file.blocks ≡ false }
    ensures created { OnOk result (CreatesHere found.now file (D.disk device.old)
        (D.disk device.new)) }
    ensures failed { OnErr result (Went
        (KeepsOthers found.now.number (D.disk device.old).image)
        (D.disk device.old) (D.disk device.new) 2 1) }
{
    let segment = &found.segment;
    let range = 0..segment.entry_count();
    with_file(header_of(segment), segment, range, found.i, file).write(device, found.number)
}

/// Whether the directory has one more segment, where segment 1 is in hand, on a device of so many blocks, and there are entries for
/// both.
fn has_next(found: &Found, first: &Segment, blocks: u32) -> bool
    ensures { IsTrue result ↔ HasNext found.now first.now blocks }
{
    2 <= found.segment.entry_count()
        && first.highest() < first.count()
        && 5 + 2 * (u32::from(first.highest()) + 1) < blocks
}

/// Makes a file in the front of the first empty area that is as long. The blocks of its segment are written, in ascending order; where
/// that is split, those of the new segment, then those of segment 1, if that is another one, which is read again for that, and then
/// those of the segment itself.
pub(crate) fn create_file<D: Device>(device: &mut D, file: NewFile) -> Result<(), RtRefusal>
    ensures went { Went (KeepsFiles (D.disk device.old)) (D.disk device.old) (D.disk device.new)
        70 (faults_in result) }
    ensures created { OnOk result (IsSoundDisk (D.disk device.old)
        → CreatesFile file.name file.blocks file.date (D.disk device.old).image
        (D.disk device.new).image) }
    ensures refused { IfErr result (λ refusal.
        FailsToCreate refusal file.name file.blocks (D.disk device.old)) }
    ensures kept { is_device_fault result ≡ false → OnErr result
        (Looked (D.disk device.old) (D.disk device.new) 64 0) }
    ensures judged { ¬ IsErrOf result RtRefusal.Failed }
{
    let found = find_room(device, file.name, file.blocks)?;
    // On an accepted volume each segment has an end, and the area is long enough.
    if !found.segment.has_end() || found.entry().length < file.blocks {
        return Err(RtRefusal::NoSpace);
    }
    if !needs_split(&found, file.blocks) {
        create_here(device, &found, file)?;
        return Ok(());
    }
    let first = read_first(device, &found)?;
    if !has_next(&found, &first, device.blocks()) {
        return Err(RtRefusal::DirectoryFull);
    }
    split_here(device, &found, first, file)?;
    Ok(())
}
