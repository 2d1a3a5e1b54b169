//! The verifier: all faults and all notes of an image.
ghost use Rattle.std.specs.Prelude.{◌≡◌, ◌↔◌, ◌∷◌, [], length, IfOk, IfErr, IsErrOf, IsTrue};
ghost use Rattle.f11_findings.specs.Finding.{finding, AddsFindings};
ghost use Rattle.f11_vfy.specs.Frames.Read.{frame_index, frame_bitmap};
ghost use Rattle.f11_vfy.specs.Frames.Frame.{LieOn};
ghost use Rattle.f11_vfy.specs.Verify.{AreWanted, Judges, JudgesVolume, LooksOver, LooksOverVolume, IsJudged, IsReport, HasNoReport, TellsVerdict};

use crate::accepted::Accepted;
use crate::fault::ReadFault;
use crate::findings::kept::Kept;
use crate::findings::reading::Reading;
use crate::frame::framing::{Frame, Framing};
use crate::frame::read::read_frame;
use f11_bytes::NoMemory;
use f11_dev::Device;
use f11_findings::{Finding, Findings};
use std::alloc::Global;

/// The faults of an image, in the order of their codes and numbers.
pub type Faults = Findings;

/// The notes of an image, in the order of their codes and numbers.
pub type Notes = Findings;

/// What the verifier finds. The device comes back.
#[derive(Drop)]
pub enum Report<D: Device> {
    /// The image has no fault, and these notes.
    Accepted(Accepted<D>, Notes),
    /// It has these faults, and these notes.
    Faulty(D, Faults, Notes),
}

/// What is judged of an image. The device comes back.
#[derive(Drop)]
pub enum Verdict<D: Device> {
    /// The image has no fault.
    Accepted(Accepted<D>),
    /// It has these faults, and these notes.
    Faulty(D, Faults, Notes),
}

/// Of which images the notes are wanted.
#[derive(Clone, Copy, Debug, PartialEq, Eq)]
enum NotesOf {
    /// Of each.
    Any,
    /// Of those that have a fault.
    Faulty,
    /// Of none.
    None,
}

/// Why an image could not be verified. The device comes back.
#[derive(Drop)]
pub enum VfyError<D: Device> {
    /// A transfer failed.
    DeviceFault(D),
    /// There was no memory, or more is found than a list of findings keeps ([`f11_findings::MOST_FINDINGS`]).
    NoMemory(D),
}

/// Verifies the image of a device: all its faults and notes (profile), each list in the order of codes and numbers. Where its home
/// block, its index file, the first files, the storage bitmap file, the control block or the bits past the slots aren't as they should
/// be, that is the only fault and there are no notes.
///
/// It writes nothing. For the frame it reads each candidate for the home block up to the one found, the index bitmap, the headers of file
/// 1, those of file 3 where a candidate lies before the home block, headers 2, 3 and 4, those of file 2, and the control block; then each
/// block of the storage bitmap that has a bit of a block of the volume, and each header in use, once; then for each directory each of its
/// headers once, 256 at most and none behind its end, and each of its blocks once that has a place before the end. Of those a block that
/// was read for an earlier directory, or earlier for the same, and holds no record isn't read again. A block past the device's end counts
/// as zeros, and neither is read nor takes a step. The bound that is proved, where the device is honest, has 788 reads for the frame
/// besides the candidates, and 256 headers for each directory.
///
/// So the time is at most that of these reads, of a few steps for each pointer of a header that was read, or one for each of its 256
/// blocks where one of them is read, of a step for each header of a file that is marked contiguous, and of a step for each record: n log n
/// steps for n records of a directory. A header to which several directories lead, which is a fault, is read for each of them, with those
/// of its blocks that hold a record: at most 256 headers a directory.
///
/// It takes three bits for each block of the volume, one for each block of the volume or of the device, whichever has more, and where a
/// retrieval pointer names a block outside, two bits for each that a pointer can name (4 MiB in all); some 34 bytes a slot, 12 bytes for
/// each fault and each note, and for one directory at a time the names of its records, 10 bytes each and what a tree of them takes.
///
/// # Errors
///
/// `DeviceFault` where a transfer failed, and `NoMemory` where there was no memory, or where a list of findings is full.
pub fn verify<D: Device>(alloc: Global, device: D) -> Result<Report<D>, VfyError<D>>
    ensures report { IfOk result (λ report. IsReport D.disk (D.disk device) report) }
    ensures failed { IfErr result (λ error. HasNoReport D.disk (D.disk device) error) }
{
    let mut device = device;
    match examine(alloc, &mut device, NotesOf::Any) {
        Ok((faults, notes)) => {
            if faults.is_empty() {
                Ok(Report::Accepted(Accepted::again(device), notes))
            } else {
                Ok(Report::Faulty(device, faults, notes))
            }
        }
        Err(ReadFault::DeviceFault) => Err(VfyError::DeviceFault(device)),
        Err(ReadFault::NoMemory) => Err(VfyError::NoMemory(device)),
    }
}

/// Judges the image of a device, as [`verify`] does, but for the notes of one without a fault: these aren't made, and its directories not
/// read. It writes nothing, and takes the same memory at most.
///
/// # Errors
///
/// `DeviceFault` where a transfer failed, and `NoMemory` where there was no memory, or where a list of findings is full.
pub fn judge<D: Device>(alloc: Global, device: D) -> Result<Verdict<D>, VfyError<D>>
    ensures judged { IfOk result (λ verdict. IsJudged D.disk (D.disk device) verdict) }
    ensures failed { IfErr result (λ error. HasNoReport D.disk (D.disk device) error) }
{
    let mut device = device;
    match examine(alloc, &mut device, NotesOf::Faulty) {
        Ok((faults, notes)) => {
            if faults.is_empty() {
                Ok(Verdict::Accepted(Accepted::again(device)))
            } else {
                Ok(Verdict::Faulty(device, faults, notes))
            }
        }
        Err(ReadFault::DeviceFault) => Err(VfyError::DeviceFault(device)),
        Err(ReadFault::NoMemory) => Err(VfyError::NoMemory(device)),
    }
}

/// Whether the image of a device has a fault, found out as [`verify`] does, but without notes, so that its directories aren't read. The
/// device comes back. It writes nothing, and takes the same memory at most.
///
/// # Errors
///
/// `DeviceFault` where a transfer failed, and `NoMemory` where there was no memory, or where a list of findings is full.
pub fn is_faulty<D: Device>(alloc: Global, device: D) -> Result<(D, bool), VfyError<D>>
    ensures told { IfOk result (λ told. TellsVerdict told.1 (D.disk device) (D.disk told.0)) }
    ensures failed { IfErr result (λ error. HasNoReport D.disk (D.disk device) error) }
{
    let mut device = device;
    match examine(alloc, &mut device, NotesOf::None) {
        Ok((faults, _)) => Ok((device, !faults.is_empty())),
        Err(ReadFault::DeviceFault) => Err(VfyError::DeviceFault(device)),
        Err(ReadFault::NoMemory) => Err(VfyError::NoMemory(device)),
    }
}

/// The faults of an image, and its notes where they are wanted.
fn examine<D: Device>(
    alloc: Global,
    device: &mut D,
    of: NotesOf,
) -> Result<(Faults, Notes), ReadFault>
    ensures judges { IfOk result (λ found.
        Judges of found.0 found.1 (D.disk device.old) (D.disk device.new)) }
    ensures failed { IsErrOf result ReadFault.DeviceFault
        → LooksOver (D.disk device.old) (D.disk device.new) 1 }
    ensures no_memory { IsErrOf result ReadFault.NoMemory
        → LooksOver (D.disk device.old) (D.disk device.new) 0 }
{
    match read_frame(alloc, device)? {
        Framing::Framed(frame) => examine_volume(alloc, device, &frame, of),
        Framing::Faulty { code, a } => Ok((one_fault(alloc, code, a)?, Findings::new(alloc))),
    }
}

/// The faults of a volume whose frame is as it should be, and its notes where they are wanted.
fn examine_volume<D: Device>(
    alloc: Global,
    device: &mut D,
    frame: &Frame,
    of: NotesOf,
) -> Result<(Faults, Notes), ReadFault>
    requires { LieOn (frame_index frame.now) (frame_bitmap frame.now)
        (length (D.disk device.old).image) }
    ensures judges { IfOk result (λ found.
        JudgesVolume of (frame_index frame.now) (frame_bitmap frame.now) found.0 found.1
        (D.disk device.old) (D.disk device.new)) }
    ensures failed { IsErrOf result ReadFault.DeviceFault
        → LooksOverVolume (frame_index frame.now) (frame_bitmap frame.now)
        (D.disk device.old) (D.disk device.new) 1 }
    ensures no_memory { IsErrOf result ReadFault.NoMemory
        → LooksOverVolume (frame_index frame.now) (frame_bitmap frame.now)
        (D.disk device.old) (D.disk device.new) 0 }
{
    let index = &frame.index;
    let mut kept = Kept::none(alloc);
    let reading = Reading::read(alloc, device, index, frame.places(), frame.size, &mut kept)?;
    let faults = reading.faults(alloc)?;
    if !are_wanted(of, &faults) {
        return Ok((faults, Findings::new(alloc)));
    }
    let notes = reading.all_notes(alloc, device, index)?;
    Ok((faults, notes))
}

/// Whether the notes of an image with these faults are wanted.
fn are_wanted(of: NotesOf, faults: &Faults) -> bool
    ensures { IsTrue result ↔ AreWanted of faults.now }
{
    match of {
        NotesOf::Any => true,
        NotesOf::Faulty => !faults.is_empty(),
        NotesOf::None => false,
    }
}

/// A list of one fault.
fn one_fault(alloc: Global, code: u8, a: u32) -> Result<Faults, NoMemory>
    ensures { IfOk result (λ faults. AddsFindings [] faults (finding code a 0 ∷ [])) }
{
    let mut faults = Findings::new(alloc);
    faults.add(Finding { code, a, b: 0 })?;
    Ok(faults)
}
