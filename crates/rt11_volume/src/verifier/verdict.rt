//! The verifier: what is wrong with an RT-11 volume, and what is worth a note.
ghost use Rattle.std.specs.Prelude.{◌≡◌, ◌↔◌, ◌≤◌, ◌<◌, [], ◌∷◌, IsTrue, IfOk, IfErr};
ghost use Rattle.f11_findings.specs.Finding.{AddsFindings, finding};
ghost use Rattle.rt11_volume.specs.Calls.{FindsAll, FailsToLook, Reports, FailsToReport};
ghost use Rattle.rt11_volume.specs.Directory.{HasSize};
ghost use Rattle.rt11_volume.specs.Segment.{segment_count};

use crate::directory::{LookFault, MOST_SEGMENTS, visit_all};
use crate::segment::Segment;
use crate::verifier::faults::{find_faults, finding};
use crate::verifier::notes::find_notes;
use crate::volume::RtAccepted;
use f11_bytes::NoMemory;
use f11_dev::Device;
use f11_findings::Findings;
use std::alloc::Global;

/// The faults of a volume, in order: the 1 of `R1` with its segment and entry, 0 where it has none.
pub type Faults = Findings;

/// The notes of a volume, in order: the 1 of `Q1` with its segment and entry, 0 where it has none.
pub type Notes = Findings;

/// What [`verify`] finds.
#[derive(Drop)]
pub enum RtReport<D: Device> {
    /// No fault: the volume, and what is worth a note.
    Accepted(RtAccepted<D>, Notes),
    /// The device, its faults, and what is worth a note.
    Faulty(D, Faults, Notes),
}

/// Why there is no report. The device is handed back.
#[derive(Drop)]
pub enum RtVfyError<D> {
    /// A transfer failed.
    DeviceFault(D),
    /// There was no memory.
    NoMemory(D),
}

/// Whether the directory has the size that it should have, by segment 1, on a device of so many blocks.
pub(crate) fn is_sized(first: &Segment, blocks: u32) -> bool
    ensures { IsTrue result ↔ HasSize (segment_count first.now) blocks }
{
    let count = first.count();
    0 < count && count <= MOST_SEGMENTS && 6 + 2 * u32::from(count) <= blocks
}

/// The fault that the directory's size is wrong, alone.
pub(crate) fn wrong_size(alloc: Global) -> Result<(Faults, Notes), NoMemory>
    ensures { IfOk result (λ lists.
        AddsFindings [] lists.0 (finding 1 0 0 ∷ []) × (lists.1 ≡ [])) }
{
    let mut faults = Findings::new(alloc);
    faults.add(finding(1, 0, 0))?;
    Ok((faults, Findings::new(alloc)))
}

/// All faults and notes of the volume on a device, from at most 62 reads.
fn look<D: Device>(alloc: Global, device: &mut D) -> Result<(Faults, Notes), LookFault>
    ensures found { IfOk result (λ lists.
        FindsAll lists.0 lists.1 (D.disk device.old) (D.disk device.new)) }
    ensures failed { IfErr result (λ fault.
        FailsToLook fault (D.disk device.old) (D.disk device.new)) }
{
    let blocks = device.blocks();
    if blocks < 8 {
        return Ok(wrong_size(alloc)?);
    }
    let first = Segment::read(device, 1)?;
    if !is_sized(&first, blocks) {
        return Ok(wrong_size(alloc)?);
    }
    let visited = visit_all(alloc, device, first)?;
    let faults = find_faults(alloc, &visited, blocks)?;
    let notes = find_notes(alloc, &visited)?;
    Ok((faults, notes))
}

/// Looks for all faults and notes of an RT-11 volume (profile: which they are). It writes nothing, reads each block of the
/// directory once at most, of at most 31 segments, and takes memory for these, for the names of their files and for the
/// lists.
///
/// # Errors
///
/// `DeviceFault` where a transfer failed, and `NoMemory` where there was no memory; both hand the device back.
pub fn verify<D: Device>(alloc: Global, mut device: D) -> Result<RtReport<D>, RtVfyError<D>>
    ensures reports { IfOk result (λ report. Reports D.disk report (D.disk device)) }
    ensures failed { IfErr result (λ error. FailsToReport D.disk error (D.disk device)) }
{
    match look(alloc, &mut device) {
        Ok((faults, notes)) => {
            if faults.is_empty() {
                let volume = RtAccepted {
                    device,
                    failed: false,
                    last: None,
                };
                Ok(RtReport::Accepted(volume, notes))
            } else {
                Ok(RtReport::Faulty(device, faults, notes))
            }
        }
        Err(LookFault::DeviceFault) => Err(RtVfyError::DeviceFault(device)),
        Err(LookFault::NoMemory) => Err(RtVfyError::NoMemory(device)),
    }
}
