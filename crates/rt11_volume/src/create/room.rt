//! Room for a new file.
ghost use Rattle.std.specs.Prelude.{◌≡◌, IfErr, IfOk, IsErrOf};
ghost use Rattle.f11_dev.specs.Looked.{Looked};
ghost use Rattle.rt11_volume.specs.Files.{faults_in, FailsToCreate};
ghost use Rattle.rt11_volume.specs.Searching.Looking.{is_wanted, IsKept, FindsRoom, Surveys};

use crate::directory::MOST_SEGMENTS;
use crate::lookup::entry::{Found, Wanted, first_in, visit};
use crate::refusal::RtRefusal;
use crate::segment::Segment;
use f11_dev::Device;

/// The area that was found already, or else the first one of a segment.
fn keep_first(area: Option<Found>, number: u16, segment: Segment, wanted: &Wanted) -> Option<Found>
    ensures { IsKept (is_wanted wanted.now) area number segment result }
{
    if area.is_some() {
        return area;
    }
    let i = first_in(&segment, wanted)?;
    Some(Found { number, i, segment })
}

/// Looks for the first empty area of at least so many blocks, and whether there is a file of the name, by at most 62 reads.
fn survey<D: Device>(
    device: &mut D,
    name: [u16; 3],
    blocks: u16,
) -> Result<Option<Found>, RtRefusal>
    ensures looked { Looked (D.disk device.old) (D.disk device.new) 62 (faults_in result) }
    ensures surveys { IfOk result (λ area. Surveys name blocks area (D.disk device.old)) }
    ensures refused { IfErr result (λ refusal.
        FailsToCreate refusal name blocks (D.disk device.old)) }
    ensures judged { ¬ IsErrOf result RtRefusal.Failed }
{
    let file = Wanted::File(name);
    let wanted = Wanted::Area(blocks);
    let mut area = None;
    let mut number = 1;
    for _ in 0..MOST_SEGMENTS {
        let Some(segment) = visit(device, number)? else {
            return Ok(area);
        };
        if first_in(&segment, &file).is_some() {
            return Err(RtRefusal::DuplicateName);
        }
        let next = segment.next();
        area = keep_first(area, number, segment, &wanted);
        number = next;
    }
    Ok(area)
}

/// The first empty area of at least so many blocks, where there is no file of the name.
pub(crate) fn find_room<D: Device>(
    device: &mut D,
    name: [u16; 3],
    blocks: u16,
) -> Result<Found, RtRefusal>
    ensures looked { Looked (D.disk device.old) (D.disk device.new) 62 (faults_in result) }
    ensures found { IfOk result (λ area. FindsRoom name blocks area (D.disk device.old)) }
    ensures refused { IfErr result (λ refusal.
        FailsToCreate refusal name blocks (D.disk device.old)) }
    ensures judged { ¬ IsErrOf result RtRefusal.Failed }
{
    survey(device, name, blocks)?.ok_or(RtRefusal::NoSpace)
}
