//! The first entry of the directory that is wanted.
ghost use Rattle.std.specs.Prelude.{◌≡◌, ◌<◌, IfOk, OnErr, length, slice_index_or, []};
ghost use Rattle.f11_dev.specs.Looked.{Looked};
ghost use Rattle.rt11_volume.specs.Segment.{entries, extra_bytes};
ghost use Rattle.rt11_volume.specs.Searching.Looking.{is_wanted, Visits, IsPlaceIn, Searches};

use crate::directory::MOST_SEGMENTS;
use crate::segment::Segment;
use f11_dev::{Device, DeviceFault};

/// What is looked for.
#[derive(Clone, Copy)]
pub(crate) enum Wanted {
    /// The entry of a file of this name.
    File([u16; 3]),
    /// That of an empty area of at least so many blocks.
    Area(u16),
}

/// An entry that was found.
#[derive(Drop)]
pub(crate) struct Found {
    /// The number of its segment, from 1.
    pub(crate) number: u16,
    /// Which entry of it, from 0.
    pub(crate) i: usize,
    /// The segment, in hand.
    pub(crate) segment: Segment,
}

impl Wanted {
    /// Whether entry `i` of a segment is wanted.
    fn is_met(&self, segment: &Segment, i: usize) -> bool
        requires { i < length (entries (extra_bytes segment.now) segment.now) }
        ensures { result ≡ is_wanted self.now
            (slice_index_or (entries (extra_bytes segment.now) segment.now) i []) }
    {
        let entry = segment.entry(i);
        match self {
            Wanted::File(name) => entry.is_file_named(*name),
            Wanted::Area(blocks) => entry.is_empty() && *blocks <= entry.length,
        }
    }
}

/// The first entry of a segment that is wanted.
pub(crate) fn first_in(segment: &Segment, wanted: &Wanted) -> Option<usize>
    ensures { IsPlaceIn (is_wanted wanted.now)
        (entries (extra_bytes segment.now) segment.now) result }
{
    for i in 0..segment.entry_count() {
        if wanted.is_met(segment, i) {
            return Some(i);
        }
    }
    None
}

/// Reads the segment of this number, where the device has one.
pub(crate) fn visit<D: Device>(device: &mut D, number: u16) -> Result<Option<Segment>, DeviceFault>
    ensures visits { IfOk result (λ segment.
        Visits number segment (D.disk device.old) (D.disk device.new)) }
    ensures failed { OnErr result (Looked (D.disk device.old) (D.disk device.new) 2 1) }
{
    if number == 0 || device.blocks() <= 5 + 2 * u32::from(number) {
        return Ok(None);
    }
    Ok(Some(Segment::read(device, number)?))
}

/// Looks for the first entry, in link order, that is wanted, by at most 62 reads.
///
/// # Errors
///
/// `DeviceFault` where a transfer failed.
pub(crate) fn find_first<D: Device>(
    device: &mut D,
    wanted: &Wanted,
) -> Result<Option<Found>, DeviceFault>
    ensures searches { IfOk result (λ found.
        Searches wanted.now found (D.disk device.old) (D.disk device.new)) }
    ensures failed { OnErr result (Looked (D.disk device.old) (D.disk device.new) 62 1) }
{
    let mut number = 1;
    for _ in 0..MOST_SEGMENTS {
        let Some(segment) = visit(device, number)? else {
            return Ok(None);
        };
        if let Some(i) = first_in(&segment, wanted) {
            return Ok(Some(Found { number, i, segment }));
        }
        number = segment.next();
    }
    Ok(None)
}
