//! How a file comes to a lower block.
ghost use Rattle.std.specs.Prelude.{◌≡◌};
ghost use Rattle.std.specs.List.{list_any};
ghost use Rattle.rt11_squeeze.specs.Rooms.{is_gap, is_gap_at, is_gap_before, room_in};
ghost use Rattle.rt11_squeeze.specs.Squeezing.{way_by};

use rt11_volume::{RtArea, RtKind};

/// How a file comes to a lower block.
#[derive(Clone, Copy, Debug, PartialEq, Eq)]
pub(crate) enum Way {
    /// No empty area lies before it.
    Stay,
    /// By one move: the first empty area that is as long lies before it.
    Once,
    /// By two: an empty area lies right before it, with which its own is joined when it has been moved behind.
    Twice,
    /// By none.
    Barred,
}

/// Whether an area is an empty one.
fn is_gap(kind: RtKind) -> bool
    ensures { result ≡ is_gap kind }
{
    matches!(kind, RtKind::Empty)
}

/// Where the first empty area of at least so many blocks begins.
fn first_room(areas: &[RtArea], blocks: u16) -> Option<u16>
    ensures { result ≡ room_in areas.now blocks }
{
    areas
        .iter()
        .find(|a| is_gap(a.kind) && blocks <= a.length)
        .map(|a| a.start)
}

/// Whether an empty area lies before a block.
fn has_gap_before(areas: &[RtArea], start: u16) -> bool
    ensures { result ≡ list_any (is_gap_before start) areas.now }
{
    areas
        .iter()
        .any(|a| is_gap(a.kind) && 0 < a.length && a.start < start)
}

/// Whether one lies right before it.
fn has_gap_at(areas: &[RtArea], start: u16) -> bool
    ensures { result ≡ list_any (is_gap_at start) areas.now }
{
    areas.iter().any(|a| {
        is_gap(a.kind)
            && 0 < a.length
            && u32::from(a.start) + u32::from(a.length) == u32::from(start)
    })
}

/// How a file of so many blocks that begins at a block comes to a lower one.
pub(crate) fn way_of(areas: &[RtArea], start: u16, blocks: u16) -> Way
    ensures { result ≡ way_by areas.now start blocks }
{
    if !has_gap_before(areas, start) {
        return Way::Stay;
    }
    match first_room(areas, blocks) {
        Some(room) => {
            if room < start {
                Way::Once
            } else if has_gap_at(areas, start) {
                Way::Twice
            } else {
                Way::Barred
            }
        }
        None => Way::Barred,
    }
}
