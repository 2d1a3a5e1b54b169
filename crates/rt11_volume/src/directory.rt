//! The segments of the directory, in link order.
ghost use Rattle.std.specs.Prelude.{◌≡◌, ◌+◌, ◌*◌, ◌<◌, ◌≤◌, ◌==◌, [], ◌∷◌, ◌++◌, length, map, OnOk, IfOk, IfErr};
ghost use Rattle.std.specs.List.{list_any};
ghost use Rattle.f11_dev.specs.Looked.{Looked};
ghost use Rattle.rt11_volume.specs.Directory.{are_extra_wrong, is_link_on};
ghost use Rattle.rt11_volume.specs.Segment.{segment_words, segment_count, extra_bytes};
ghost use Rattle.rt11_volume.specs.InHand.{visit_at, link_from, VisitsAll, FailsToVisit};

use crate::segment::Segment;
use f11_bytes::NoMemory;
use f11_dev::{Device, DeviceFault};
use std::alloc::Global;

/// The most segments that a directory has.
pub(crate) const MOST_SEGMENTS: u16 = 31;

/// Why a directory could not be read.
#[derive(Clone, Copy, Debug, PartialEq, Eq)]
pub enum LookFault {
    /// A transfer failed.
    DeviceFault,
    /// There was no memory.
    NoMemory,
}

impl From<DeviceFault> for LookFault {
    ghost use Rattle.rt11_volume.specs.declared.directory.LookFault.TheVariants.{DeviceFault as Fault};

    ghost from_gives = { λ _ fault. fault ≡ Fault };

    fn from(_: DeviceFault) -> Self {
        LookFault::DeviceFault
    }
}

impl From<NoMemory> for LookFault {
    ghost use Rattle.rt11_volume.specs.declared.directory.LookFault.TheVariants.{NoMemory as Lack};

    ghost from_gives = { λ _ fault. fault ≡ Lack };

    fn from(_: NoMemory) -> Self {
        LookFault::NoMemory
    }
}

/// A segment that was visited.
#[derive(Drop)]
pub(crate) struct Visited {
    /// Its number, from 1.
    pub(crate) number: u16,
    /// It, in hand.
    pub(crate) segment: Segment,
}

/// Whether the extra bytes that a segment tells are wrong, where segment 1 tells the first.
pub(crate) fn are_extra_wrong(first: u16, extra: u16) -> bool
    ensures { result ≡ are_extra_wrong first extra }
{
    extra % 2 == 1 || extra > 128 || extra != first
}

/// The segment visited at place `j`.
pub(crate) fn visit_at(visited: &[Visited], j: usize) -> &Visited
    requires { j < length visited.now }
    ensures { result.now ≡ visit_at visited.now j }
{
    &visited[j]
}

/// Whether a segment of this number was visited.
pub(crate) fn has_number(visited: &[Visited], number: u16) -> bool
    ensures { result ≡ list_any (λ v. v.number == number) visited.now }
{
    visited.iter().any(|v| v.number == number)
}

/// Whether a link leads on: to a segment that there is, of so many, and that wasn't visited.
fn is_link_on(visited: &[Visited], count: u16, next: u16) -> bool
    ensures { result ≡ is_link_on count (map (λ v. v.number) visited.now) next }
{
    next != 0 && (next <= count && !has_number(visited, next))
}

/// The segment that the walk goes on to behind the last one visited.
#[tactic(auto, unfolding(crate::specs::InHand::link_from))]
fn link_on(visited: &[Visited]) -> Option<u16>
    requires { 0 < length visited.now }
    ensures { result ≡ link_from visited.now }
{
    let first = &visited[0].segment;
    let last = &visited[visited.len() - 1].segment;
    let next = last.next();
    if are_extra_wrong(first.extra(), last.extra()) {
        return None;
    }
    is_link_on(visited, first.count(), next).then_some(next)
}

/// Puts one more behind those visited.
fn push(visited: &mut Vec<Visited>, number: u16, segment: Segment) -> Result<(), NoMemory>
    ensures { OnOk result (visited.new.items ≡
        visited.old.items ++ record { number = number; segment = segment } ∷ []) }
{
    Ok(visited.push(Visited { number, segment })?)
}

/// Reads the segments in link order behind the first, which is in hand, each block once.
///
/// # Errors
///
/// `DeviceFault` where a transfer failed, and `NoMemory` where there was no memory.
pub(crate) fn visit_all<D: Device>(
    alloc: Global,
    device: &mut D,
    first: Segment,
) -> Result<Vec<Visited>, LookFault>
    requires within { 6 + 2 * segment_count first ≤ length (D.disk device.old).image }
    ensures visits { IfOk result (λ visited.
        VisitsAll first visited.items (D.disk device.old) (D.disk device.new)) }
    ensures failed { IfErr result (λ fault.
        FailsToVisit fault (D.disk device.old) (D.disk device.new)) }
{
    let mut visited = Vec::new(alloc);
    push(&mut visited, 1, first)?;
    for _ in 1..MOST_SEGMENTS {
        let Some(next) = link_on(&visited) else {
            return Ok(visited);
        };
        let segment = Segment::read(device, next)?;
        push(&mut visited, next, segment)?;
    }
    Ok(visited)
}
