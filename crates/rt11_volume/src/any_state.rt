//! How a volume is that is served whether it has faults or not.
ghost use Rattle.std.specs.Prelude.{◌≡◌, find};
ghost use Rattle.rt11_volume.specs.Surveying.{cut_in, state_by, tells_of, with_one_fault};

use crate::any_entries::RtEntry;
use f11_findings::{Finding, Findings};

/// How a volume is (profile).
#[derive(Clone, Copy, PartialEq, Eq, Debug)]
pub enum RtState {
    /// It has no fault.
    Sound,
    /// Its image ends within an empty area, by which nothing is lost, and has no other fault: it should have so many blocks.
    Short(u32),
    /// It has faults.
    Faulty,
}

/// What its faults say of a volume with these entries.
pub(crate) fn state_by(faults: &Findings, entries: &[RtEntry]) -> RtState
    ensures { result ≡ state_by faults.now entries.now }
{
    if faults.is_empty() {
        RtState::Sound
    } else if faults.len() == 1 {
        with_one_fault(faults.get(0), entries)
    } else {
        RtState::Faulty
    }
}

/// What a lone fault says.
fn with_one_fault(fault: Option<Finding>, entries: &[RtEntry]) -> RtState
    ensures { result ≡ with_one_fault fault entries.now }
{
    match fault {
        Some(fault) => {
            if fault.code == 7 {
                cut_in(entry_told(&fault, entries))
            } else {
                RtState::Faulty
            }
        }
        None => RtState::Faulty,
    }
}

/// The entry that a fault tells of.
fn entry_told(fault: &Finding, entries: &[RtEntry]) -> Option<RtEntry>
    ensures { result ≡ find (tells_of fault.now) entries.now }
{
    entries.iter().copied().find(|entry| tells_of(fault, entry))
}

/// Whether a fault tells of this entry.
fn tells_of(fault: &Finding, entry: &RtEntry) -> bool
    ensures { result ≡ tells_of fault.now entry.now }
{
    u32::from(entry.segment) == fault.a && u64::from(entry.number) == u64::from(fault.b) + 1
}

/// What it says that a volume ends within an entry's area.
fn cut_in(entry: Option<RtEntry>) -> RtState
    ensures { result ≡ cut_in entry }
{
    match entry {
        Some(entry) => {
            if entry.is_empty_area() && entry.fits() {
                RtState::Short(entry.first + u32::from(entry.blocks))
            } else {
                RtState::Faulty
            }
        }
        None => RtState::Faulty,
    }
}
