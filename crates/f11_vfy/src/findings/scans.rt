//! One scan over slots or blocks for each code, in ascending order, by what is kept of them.
ghost use Rattle.std.specs.Prelude.{◌≡◌, ◌≤◌, ◌<◌, ◌+◌, ◌*◌, ◌↔◌, ◌&&◌, ℕ, true, not, min, length, slice_index, IsTrue, IfOk, OnOk, Contains};
ghost use Rattle.std.specs.Int.{bit_at};
ghost use Rattle.f11_findings.specs.Finding.{finding};
ghost use Rattle.f11_vfy.specs.Surveying.Bits.{has, limit_of};
ghost use Rattle.f11_vfy.specs.Chain.{IsSized};
ghost use Rattle.f11_findings.specs.Found.{Finds, FoundAmong};
ghost use Rattle.f11_vfy.specs.Scanning.Scans.{code_of, Holds, FindsLost, IsLinkedSlot, is_lost, ends_lost, start_of};
ghost use Rattle.f11_vfy.specs.Surveying.Slot.{kept_slot};

use crate::chains::Chains;
use crate::survey::bits::Bits;
use crate::survey::slot::{Slot, State};
use f11_bytes::NoMemory;
use f11_findings::{Finding, Findings};

/// The code of lost blocks.
const LOST: u8 = 1;

/// What may be found of a header.
#[derive(Clone, Copy, Debug, PartialEq, Eq)]
pub(crate) enum Kind {
    /// It is neither valid nor dead.
    BadHeader,
    /// One of a file links to one that isn't its next.
    WrongLink,
    /// One of a file's last possible segment has a link.
    LinkPastLast,
    /// One of a file has a link to another volume.
    LinkToVolume,
    /// It is dead.
    DeadHeader,
    /// It is one of a later segment, and of no file.
    Orphan,
    /// Its file is marked for delete.
    Marked,
    /// Its file wasn't closed properly.
    NotClosed,
}

impl Kind {
    /// Its code.
    fn code(self) -> u8
        ensures { result ≡ code_of self }
    {
        match self {
            Kind::BadHeader => 7,
            Kind::WrongLink => 11,
            Kind::LinkPastLast => 13,
            Kind::LinkToVolume => 14,
            Kind::DeadHeader => 2,
            Kind::Orphan => 3,
            Kind::Marked => 4,
            Kind::NotClosed => 5,
        }
    }

    /// Whether it is found of a slot.
    fn holds(self, slot: &Slot, in_file: bool, next: u16) -> bool
        ensures { IsTrue result ↔ Holds self slot.now in_file next }
    {
        match self {
            Kind::BadHeader => slot.state == State::Bad,
            Kind::WrongLink => is_linked(slot, in_file) && slot.segment < 255 && next == 0,
            Kind::LinkPastLast => is_linked(slot, in_file) && slot.segment >= 255,
            Kind::LinkToVolume => is_linked(slot, in_file) && slot.link.volume != 0,
            Kind::DeadHeader => slot.state == State::Dead,
            Kind::Orphan => slot.is_live() && slot.segment > 0 && !in_file,
            Kind::Marked => slot.is_file() && has_bit(slot.characteristics, 15),
            Kind::NotClosed => slot.is_file() && has_bit(slot.characteristics, 6),
        }
    }
}

/// Whether a header is one of a file and has a link.
fn is_linked(slot: &Slot, in_file: bool) -> bool
    ensures { IsTrue result ↔ IsLinkedSlot slot.now in_file }
{
    in_file && slot.link.number != 0
}

/// Whether a bit of a word is 1.
pub(crate) fn has_bit(word: u16, k: u32) -> bool
    requires { k < 16 }
    ensures { IsTrue result ↔ (bit_at word k ≡ 1) }
{
    word >> k & 1 == 1
}

/// Adds the slots of which a kind is found.
///
/// # Errors
///
/// `NoMemory` where there is no memory for a finding.
pub(crate) fn add_headers(
    found: &mut Findings,
    kind: Kind,
    slots: &[Slot],
    chains: &Chains,
) -> Result<(), NoMemory>
    requires few { length slots.now < 65536 }
    requires sized { IsSized chains.now (length slots.now) }
    ensures { OnOk result (Finds (FoundAmong
        (λ k. Holds kind (kept_slot slots.now k) (has chains.now.in_file (k + 1))
        (slice_index chains.now.nexts.items k))
        (λ k. finding (code_of kind) (k + 1) 0) (length slots.now)) found.old found.new) }
{
    for k in 0..slots.len() {
        let n = k as u32 + 1;
        let holds = kind.holds(&slots[k], chains.in_file.contains(n), chains.nexts[k]);
        let finding = Finding {
            code: kind.code(),
            a: n,
            b: 0,
        };
        found.add_if(holds, finding)?;
    }
    Ok(())
}

/// Adds the numbers of a set, as findings of a code.
///
/// # Errors
///
/// `NoMemory` where there is no memory for a finding.
pub(crate) fn add_marked(found: &mut Findings, code: u8, marks: &Bits) -> Result<(), NoMemory>
    ensures { OnOk result (Finds (FoundAmong (λ k. has marks.now k ≡ true)
        (λ k. finding code k 0) (limit_of marks.now)) found.old found.new) }
{
    for i in 0..marks.limit().div_ceil(64) {
        add_marked_word(found, code, marks, i)?;
    }
    Ok(())
}

/// Adds the numbers of word `i` of a set, as findings of a code. A word of zeros is one step.
///
/// # Errors
///
/// `NoMemory` where there is no memory for a finding.
fn add_marked_word(found: &mut Findings, code: u8, marks: &Bits, i: u32) -> Result<(), NoMemory>
    requires { 64 * i < limit_of marks.now }
    ensures { OnOk result (Finds (FoundAmong (λ k. (64 * i ≤ k) × (has marks.now k ≡ true))
        (λ k. finding code k 0) (min (64 * (i + 1)) (limit_of marks.now))) found.old found.new) }
{
    if marks.word(i) == 0 {
        return Ok(());
    }
    let end = (64 * i).saturating_add(64).min(marks.limit());
    for k in 64 * i..end {
        found.add_if(marks.contains(k), Finding { code, a: k, b: 0 })?;
    }
    Ok(())
}

/// Whether block `k` of a volume is neither free nor named; none past its end is.
#[tactic(auto, unfolding(crate::specs::Scanning::Scans::is_lost))]
fn is_lost(named: &Bits, free: &Bits, k: u32) -> bool
    requires { limit_of free.now ≤ limit_of named.now }
    ensures { result ≡ is_lost named.now free.now k }
{
    k < free.limit() && (!named.contains(k) && !free.contains(k))
}

/// Whether block `k` of a volume is lost, and the one behind it isn't.
fn ends_lost(named: &Bits, free: &Bits, k: u32) -> bool
    requires size { limit_of free.now ≤ limit_of named.now }
    requires within { k < limit_of free.now }
    ensures { result ≡ ends_lost named.now free.now k }
{
    is_lost(named, free, k) && !is_lost(named, free, k + 1)
}

/// Adds the longest runs of blocks of a volume that are neither free nor named.
///
/// # Errors
///
/// `NoMemory` where there is no memory for a finding.
pub(crate) fn add_lost(found: &mut Findings, named: &Bits, free: &Bits) -> Result<(), NoMemory>
    requires { limit_of free.now ≤ limit_of named.now }
    ensures { OnOk result (Finds (FoundAmong (λ k. ends_lost named.now free.now k ≡ true)
        (λ k. finding 1 (start_of (is_lost named.now free.now) k) k) (limit_of free.now))
        found.old found.new) }
{
    let mut start = 0;
    for i in 0..free.limit().div_ceil(64) {
        start = add_lost_word(found, named, free, i, start)?;
    }
    Ok(())
}

/// Adds the runs that end in word `i`, where one that comes from before it began at `start`, and gives where one that goes on behind it
/// begins. A word without a lost block is one step.
///
/// # Errors
///
/// `NoMemory` where there is no memory for a finding.
fn add_lost_word(
    found: &mut Findings,
    named: &Bits,
    free: &Bits,
    i: u32,
    start: u32,
) -> Result<u32, NoMemory>
    requires size { limit_of free.now ≤ limit_of named.now }
    requires within { 64 * i < limit_of free.now }
    requires start { start ≡ start_of (is_lost named.now free.now) (64 * i) }
    ensures { IfOk result (λ next. FindsLost named.now free.now i next found.old found.new) }
{
    let end = (64 * i).saturating_add(64).min(free.limit());
    if named.word(i) | free.word(i) == u64::MAX {
        return Ok(end);
    }
    let mut start = start;
    for k in 64 * i..end {
        let ends = ends_lost(named, free, k);
        let finding = Finding {
            code: LOST,
            a: start,
            b: k,
        };
        found.add_if(ends, finding)?;
        if !is_lost(named, free, k) {
            start = k + 1;
        }
    }
    Ok(start)
}

/// Adds other findings, whose memory is given back then.
///
/// # Errors
///
/// `NoMemory` where there is no memory for them.
pub(crate) fn add_all(found: &mut Findings, more: Findings) -> Result<(), NoMemory>
    ensures { OnOk result (Finds (λ code a b. Contains more (finding code a b))
        found.old found.new) }
{
    add_each(found, &more)
}

/// Adds other findings, which stay.
///
/// # Errors
///
/// `NoMemory` where there is no memory for them.
pub(crate) fn add_each(found: &mut Findings, more: &Findings) -> Result<(), NoMemory>
    ensures { OnOk result (Finds (λ code a b. Contains more.now (finding code a b))
        found.old found.new) }
{
    for i in 0..more.len() {
        let Some(finding) = more.get(i) else {
            return Ok(());
        };
        found.add(finding)?;
    }
    Ok(())
}
