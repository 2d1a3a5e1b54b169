//! Findings in their order.
ghost use Rattle.std.specs.Prelude.{◌≡◌, ◌≤◌, ◌==◌, List, [], ◌∷◌, length, slice_get, OnOk, OnErr, MatchOption, Contains};
ghost use Rattle.f11_findings.specs.declared.finding.Finding.{Finding as OneFinding};
ghost use Rattle.f11_findings.specs.Finding.{AddsFindings, IsPlaceFor, KeepsWithin, IsInOrder, if_so};

use crate::Finding;
use f11_bytes::NoMemory;
use std::alloc::Global;
use std::marker::Model;

/// How many findings a list keeps at most, so that it takes at most 48 MiB: an image of less than a megabyte can have tens of millions.
pub const MOST_FINDINGS: usize = 4_194_304;

/// A growing list of findings, in their order, each once. Contracts see it as the list.
#[derive(Drop)]
pub struct Findings {
    list: Vec<Finding>,
}

impl Model for Findings {
    ghost Value = { List OneFinding };

    ghost view = { λ f. f.list.items };

    ghost invariant = { λ f. IsInOrder f.list.items };
}

impl Findings {
    /// No finding. It takes no memory before the first is added.
    pub fn new(alloc: Global) -> Findings
        ensures { result ≡ [] }
    {
        Findings {
            list: Vec::new(alloc),
        }
    }

    /// How many there are.
    pub fn len(&self) -> usize
        ensures { result ≡ length self.now }
    {
        self.list.len()
    }

    /// Whether there is none.
    pub fn is_empty(&self) -> bool
        ensures { result ≡ (length self.now == 0) }
    {
        self.list.is_empty()
    }

    /// The finding at this place, from 0; `None` from the end on.
    pub fn get(&self, i: usize) -> Option<Finding>
        ensures { result ≡ slice_get self.now i }
    {
        self.list.get(i).copied()
    }

    /// Adds a finding at its place in the order, unless it is there already. One that comes behind all others is added without
    /// moving them.
    ///
    /// # Errors
    ///
    /// `NoMemory` where there was no memory for it, or there are [`MOST_FINDINGS`] already, and then nothing changes.
    pub fn add(&mut self, finding: Finding) -> Result<(), NoMemory>
        ensures adds { OnOk result (AddsFindings self.old self.new (finding ∷ [])) }
        ensures kept { OnErr result (self.new ≡ self.old) }
        ensures few { KeepsWithin MOST_FINDINGS self.old self.new }
    {
        if let Some(at) = place_for(&self.list, &finding) {
            if self.list.len() >= MOST_FINDINGS {
                return Err(NoMemory);
            }
            self.list.insert(at, finding)?;
        }
        Ok(())
    }

    /// Adds a finding where the test holds.
    ///
    /// # Errors
    ///
    /// Those of [`Findings::add`], and then nothing changes.
    pub fn add_if(&mut self, holds: bool, finding: Finding) -> Result<(), NoMemory>
        ensures adds { OnOk result (AddsFindings self.old self.new (if_so holds finding)) }
        ensures kept { OnErr result (self.new ≡ self.old) }
        ensures few { KeepsWithin MOST_FINDINGS self.old self.new }
    {
        if holds {
            self.add(finding)?;
        }
        Ok(())
    }
}

/// Where the finding is to be put: behind the last one that stands before it; `None` where it is there already.
fn place_for(list: &[Finding], finding: &Finding) -> Option<usize>
    ensures { MatchOption result (Contains list.now finding.now) (IsPlaceFor list.now finding.now) }
{
    let mut at = list.len();
    while at > 0 {
        let last = &list[at - 1];
        if last == finding {
            return None;
        }
        if last.is_before(finding) {
            return Some(at);
        }
        at -= 1;
    }
    Some(0)
}
