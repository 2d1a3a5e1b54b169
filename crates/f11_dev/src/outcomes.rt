//! The outcomes of a device's transfers, which only clauses read.
ghost use Rattle.std.specs.Prelude.{◌≡◌, ◌+◌, if◌then◌else◌};

use std::snapshot::Snapshot;

/// The outcome of each transfer so far, the newest first. It takes no memory for them.
#[derive(Drop)]
pub enum Outcomes {
    None,
    Passed(Snapshot<Outcomes>),
    Failed(Snapshot<Outcomes>),
}

impl Outcomes {
    ghost use Rattle.f11_dev.specs.Outcomes.{transfers_of, failures_of, calm_of};

    /// Adds the outcome of a transfer.
    pub fn add(&mut self, passed: bool)
        ensures transfers { transfers_of self.new ≡ transfers_of self.old + 1 }
        ensures failures { failures_of self.new ≡ failures_of self.old + (if passed then 0 else 1) }
        ensures calm { calm_of self.new ≡ (if passed then calm_of self.old + 1 else 0) }
    {
        let earlier = Snapshot::of(self);
        *self = if passed {
            Outcomes::Passed(earlier)
        } else {
            Outcomes::Failed(earlier)
        };
    }
}
