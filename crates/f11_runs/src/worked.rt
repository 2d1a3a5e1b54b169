//! Worked examples of whole lists, the contract of a function that does nothing.

ghost use Rattle.f11_runs.specs.Worked as worked;

/// A volume that stands, and reads by a locked access in the midst of other tasks' requests.
pub fn examples()
    ensures stands { worked.SmallStands }
    ensures answered { worked.LockedIsAnswered }
    ensures locked { worked.BothAreLocked }
{}
