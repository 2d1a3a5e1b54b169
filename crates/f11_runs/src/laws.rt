//! Laws of whole lists of requests, each the contract of a function that does nothing.

ghost use Rattle.f11_runs.specs.Laws as laws;

/// A list that is run is its parts, run one after another.
pub fn runs()
    ensures empty { laws.EmptyChangesNothing }
    ensures answered { laws.EachIsAnswered }
    ensures two { laws.TwoAreOne }
    ensures parts { laws.OneIsTwo }
    ensures more { laws.OneMoreRuns }
    ensures last { laws.LastIsStep }
{}

/// It is a step for each call, and what each step keeps holds all the way.
pub fn steps()
    ensures run { laws.RunIsSteps }
    ensures steps { laws.StepsAreRun }
    ensures kept { laws.KeptAlong }
{}

/// A store that stands does so after each step and all along a list.
pub fn standing()
    ensures first { laws.UnaccessedStands }
    ensures step { laws.StepStands }
    ensures run { laws.RunStands }
    ensures empty { laws.StandingIsEmpty }
    ensures tidy { laws.StandingRunIsTidy }
    ensures accesses { laws.AccessesStay }
{}

/// An access in mode Locked reads the content as it was when it was answered, until its task ends it,
/// whatever all tasks ask between.
pub fn locked()
    ensures begins { laws.LockedBegins }
    ensures stays { laws.LockedStays }
    ensures read { laws.LockedIsRead }
    ensures ends { laws.EndIsServed }
    ensures between { laws.LockedReadIs }
    ensures tidy { laws.TidyLocksHold }
    ensures run { laws.RunLocksHold }
{}
