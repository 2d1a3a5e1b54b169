//! Laws of retrieval pointers, each the contract of a function that does nothing.

ghost use Rattle.f11_map.specs.Laws as laws;

/// By which pointers blocks in a row are named.
pub fn fewest_runs()
    ensures name { laws.FewestRunsNameThem }
    ensures fewest { laws.FewestRunsAreFewest }
    ensures join { laws.FewestRunsJoin }
    ensures go_on { laws.FewestRunsGoOn }
    ensures two_pointers { laws.LongRunInTwoPointers }
{}
