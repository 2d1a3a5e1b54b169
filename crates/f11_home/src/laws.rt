//! Laws of the home block, each the contract of a function that does nothing: they show that the definitions say what is
//! meant, and layers above cite them.
ghost use Rattle.f11_home.specs.Laws as laws;

/// What makes a home block: valid fields, and then both sums.
pub fn seals()
    ensures { laws.SealedIsHome }
{}

/// An image has one home block or none.
pub fn homes()
    ensures one { laws.HomeIsOne }
    ensures some { laws.HomeIsSome }
{}

/// Which candidates there are.
pub fn candidates()
    ensures { laws.CandidatesAreBelow }
{}
