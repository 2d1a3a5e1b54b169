//! Laws of plans, each the contract of a function that does nothing.
ghost use Rattle.f11_making.specs.Done as done;
ghost use Rattle.f11_making.specs.Sparing as sparing;

/// An action leaves each file that it doesn't name as it was, but for the index file; and one that was done has made of the store what it says.
pub fn actions()
    ensures others { sparing.ActionsSpareOthers }
    ensures done { done.DoneIsDone }
{}
