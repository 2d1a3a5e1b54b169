//! Laws of copying, each the contract of a function that does nothing.
ghost use Rattle.rt11_copy.specs.Laws as laws;

/// What is read of a directory, faulty or not.
pub fn entries()
    ensures segments { laws.EntriesHaveSegments }
{}

/// What comes to a volume by files that are copied to it, one after another.
pub fn copies()
    ensures alone { laws.NothingElseComes }
{}
