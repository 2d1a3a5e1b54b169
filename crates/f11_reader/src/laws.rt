//! Laws of files that are read along their headers, each the contract of a function that does nothing: layers above cite them.
ghost use Rattle.f11_reader.specs.Laws as laws;

/// What an opened file has to come.
pub fn opened()
    ensures contents { laws.OpenedHasItsBlocks }
    ensures whole { laws.ReachedAreTheBlocks }
{}
