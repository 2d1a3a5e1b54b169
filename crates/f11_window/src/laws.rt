//! Laws of windows, each the contract of a function that does nothing.
ghost use Rattle.f11_window.specs.Laws as laws;

/// Which blocks are in a window, that those outside stay at each moment, and that there are no others.
pub fn windows()
    ensures inside { laws.PartIsItsBlocks }
    ensures outside { laws.BlocksOutsideStay }
    ensures whole { laws.ImageIsPartAndOutside }
{}
