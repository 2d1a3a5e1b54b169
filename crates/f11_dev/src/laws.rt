//! Laws of files, each the contract of a function that does nothing: they show that nothing is said of what a file holds
//! when it is opened.
ghost use Rattle.f11_dev.specs.Laws as laws;

/// Any image may be what a file holds.
pub fn files()
    ensures opened { laws.AnyImageIsOpened }
    ensures written { laws.AnyImageIsWritten }
{}
