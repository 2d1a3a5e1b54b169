//! Laws of a file's headers and blocks, each the contract of a function that does nothing: layers above cite them.
ghost use Rattle.f11_chain.specs.Laws as laws;
ghost use Rattle.f11_chain.specs.Windows as windows;

/// The index file's blocks are those of file 1.
pub fn index_file()
    ensures { laws.IndexFileIsFileOne }
{}

/// A file of which no header changes.
pub fn other_headers()
    ensures { laws.FileStays }
{}

/// A file that grows at its end.
pub fn growth()
    ensures names { laws.LastNamesMore }
    ensures links { laws.LastIsLinked }
{}

/// A file that is cut at one of its headers.
pub fn cuts()
    ensures ends { laws.HeaderEndsFile }
    ensures cut { laws.FileIsCut }
{}

/// Blocks that stand in a row in a file's.
pub fn rows()
    ensures header { windows.HeaderStands }
    ensures slice { windows.RowIsSlice }
    ensures row { windows.SliceIsRow }
    ensures stays { windows.RowStays }
    ensures has { windows.RowHas }
{}

/// Windows over a file's blocks.
pub fn windows()
    ensures stands { windows.WindowStands }
    ensures has { windows.WindowHas }
    ensures stays { windows.WindowStays }
    ensures empty { windows.EmptyWindowIs }
{}
