//! Laws of directories and files, each the contract of a function that does nothing: layers above cite them.
ghost use Rattle.f11_catalog.specs.Laws as laws;

/// All files of a volume, and all that directories name.
pub fn all_files()
    ensures files { laws.NoFileIsLeftOut }
    ensures records { laws.NoRecordIsLeftOut }
{}

/// All directories of a volume, in use and out of use.
pub fn all_directories()
    ensures in_use { laws.NoDirectoryIsLeftOut }
    ensures unused { laws.NoUnusedDirectoryIsLeftOut }
{}

/// The files of the index file that takes each slot as in use: each valid first header, whatever the bit of its slot.
pub fn files_out_of_use()
    ensures { laws.FindsEachFirstHeader }
{}

/// The files that the plain store has, what it has of directories, and the lines that tell of them.
pub fn stored_files()
    ensures named { laws.NamesTheStoresFile }
    ensures files { laws.FilesAreTheStores }
    ensures entries { laws.ListsTheStoresEntries }
    ensures found { laws.FindsTheStoresFile }
    ensures lines { laws.ShowsTheStoresFile }
{}
