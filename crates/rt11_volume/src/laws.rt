//! Laws of what the calls make of a volume's files, each the contract of a function that does nothing.
ghost use Rattle.rt11_volume.specs.Laws as laws;

/// What finding a file by its name finds, and that there is none.
pub fn names()
    ensures first { laws.FileIsFirst }
    ensures none { laws.NoFileIsNone }
{}

/// What making a file, writing a block of it, renaming, protecting and deleting it make of it and of all others.
pub fn changes()
    ensures made { laws.CreatedIsMade }
    ensures replaced { laws.WrittenIsReplaced }
    ensures renamed { laws.RenamedIsRenamed }
    ensures protected { laws.ProtectedIsProtected }
    ensures gone { laws.DeletedIsGone }
{}

/// What is read of the directory of a volume with faults or without.
pub fn entries()
    ensures areas { laws.ListsTheStoresAreas }
    ensures file { laws.FindsTheStoresFile }
{}
