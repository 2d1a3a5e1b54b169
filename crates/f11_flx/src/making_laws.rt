//! Laws of copies from RT-11 volumes, over the plain store of the Files-11 volume, each the contract of a function that does
//! nothing.
ghost use Rattle.f11_flx.specs.MakingLaws as laws;

/// A making that is refused is undone, and so is a copy; slots that the index file got first stay.
pub fn undoing()
    ensures making { laws.RefusedMakingLeaves }
    ensures copy { laws.RefusedCopyLeaves }
{}

/// A making that is granted makes the file, enters it, and leaves all others, but that the index file may have got slots first;
/// so a copy holds the conversion of its source.
pub fn making()
    ensures granted { laws.GrantedIsMade }
    ensures copied { laws.CopiedHolds }
{}
