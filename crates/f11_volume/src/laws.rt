//! Laws of what a volume is, each the contract of a function that does nothing.
ghost use Rattle.f11_volume.specs.FileLaws as files;
ghost use Rattle.f11_volume.specs.Laws as laws;
ghost use Rattle.f11_volume.specs.NoteLaws as noted;

/// A fault of the frame is a fault, the only one, and the first: what lower codes speak of is as it should be.
pub fn frames()
    ensures none { laws.FrameHasNoFault }
    ensures only { laws.FrameFaultIsOnly }
    ensures first { laws.FrameFaultIsFirst }
{}

/// A volume has no fault exactly where it is sound, and an image is accepted exactly where its frame is as it should be and its
/// volume is sound.
pub fn sound()
    ensures volume { laws.FaultlessIsSound }
    ensures image { laws.AcceptedIsSound }
    ensures home { laws.AcceptedHasSoundVolume }
{}

/// The files of a sound volume: they are chained, each is sound, and no block stands twice among those of all.
pub fn files()
    ensures volume { files.VolumeHasSoundFiles }
    ensures image { files.ImageHasSoundFiles }
    ensures index { files.IndexFileIsApart }
    ensures bitmap { files.StorageBitmapIsOne }
{}

/// What a whole file has, as its headers and blocks say.
pub fn whole_files()
    ensures reached { files.ReachedAreTheFiles }
    ensures headers { files.FileHasItsHeaders }
    ensures blocks { files.FileHasItsBlocks }
{}

/// An image on which a fresh volume was made is sound.
pub fn fresh_volumes()
    ensures { laws.FreshIsSound }
{}

/// Notes leave nothing out: the runs of lost blocks are apart and have them all, a live header is an orphan or a file's, a file stands
/// in a directory or is noted, and so is one that is marked contiguous and isn't.
pub fn notes()
    ensures apart { noted.LostRunsAreApart }
    ensures lost { noted.LostRunsHaveTheLost }
    ensures orphans { noted.OrphansAreNoFiles }
    ensures entered { noted.OthersAreEntered }
    ensures contiguous { noted.OthersAreContiguous }
{}
