//! Laws of what the verifier reads, of what `init` leaves and of what reclaiming does, each the contract of a function that does nothing.
ghost use Rattle.f11_vfy.specs.Laws as laws;

/// Where making a fresh volume is stopped, the image has no home block, if it had none, or is accepted.
pub fn stopped()
    ensures { laws.StoppedHasNoHome }
{}

/// What is read of a volume is what the definitions speak of.
pub fn readings()
    ensures directory { laws.DirectoryIsSaid }
    ensures volume { laws.VolumeIsRead }
{}

/// Reclaiming keeps the headers of files at each moment, and kills the orphans, before any slot leaves use, which is before any block
/// becomes free. Where nothing is noted of what it gives back, there is nothing to do.
pub fn reclaiming()
    ensures files { laws.FilesKeepHeaders }
    ensures no_more { laws.FilesGainNone }
    ensures orphans { laws.OrphansAreKilled }
    ensures none { laws.NoneIsIdle }
    ensures first { laws.OrphansGoFirst }
    ensures last { laws.BlocksGoLast }
{}
