//! Laws of fresh RT-11 volumes, each the contract of a function that does nothing.
ghost use Rattle.rt11_volume.specs.FreshLaws as laws;

/// Where making a fresh volume is stopped, the directory has a wrong size, if it had one, or the volume is accepted.
pub fn stopped()
    ensures { laws.StoppedIsUnsized }
{}
