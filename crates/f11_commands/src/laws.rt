//! Laws of commands, each the contract of a function that does nothing.
ghost use Rattle.f11_commands.specs.AllText.{TextsAreWhole};
ghost use Rattle.f11_commands.specs.Laws as laws;

/// What stands where a file is stopped that is put behind others ([`Puts`](crate::Puts)) is told where nobody holds an access: so it is once the
/// volume is mounted, and behind each file and each directory.
pub fn accesses()
    ensures mounted { laws.MountedHoldsNone }
    ensures files { laws.FilesLeaveNone }
    ensures directories { laws.DirectoriesLeaveNone }
{}

/// What [`TakingAll::has_text`](crate::TakingAll::has_text) found to be a text has no record that can't be read when
/// [`TakingAll::write_text`](crate::TakingAll::write_text) takes it out: it is cut where a transfer fails, and nowhere else.
pub fn texts()
    ensures whole { TextsAreWhole }
{}
