//! Laws of copies between two volumes, over their plain stores, each the contract of a function that does nothing.
ghost use Rattle.std.specs.Prelude.{◌≡◌, true};
ghost use Rattle.f11_fcp.specs.Lists.{is_sound, store_of_volume};
ghost use Rattle.f11_flx.specs.CopyLaws as laws;
ghost use Rattle.f11_flx.specs.Target.{rt_disk, rt_store};
ghost use Rattle.f11_flx.specs.ThereAndBack as back;
ghost use Rattle.f11_runs.specs.Standing.{AccessesStand};
ghost use Rattle.f11_store.specs.Accesses.{FreeIsEmpty};
ghost use Rattle.rt11_volume.specs.Verifying.Verdict.{IsSoundDisk};

use f11_dev::Device;
use f11_fcp::Volume;
use f11_making::Asked;
use rt11_volume::RtAccepted;

/// What a copy to an RT-11 volume reads is the file's, of what it asks nothing but the access is refused, and whatever is
/// answered its source's volume is as before.
pub fn reading()
    ensures file { laws.ReadingIsOfFile }
    ensures access { laws.AccessAloneIsRefused }
    ensures copied { laws.SourceStays }
    ensures refused { laws.RefusedSourceStays }
{}

/// What [`copy_file`](crate::to_rt::copy_file) tells of any service that is seen as the plain store is what a copy is.
pub fn copies<S: Asked, E: Device>(rt: &RtAccepted<E>)
    ensures copied { laws.CopiedIsCopy S.service E.disk rt.now }
    ensures refused { laws.RefusedIsRefusal S.service E.disk rt.now }
    ensures left { laws.RefusedLeavesRt S.service E.disk rt.now }
{}

/// Each block of a volume's files has 512 bytes, as each of an image has.
pub fn blocks<D: Device>(volume: &Volume<D>)
    ensures whole { laws.BlocksAreWhole (store_of_volume volume.now) }
{}

/// No file of a volume is in a slot that isn't in use, and what tasks hold of a sound one is there.
pub fn slots<D: Device>(volume: &Volume<D>)
    ensures unused { FreeIsEmpty (store_of_volume volume.now) }
    ensures held { is_sound volume.now ≡ true → AccessesStand (store_of_volume volume.now) }
{}

/// Each block of a sound RT-11 volume's files has 512 bytes.
pub fn rt_blocks<E: Device>(rt: &RtAccepted<E>)
    ensures whole { IsSoundDisk (rt_disk E.disk rt.now) → back.ContentsAreWhole (rt_store E.disk rt.now) }
{}

/// What comes back where two copies follow each other: from a volume to an RT-11 one and from there to any volume, and
/// the other way round.
pub fn there_and_back()
    ensures file { back.FileComesBack }
    ensures source { back.SourceIsKept }
    ensures rt_file { back.RtFileComesBack }
{}
