//! Texts of the host, made files on a Files-11 volume.
ghost use Rattle.std.specs.Prelude.{◌≡◌, ◌≤◌, true, IfErr, IfOk, IsErrAnd};
ghost use Rattle.f11_flx.specs.fcp.Lists.{is_sound, store_of_volume};
ghost use Rattle.f11_flx.specs.fcp.Serving.{is_spent};
ghost use Rattle.f11_making.specs.Asking.{who_asks};
ghost use Rattle.f11_making.specs.Volume.{of_volume};
ghost use Rattle.f11_flx.specs.Copying.{MayMakeStated, is_whole};
ghost use Rattle.f11_flx.specs.Ended.{Ends};
ghost use Rattle.f11_flx.specs.Refusal.{is_lethal};
ghost use Rattle.f11_host.specs.CopyTextFromHost.{AsksForText, CopiesTextFromHost, FailsTextSpent, FailsToCopyTextFromHost, ReadsTexts, is_text_too_long};
ghost use Rattle.f11_host.specs.Refusal.{as_copy, copy_result};

use crate::refusal::{HostRefusal, told};
use crate::text::judge_text;
use crate::text_making::make_text;
use f11_dev::Device;
use f11_flx::f11_fcp::Volume;
use f11_making::{Asker, Entry};
use f11_rad50::Name;
use f11_store::{FileId, Lun, Refusal, Task, Uic};
use std::io::Read;

/// The most bytes of a text whose copy's bytes are counted.
const MOST_TEXT: u64 = 1_073_741_312;

/// Judges a text that isn't too long, and makes a file of it.
fn copy_judged<R: Read, D: Device>(
    first: &mut R,
    again: &mut R,
    bytes: u32,
    vol: &mut Volume<D>,
    by: &Asker,
    entry: &Entry,
) -> Result<u32, HostRefusal>
    requires few { bytes ≤ 1073741312 }
    ensures hosts { ReadsTexts bytes result (R.remaining first.old) (R.remaining first.new)
        (R.remaining again.old) (R.remaining again.new) }
    ensures files { MayMakeStated (copy_result result) (who_asks by.now.task by.now.uic) by.now.lun
        entry.now.dir entry.now.name entry.now.protection vol.old vol.new }
    ensures order { AsksForText of_volume bytes (R.remaining again.old) (R.remaining again.new)
        (who_asks by.now.task by.now.uic) by.now.lun entry.now.dir entry.now.name
        entry.now.protection vol.old vol.new }
    ensures spent { is_spent vol.old ≡ true
        → IsErrAnd result (FailsTextSpent (is_text_too_long bytes)) }
    ensures ended { IfErr result (λ e. is_lethal (as_copy e) ≡ true
        → Ends of_volume (who_asks by.now.task by.now.uic) (as_copy e) vol.old vol.new) }
    ensures copied { IfOk result (λ blocks. is_sound vol.old ≡ true
        → CopiesTextFromHost bytes blocks (R.remaining again.old) (R.remaining again.new)
        (who_asks by.now.task by.now.uic) by.now.lun entry.now.dir entry.now.name
        entry.now.protection (store_of_volume vol.old) (store_of_volume vol.new)) }
    ensures refused { IfErr result (λ e. is_whole (copy_result result) ≡ true
        → is_sound vol.old ≡ true → FailsToCopyTextFromHost e bytes
        (R.remaining first.old) (R.remaining first.new)
        (R.remaining again.old) (R.remaining again.new)
        (who_asks by.now.task by.now.uic) by.now.lun entry.now.dir entry.now.name
        entry.now.protection (store_of_volume vol.old) (store_of_volume vol.new)) }
{
    let plan = match judge_text(first, bytes, by) {
        Ok(plan) => plan,
        Err(refusal) => return Err(told(refusal)),
    };
    match make_text(again, bytes, &plan, vol, by, entry) {
        Ok(()) => Ok(plan.blocks),
        Err(refusal) => Err(told(refusal)),
    }
}

/// Copies a text of the host, of which so many bytes are to come of either of two readers, to a Files-11 volume as variable records, for a
/// task and a user, by a lun that holds no access: how many blocks the copy has (RSX-11M Utilities manual, FLX). A line ends with LF or
/// CR LF, and the last one may end without; bytes of 0 mean nothing. No memory is taken but for slots of the index file, which gets them first
/// where too few headers are free, and keeps them where the copy is refused.
///
/// The text is walked over by `first` before anything is asked of the volume; then a file is made as by
/// [`copy_from_host`](crate::copy_from_host), with the attributes and the blocks that were found, of what `again` gives.
///
/// # Errors
///
/// [`HostRefusal::Unread`] where `first` gives fewer bytes, or fails, and [`HostRefusal::LineTooLong`] where a line has more than 2,048 bytes:
/// then nothing is asked. [`HostRefusal::Files`] with the refusal of the first step that is refused, and [`HostRefusal::Unread`] where `again`
/// gives fewer bytes, or fails, or gives a text whose copy has fewer blocks, another end or another longest line; one with more blocks is
/// refused by the volume as the block behind the last is. Then the new file is given up and deleted; where this meets a device fault or
/// `Damaged`, that is the answer. After these no transfer follows: an access that isn't given up stays, and so does the new file, in the
/// directory only where it was entered.
///
/// Of over 1,073,741,312 bytes it is `TooManySegments` at once, before anything is read or asked. Of a volume that had failed before it is
/// `VolumeFailed`, where the text is read and no line is too long.
#[allow(clippy::too_many_arguments)]
pub fn copy_text_from_host<R: Read, D: Device>(
    first: &mut R,
    again: &mut R,
    bytes: u64,
    vol: &mut Volume<D>,
    task: Task,
    lun: Lun,
    uic: Uic,
    dir: FileId,
    to: &Name,
    protection: u16,
) -> Result<u32, HostRefusal>
    ensures hosts { ReadsTexts bytes result (R.remaining first.old) (R.remaining first.new)
        (R.remaining again.old) (R.remaining again.new) }
    ensures files { MayMakeStated (copy_result result) (who_asks task uic) lun dir to.now protection
        vol.old vol.new }
    ensures order { AsksForText of_volume bytes (R.remaining again.old) (R.remaining again.new)
        (who_asks task uic) lun dir to.now protection vol.old vol.new }
    ensures spent { is_spent vol.old ≡ true
        → IsErrAnd result (FailsTextSpent (is_text_too_long bytes)) }
    ensures ended { IfErr result (λ e. is_lethal (as_copy e) ≡ true
        → Ends of_volume (who_asks task uic) (as_copy e) vol.old vol.new) }
    ensures copied { IfOk result (λ blocks. is_sound vol.old ≡ true
        → CopiesTextFromHost bytes blocks (R.remaining again.old) (R.remaining again.new)
        (who_asks task uic) lun dir to.now protection
        (store_of_volume vol.old) (store_of_volume vol.new)) }
    ensures refused { IfErr result (λ e. is_whole (copy_result result) ≡ true
        → is_sound vol.old ≡ true → FailsToCopyTextFromHost e bytes
        (R.remaining first.old) (R.remaining first.new)
        (R.remaining again.old) (R.remaining again.new)
        (who_asks task uic) lun dir to.now protection
        (store_of_volume vol.old) (store_of_volume vol.new)) }
{
    if bytes > MOST_TEXT {
        return Err(HostRefusal::Files(Refusal::TooManySegments));
    }
    let by = Asker { task, lun, uic };
    let entry = Entry {
        dir,
        name: *to,
        protection,
    };
    copy_judged(first, again, bytes as u32, vol, &by, &entry)
}
