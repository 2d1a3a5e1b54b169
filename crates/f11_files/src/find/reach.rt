//! The header of a file that names a block.
ghost use Rattle.std.specs.Prelude.{◌≡◌, ◌+◌, ◌<◌, ◌≤◌, false, IfErr, IfOk, IfSome, IsTrue, OnOk, Some};
ghost use Rattle.f11_index.specs.Table.{table_of};
ghost use Rattle.f11_map.specs.HeaderBlock.{segment_number};
ghost use Rattle.f11_files.specs.Answers.{FailsToRead, MakesAtMost};
ghost use Rattle.f11_files.specs.Finding.Reached.{GoesOn, IsBefore, IsSeen, LiesSeen, Reaches, ReachesOn};
ghost use Rattle.f11_files.specs.Operations.{length_causes};
ghost use Rattle.f11_files.specs.Structure.{home_of, store_on, IsStructureFor};
ghost use Rattle.f11_store.specs.Cost.{header_count};
ghost use Rattle.f11_store.specs.Store.{file_named};

use crate::answer::refusal_for;
use crate::structure::Structure;
use f11_bytes::Block;
use f11_chain::{HeaderAt, Place, seek, seek_on};
use f11_dev::Device;
use f11_store::{FileId, Refusal};

/// A header of a file that was reached, and the file's sequence number.
#[derive(Clone, Copy)]
pub(crate) struct Seen {
    pub(crate) sequence: u16,
    pub(crate) at: HeaderAt,
}

/// The header from which block `vbn` of a file is reached: the one that was reached last, where it is one of the file and not behind the
/// block.
fn begun(seen: Option<Seen>, f: FileId, vbn: u32) -> Option<HeaderAt>
    ensures some { IfSome result (λ at.
        seen ≡ Some (record { sequence = f.sequence; at = at })
        × IsBefore f vbn (record { sequence = f.sequence; at = at })) }
    ensures each { (s : Seen) → seen ≡ Some s → IsBefore f vbn s → result ≡ Some s.at }
{
    let s = seen?;
    if s.at.file == f.number && s.sequence == f.sequence && s.at.before < vbn {
        Some(s.at)
    } else {
        None
    }
}

impl Structure {
    /// Goes from the first header of a file to the one that names block `vbn`, from 1: that header is in the block then.
    ///
    /// # Errors
    ///
    /// `NoSuchFile`, `EndOfFile`, `DeviceFault`, `Damaged`.
    fn reach_first<D: Device>(
        &self,
        device: &mut D,
        f: FileId,
        vbn: u32,
        block: &mut Block,
    ) -> Result<Place, Refusal>
        requires is_for { IsStructureFor self.now (D.disk device.old) }
        requires own { 4 ≤ f.number }
        requires some { 0 < vbn }
        ensures reached { IfOk result (λ place. Reaches self.now f vbn place block.new
            (D.disk device.old) (D.disk device.new)) }
        ensures refused { IfErr result (λ refusal. FailsToRead false
            (length_causes (store_on self.now (D.disk device.old)) f vbn)
            (header_count (file_named (store_on self.now (D.disk device.old)) f)) refusal
            (D.disk device.old) (D.disk device.new)) }
        ensures bounded { MakesAtMost 256 (D.disk device.old) (D.disk device.new) }
    {
        self.read_first(device, f, block)?;
        match seek(device, &self.index, f.number, vbn - 1, block) {
            Ok(place) => Ok(place),
            Err(fault) => Err(refusal_for(fault)),
        }
    }

    /// Goes there from a header that was reached before, which is read again.
    ///
    /// # Errors
    ///
    /// `EndOfFile`, `DeviceFault`, `Damaged`.
    fn reach_on<D: Device>(
        &self,
        device: &mut D,
        f: FileId,
        at: &HeaderAt,
        vbn: u32,
        block: &mut Block,
    ) -> Result<Place, Refusal>
        requires is_for { IsStructureFor self.now (D.disk device.old) }
        requires own { 4 ≤ f.number }
        requires before { IsBefore f vbn (record { sequence = f.sequence; at = at.now }) }
        requires seen { IsTrue (D.disk device.old).honest
            → IsSeen (table_of (D.disk device.old).image (home_of self.now))
            (record { sequence = f.sequence; at = at.now }) }
        ensures reached { IfOk result (λ place. Reaches self.now f vbn place block.new
            (D.disk device.old) (D.disk device.new)) }
        ensures near { IfOk result (λ place. IsTrue (D.disk device.old).honest
            → (D.disk device.new).transfers + segment_number ((table_of
            (D.disk device.old).image (home_of self.now)).header at.now.number)
            ≤ (D.disk device.old).transfers + place.segment + 1) }
        ensures refused { IfErr result (λ refusal. FailsToRead false
            (length_causes (store_on self.now (D.disk device.old)) f vbn)
            (header_count (file_named (store_on self.now (D.disk device.old)) f)) refusal
            (D.disk device.old) (D.disk device.new)) }
        ensures bounded { MakesAtMost 256 (D.disk device.old) (D.disk device.new) }
    {
        match seek_on(device, &self.index, at, vbn - 1, block) {
            Ok(place) => Ok(place),
            Err(fault) => Err(refusal_for(fault)),
        }
    }

    /// Goes there from the header that was reached last, where that is one of the file and not behind the block, and else from the file's
    /// first.
    ///
    /// # Errors
    ///
    /// Those of [`Structure::reach`].
    fn reach_from<D: Device>(
        &self,
        device: &mut D,
        f: FileId,
        vbn: u32,
        seen: Option<Seen>,
        block: &mut Block,
    ) -> Result<Place, Refusal>
        requires is_for { IsStructureFor self.now (D.disk device.old) }
        requires own { 4 ≤ f.number }
        requires some { 0 < vbn }
        requires seen { LiesSeen seen (home_of self.now) (D.disk device.old) }
        ensures reached { IfOk result (λ place. Reaches self.now f vbn place block.new
            (D.disk device.old) (D.disk device.new)) }
        ensures near { IfOk result (λ place. GoesOn seen f vbn place.segment
            (home_of self.now) (D.disk device.old) (D.disk device.new)) }
        ensures refused { IfErr result (λ refusal. FailsToRead false
            (length_causes (store_on self.now (D.disk device.old)) f vbn)
            (header_count (file_named (store_on self.now (D.disk device.old)) f)) refusal
            (D.disk device.old) (D.disk device.new)) }
        ensures bounded { MakesAtMost 256 (D.disk device.old) (D.disk device.new) }
    {
        match begun(seen, f, vbn) {
            Some(at) => self.reach_on(device, f, &at, vbn, block),
            None => self.reach_first(device, f, vbn, block),
        }
    }

    /// Goes to the header of a file that names block `vbn`, from 1, which is in the block then: from the one that was reached last, where it
    /// is one of the file and not behind the block, and else from the file's first. It reads each header from there on once, and keeps
    /// which one it reached.
    ///
    /// # Errors
    ///
    /// `NoSuchFile` where no file has this identification, `EndOfFile` where it has fewer blocks, `DeviceFault` where a transfer failed,
    /// `Damaged` where a header or a link isn't as it should be.
    pub(crate) fn reach<D: Device>(
        &self,
        device: &mut D,
        f: FileId,
        vbn: u32,
        seen: &mut Option<Seen>,
        block: &mut Block,
    ) -> Result<Place, Refusal>
        requires is_for { IsStructureFor self.now (D.disk device.old) }
        requires own { 4 ≤ f.number }
        requires some { 0 < vbn }
        requires seen { LiesSeen seen.old (home_of self.now) (D.disk device.old) }
        ensures reached { IfOk result (λ place. Reaches self.now f vbn place block.new
            (D.disk device.old) (D.disk device.new)) }
        ensures seen { LiesSeen seen.new (home_of self.now) (D.disk device.old) }
        ensures near { OnOk result (ReachesOn f vbn seen.old seen.new (home_of self.now)
            (D.disk device.old) (D.disk device.new)) }
        ensures refused { IfErr result (λ refusal. FailsToRead false
            (length_causes (store_on self.now (D.disk device.old)) f vbn)
            (header_count (file_named (store_on self.now (D.disk device.old)) f)) refusal
            (D.disk device.old) (D.disk device.new)) }
        ensures bounded { MakesAtMost 256 (D.disk device.old) (D.disk device.new) }
    {
        let place = self.reach_from(device, f, vbn, *seen, block)?;
        *seen = Some(Seen {
            sequence: f.sequence,
            at: HeaderAt {
                file: f.number,
                number: place.number,
                before: vbn - 1 - place.left,
            },
        });
        Ok(place)
    }
}
