//! The calls on the files of a volume.
ghost use Rattle.std.specs.Prelude.{◌≡◌, false, IfOk, IfErr, OnOk, OnErr, IsErrOf};
ghost use Rattle.f11_dev.specs.Looked.{Looked};
ghost use Rattle.f11_dev.specs.Went.{Went};
ghost use Rattle.rt11_volume.specs.Files.{is_device_fault, faults_in, FailsToReach, HasBlock, WritesBlock, HasBlockWritten, KeepsFiles, DeletesFile, FailsToDelete, CreatesFile, FailsToCreate, FailsToRename, HasEntryChanged, ProtectsFile, RenamesFile};
ghost use Rattle.rt11_volume.specs.Entry.{protected_entry, renamed_entry};
ghost use Rattle.rt11_volume.specs.Searching.Locating.{Knows, LiesThere};
ghost use Rattle.rt11_volume.specs.Listing.{ListsAreas, FailsToList};
ghost use Rattle.rt11_volume.specs.Verifying.Verdict.{IsSoundDisk};
ghost use Rattle.rt11_volume.specs.Store.{rt_store_of};

use crate::area::RtArea;
use crate::create::file::create_file;
use crate::delete::delete_file;
use crate::list::list_areas;
use crate::lookup::file::{Located, locate, reach};
use crate::name::RtName;
use crate::protect::protect_file;
use crate::refusal::RtRefusal;
use crate::rename::rename_file;
use crate::rewrite::edit::NewFile;
use crate::volume::RtAccepted;
use f11_bytes::Block;
use f11_dev::Device;
use std::alloc::Global;

/// Whether an answer is that a transfer failed.
fn is_device_fault<T>(answer: &Result<T, RtRefusal>) -> bool
    ensures { result ≡ is_device_fault answer.now }
{
    matches!(answer, Err(RtRefusal::DeviceFault))
}

/// Reads the block at a place of the file of a name, from 0.
fn read_block<D: Device>(
    device: &mut D,
    last: &mut Option<Located>,
    name: [u16; 3],
    place: u16,
    into: &mut Block,
) -> Result<(), RtRefusal>
    requires { LiesThere last.old (D.disk device.old) (D.disk device.old).image }
    ensures looked { Looked (D.disk device.old) (D.disk device.new) 63 (faults_in result) }
    ensures knows { Knows name 1 result last.old last.new
        (D.disk device.old) (D.disk device.new) }
    ensures lies { LiesThere last.new (D.disk device.old) (D.disk device.old).image }
    ensures read { OnOk result (IsSoundDisk (D.disk device.old)
        → HasBlock name (rt_store_of (D.disk device.old).image) place into.new) }
    ensures refused { IfErr result (λ refusal.
        FailsToReach refusal name place (D.disk device.old)) }
    ensures kept { is_device_fault result ≡ false → OnErr result (into.new ≡ into.old) }
    ensures judged { ¬ IsErrOf result RtRefusal.Failed }
{
    let lbn = reach(device, last, name, place)?;
    device.read(lbn, into)?;
    Ok(())
}

/// Writes the block at a place of the file of a name, from 0.
fn write_block<D: Device>(
    device: &mut D,
    last: &mut Option<Located>,
    name: [u16; 3],
    place: u16,
    block: &Block,
) -> Result<(), RtRefusal>
    requires { LiesThere last.old (D.disk device.old) (D.disk device.old).image }
    ensures went { Went (HasBlockWritten name place block.now (D.disk device.old))
        (D.disk device.old) (D.disk device.new) 63 (faults_in result) }
    ensures knows { Knows name 1 result last.old last.new
        (D.disk device.old) (D.disk device.new) }
    ensures lies { is_device_fault result ≡ false
        → LiesThere last.new (D.disk device.old) (D.disk device.new).image }
    ensures written { OnOk result (HasBlockWritten name place block.now (D.disk device.old)
        (D.disk device.new).image) }
    ensures refused { IfErr result (λ refusal.
        FailsToReach refusal name place (D.disk device.old)) }
    ensures kept { is_device_fault result ≡ false → OnErr result
        (Looked (D.disk device.old) (D.disk device.new) 62 0) }
    ensures judged { ¬ IsErrOf result RtRefusal.Failed }
{
    let lbn = reach(device, last, name, place)?;
    device.write(lbn, block)?;
    Ok(())
}

impl<D: Device> RtAccepted<D> {
    ghost use Rattle.rt11_volume.specs.Calls.{volume_device, AnswersRt, KnowsFile};
    ghost use Rattle.rt11_volume.specs.Files.{IsFileAt, FailsToFindFile};

    /// All areas, in the order of the segments and of their entries (profile: a name is shown for a file alone). It takes memory
    /// for the list.
    ///
    /// # Errors
    ///
    /// `Failed` where an earlier call answered `DeviceFault`, `NoMemory` where there was no memory, `DeviceFault` where a transfer
    /// failed.
    pub fn list(&mut self, alloc: Global) -> Result<Vec<RtArea>, RtRefusal>
        ensures answers { AnswersRt D.disk result self.old self.new }
        ensures looked { Looked (D.disk (volume_device self.old))
            (D.disk (volume_device self.new)) 62 (faults_in result) }
        ensures listed { IfOk result (λ areas. IsSoundDisk (D.disk (volume_device self.old))
            → ListsAreas (rt_store_of (D.disk (volume_device self.old)).image) areas.items) }
        ensures refused { IfErr result FailsToList }
    {
        if self.failed {
            return Err(RtRefusal::Failed);
        }
        let answer = list_areas(alloc, &mut self.device);
        self.failed = is_device_fault(&answer);
        answer
    }

    /// Finds a file: the first permanent entry of this name, in link order. Answers its first block and its length in blocks.
    /// No transfer is made where the file is the one that was found last.
    ///
    /// # Errors
    ///
    /// `Failed` where an earlier call answered `DeviceFault`, `NoSuchFile` where there is none, `DeviceFault` where a transfer failed.
    pub fn find(&mut self, name: &RtName) -> Result<(u16, u16), RtRefusal>
        ensures answers { AnswersRt D.disk result self.old self.new }
        ensures looked { Looked (D.disk (volume_device self.old))
            (D.disk (volume_device self.new)) 62 (faults_in result) }
        ensures found { IfOk result (λ at. IsSoundDisk (D.disk (volume_device self.old))
            → IsFileAt name.now (rt_store_of (D.disk (volume_device self.old)).image) at.0 at.1) }
        ensures knows { KnowsFile D.disk name.now 0 result self.old self.new }
        ensures refused { IfErr result (λ refusal.
            FailsToFindFile refusal name.now (D.disk (volume_device self.old))) }
    {
        if self.failed {
            return Err(RtRefusal::Failed);
        }
        let answer = locate(&mut self.device, &mut self.last, name.words());
        self.failed = is_device_fault(&answer);
        let file = answer?;
        Ok((file.start, file.length))
    }

    /// Reads the block at a place of a file, from 0. Where it is refused, but for `DeviceFault`, `into` stays as it is.
    ///
    /// # Errors
    ///
    /// `Failed` where an earlier call answered `DeviceFault`, `NoSuchFile` where there is no such file, `EndOfFile` where it has no
    /// block at that place, `DeviceFault` where a transfer failed.
    pub fn read(&mut self, name: &RtName, place: u16, into: &mut Block) -> Result<(), RtRefusal>
        ensures answers { AnswersRt D.disk result self.old self.new }
        ensures looked { Looked (D.disk (volume_device self.old))
            (D.disk (volume_device self.new)) 63 (faults_in result) }
        ensures read { OnOk result (IsSoundDisk (D.disk (volume_device self.old))
            → HasBlock name.now (rt_store_of (D.disk (volume_device self.old)).image)
            place into.new) }
        ensures knows { KnowsFile D.disk name.now 1 result self.old self.new }
        ensures refused { IfErr result (λ refusal.
            FailsToReach refusal name.now place (D.disk (volume_device self.old))) }
        ensures kept { is_device_fault result ≡ false → OnErr result (into.new ≡ into.old) }
    {
        if self.failed {
            return Err(RtRefusal::Failed);
        }
        let answer = read_block(&mut self.device, &mut self.last, name.words(), place, into);
        self.failed = is_device_fault(&answer);
        answer
    }

    /// Writes the block at a place of a file, from 0, and nothing else.
    ///
    /// # Errors
    ///
    /// `Failed` where an earlier call answered `DeviceFault`, `NoSuchFile` where there is no such file, `EndOfFile` where it has no
    /// block at that place, `DeviceFault` where a transfer failed.
    pub fn write(&mut self, name: &RtName, place: u16, block: &Block) -> Result<(), RtRefusal>
        ensures answers { AnswersRt D.disk result self.old self.new }
        ensures went { Went
            (HasBlockWritten name.now place block.now (D.disk (volume_device self.old)))
            (D.disk (volume_device self.old)) (D.disk (volume_device self.new))
            63 (faults_in result) }
        ensures written { OnOk result (HasBlockWritten name.now place block.now
            (D.disk (volume_device self.old)) (D.disk (volume_device self.new)).image) }
        ensures knows { KnowsFile D.disk name.now 1 result self.old self.new }
        ensures refused { IfErr result (λ refusal.
            FailsToReach refusal name.now place (D.disk (volume_device self.old))) }
        ensures kept { is_device_fault result ≡ false → OnErr result
            (Looked (D.disk (volume_device self.old)) (D.disk (volume_device self.new)) 62 0) }
    {
        if self.failed {
            return Err(RtRefusal::Failed);
        }
        let answer = write_block(&mut self.device, &mut self.last, name.words(), place, block);
        self.failed = is_device_fault(&answer);
        answer
    }

    /// Makes a file of so many blocks in the front of the first empty area, in link order, that is as long (profile); what is left of the
    /// area stays empty. Where the segment has no room for one more entry, half of its entries go to a new segment behind it.
    ///
    /// The two blocks of the segment alone are written, in ascending order. Where it is split, those of the new segment are written
    /// first, then those of segment 1, if that is another one, and then those of the segment. For that alone segment 1 is read a
    /// second time.
    ///
    /// # Errors
    ///
    /// `Failed` where an earlier call answered `DeviceFault`, `DuplicateName` where there is a file with that name, `NoSpace` where no
    /// empty area is so long, `DirectoryFull` where the segment has no room and each one is in use, `DeviceFault` where a transfer
    /// failed.
    pub fn create(&mut self, name: &RtName, length: u16, date: u16) -> Result<(), RtRefusal>
        ensures answers { AnswersRt D.disk result self.old self.new }
        ensures went { Went (KeepsFiles (D.disk (volume_device self.old)))
            (D.disk (volume_device self.old)) (D.disk (volume_device self.new))
            70 (faults_in result) }
        ensures created { OnOk result (IsSoundDisk (D.disk (volume_device self.old))
            → CreatesFile name.now length date (D.disk (volume_device self.old)).image
            (D.disk (volume_device self.new)).image) }
        ensures refused { IfErr result (λ refusal. FailsToCreate refusal name.now length
            (D.disk (volume_device self.old))) }
        ensures kept { is_device_fault result ≡ false → OnErr result
            (Looked (D.disk (volume_device self.old)) (D.disk (volume_device self.new)) 64 0) }
    {
        if self.failed {
            return Err(RtRefusal::Failed);
        }
        let file = NewFile {
            name: name.words(),
            blocks: length,
            date,
        };
        self.last = None;
        let answer = create_file(&mut self.device, file);
        self.failed = is_device_fault(&answer);
        answer
    }

    /// Gives a file another name: its length, date, protection and place stay. A protected file is renamed, too. The block of its
    /// segment in which its name stands is written, or both, in ascending order, where its name stands in both, which is so in a directory of 2, 48 or 110
    /// extra bytes alone.
    ///
    /// # Errors
    ///
    /// `Failed` where an earlier call answered `DeviceFault`, `NoSuchFile` where there is no such file, `DuplicateName` where there is a file
    /// with the other name, also where that is the name it has, `DeviceFault` where a transfer failed.
    pub fn rename(&mut self, name: &RtName, other: &RtName) -> Result<(), RtRefusal>
        ensures answers { AnswersRt D.disk result self.old self.new }
        ensures went { Went (HasEntryChanged (renamed_entry other.now) name.now
            (D.disk (volume_device self.old))) (D.disk (volume_device self.old))
            (D.disk (volume_device self.new)) 126 (faults_in result) }
        ensures renamed { OnOk result (IsSoundDisk (D.disk (volume_device self.old))
            → RenamesFile name.now other.now (D.disk (volume_device self.old)).image
            (D.disk (volume_device self.new)).image) }
        ensures refused { IfErr result (λ refusal. FailsToRename refusal name.now other.now
            (D.disk (volume_device self.old))) }
        ensures kept { is_device_fault result ≡ false → OnErr result
            (Looked (D.disk (volume_device self.old)) (D.disk (volume_device self.new)) 124 0) }
    {
        if self.failed {
            return Err(RtRefusal::Failed);
        }
        self.last = None;
        let answer = rename_file(&mut self.device, name.words(), other.words());
        self.failed = is_device_fault(&answer);
        answer
    }

    /// Protects a file, so that it isn't deleted, or has it protected no more. It may be so already. The block of its segment in which
    /// its status word stands is written.
    ///
    /// # Errors
    ///
    /// `Failed` where an earlier call answered `DeviceFault`, `NoSuchFile` where there is no such file, `DeviceFault` where a transfer failed.
    pub fn protect(&mut self, name: &RtName, on: bool) -> Result<(), RtRefusal>
        ensures answers { AnswersRt D.disk result self.old self.new }
        ensures went { Went (HasEntryChanged (protected_entry on) name.now
            (D.disk (volume_device self.old))) (D.disk (volume_device self.old))
            (D.disk (volume_device self.new)) 63 (faults_in result) }
        ensures protected { OnOk result (IsSoundDisk (D.disk (volume_device self.old))
            → ProtectsFile on name.now (D.disk (volume_device self.old)).image
            (D.disk (volume_device self.new)).image) }
        ensures refused { IfErr result (λ refusal.
            FailsToFindFile refusal name.now (D.disk (volume_device self.old))) }
        ensures kept { is_device_fault result ≡ false → OnErr result
            (Looked (D.disk (volume_device self.old)) (D.disk (volume_device self.new)) 62 0) }
    {
        if self.failed {
            return Err(RtRefusal::Failed);
        }
        self.last = None;
        let answer = protect_file(&mut self.device, name.words(), on);
        self.failed = is_device_fault(&answer);
        answer
    }

    /// Deletes a file: its area becomes empty, and is joined with one empty neighbour on each side in its segment (profile). The two
    /// blocks of that segment alone are written, in ascending order.
    ///
    /// # Errors
    ///
    /// `Failed` where an earlier call answered `DeviceFault`, `NoSuchFile` where there is no such file, `Protected` where it is
    /// protected, `DeviceFault` where a transfer failed.
    pub fn delete(&mut self, name: &RtName) -> Result<(), RtRefusal>
        ensures answers { AnswersRt D.disk result self.old self.new }
        ensures went { Went (KeepsFiles (D.disk (volume_device self.old)))
            (D.disk (volume_device self.old)) (D.disk (volume_device self.new))
            64 (faults_in result) }
        ensures deleted { OnOk result (IsSoundDisk (D.disk (volume_device self.old))
            → DeletesFile name.now (D.disk (volume_device self.old)).image
            (D.disk (volume_device self.new)).image) }
        ensures refused { IfErr result (λ refusal.
            FailsToDelete refusal name.now (D.disk (volume_device self.old))) }
        ensures kept { is_device_fault result ≡ false → OnErr result
            (Looked (D.disk (volume_device self.old)) (D.disk (volume_device self.new)) 62 0) }
    {
        if self.failed {
            return Err(RtRefusal::Failed);
        }
        self.last = None;
        let answer = delete_file(&mut self.device, name.words());
        self.failed = is_device_fault(&answer);
        answer
    }
}
