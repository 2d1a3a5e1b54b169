//! What is told of the files that may be moved.
ghost use Rattle.std.specs.Prelude.{◌≡◌, ◌+◌, ◌*◌, ◌<◌, ◌-◌, ◌++◌, ◌∷◌, [], All, Some, option_map, IfErr, IfOk, IfSome, IsTrue, false, OnOk, filter, length, slice_index};
ghost use Rattle.f11_dev.specs.Looked.{Looked};
ghost use Rattle.rt11_volume.specs.AnyDirectory.{directory_entries, is_sound_file_named};
ghost use Rattle.rt11_volume.specs.Files.{faults_in, is_fault};
ghost use Rattle.rt11_volume.specs.RtName.{IsRtName};
ghost use Rattle.rt11_volume.specs.Segment.{words_in};
ghost use Rattle.rt11_squeeze.specs.Telling.{FailsToTell, IsMovable, IsUndated, TellsAll, TellsEntries, TellsEntry, TellsFile, TellsFiles, as_list, date_in, date_told, entry_to_move, scratch_of, single};

use crate::moving::FileToMove;
use f11_bytes::{BLOCK_SIZE, Block, NoMemory, read_word};
use f11_dev::Device;
use rt11_volume::{LookFault, RtEntry, RtName, RtRefusal, RtSurvey, survey};
use std::alloc::Global;

/// The type of a copy's name, `SQZ` in Radix-50.
const SCRATCH_TYPE: u16 = 31_106;

/// The type of a file that covers bad blocks, `BAD` in Radix-50.
const BAD_TYPE: u16 = 3_244;

/// The entry of the file of a name, where there is one and no more.
fn only(entries: &[RtEntry], name: &RtName) -> Option<RtEntry>
    ensures { result ≡ single (filter (is_sound_file_named name.now) entries.now) }
{
    let mut found: Option<RtEntry> = None;
    for i in 0..entries.len() {
        let entry = entries[i];
        if entry.is_sound_file_named(name) {
            if found.is_some() {
                return None;
            }
            found = Some(entry);
        }
    }
    found
}

/// Word `at` of a segment's two blocks, and 0 past their end.
fn word_of(low: &Block, high: &Block, at: usize) -> u16
    ensures { result ≡ slice_index (words_in (low.now ++ high.now)) at }
{
    if at < 256 {
        read_word(low, 2 * at)
    } else if at < 512 {
        read_word(high, 2 * (at - 256))
    } else {
        0
    }
}

/// The date of an entry, from 0, of a segment with these two blocks.
fn date_of(low: &Block, high: &Block, i: u16) -> u16
    ensures { result ≡ date_in (words_in (low.now ++ high.now)) i }
{
    let extra = usize::from(word_of(low, high, 3));
    word_of(low, high, 5 + usize::from(i) * (7 + extra / 2) + 6)
}

/// Reads the date of an entry, a word as RT-11 keeps it, by two transfers: 0 where its segment isn't on the device.
///
/// # Errors
///
/// `DeviceFault` where a transfer failed.
pub fn read_date<D: Device>(device: &mut D, entry: &RtEntry) -> Result<u16, RtRefusal>
    ensures looked { Looked (D.disk device.old) (D.disk device.new) 2 (faults_in result) }
    ensures read { IfOk result (λ date. IsTrue (D.disk device.old).honest
        → 4 + 2 * entry.now.segment + 1 < length (D.disk device.old).image
        → date ≡ date_told (D.disk device.old).image entry.now) }
    ensures why { IfErr result (λ e. e ≡ RtRefusal.DeviceFault) }
{
    let lbn = 4 + 2 * u32::from(entry.segment);
    if lbn + 1 >= device.blocks() {
        return Ok(0);
    }
    let mut low = [0; BLOCK_SIZE];
    let mut high = [0; BLOCK_SIZE];
    match device.read(lbn, &mut low) {
        Ok(()) => {}
        Err(_) => return Err(RtRefusal::DeviceFault),
    }
    match device.read(lbn + 1, &mut high) {
        Ok(()) => Ok(date_of(&low, &high, entry.number.saturating_sub(1))),
        Err(_) => Err(RtRefusal::DeviceFault),
    }
}

/// The name that the copy of a file has, where the file may be moved.
fn scratch_name(words: [u16; 3]) -> Option<RtName>
    ensures of { IfSome result (λ scratch. scratch ≡ scratch_of words) }
    ensures exact { IsRtName words → result ≡ Some (scratch_of words) }
{
    let [first, second, _] = words;
    RtName::from_words([first, second, SCRATCH_TYPE])
}

/// The one file of an entry's name, without its date, and the entry that it has, where it may be moved.
fn undated(entries: &[RtEntry], entry: &RtEntry) -> Option<(RtEntry, FileToMove)>
    ensures undated { IfSome result (λ found. IsUndated entries.now found.0 found.1) }
    ensures movable { IfSome result (λ found. IsMovable found.1) }
    ensures named { IfSome result (λ found. entry.now.name ≡ Some found.1.name) }
    ensures exact { option_map (λ found. found.0) result ≡ entry_to_move entries.now entry.now }
{
    if !entry.is_sound_file() {
        return None;
    }
    let words = entry.name?.words();
    let [_, _, kind] = words;
    if kind == BAD_TYPE {
        return None;
    }
    let name = RtName::from_words(words)?;
    let scratch = scratch_name(words)?;
    let file = only(entries, &name)?;
    let told = FileToMove {
        name,
        scratch,
        blocks: file.blocks,
        date: 0,
        protected: file.protected,
    };
    Some((file, told))
}

/// The file of an entry's name, where it may be moved.
fn told_entry<D: Device>(
    device: &mut D,
    entries: &[RtEntry],
    entry: &RtEntry,
) -> Result<Option<FileToMove>, RtRefusal>
    ensures looked { Looked (D.disk device.old) (D.disk device.new) 2 (faults_in result) }
    ensures tells { IfOk result (λ found. IfSome found
        (TellsFile entries.now (D.disk device.old))) }
    ensures exact { IfOk result (TellsEntry entries.now entry.now (D.disk device.old)) }
    ensures why { IfErr result (λ e. e ≡ RtRefusal.DeviceFault) }
{
    let (file, undated) = match undated(entries, entry) {
        Some(found) => found,
        None => return Ok(None),
    };
    match read_date(device, &file) {
        Ok(date) => Ok(Some(FileToMove {
            name: undated.name,
            scratch: undated.scratch,
            blocks: undated.blocks,
            date,
            protected: undated.protected,
        })),
        Err(refusal) => Err(refusal),
    }
}

/// Adds a file, if there is one.
fn add_file(files: &mut Vec<FileToMove>, found: Option<FileToMove>) -> Result<(), NoMemory>
    ensures { OnOk result (files.new.items ≡ files.old.items ++ as_list found) }
{
    if let Some(file) = found {
        files.push(file)?;
    }
    Ok(())
}

/// The files of entries that may be moved, in their order.
fn told_all<D: Device>(
    alloc: Global,
    device: &mut D,
    entries: &[RtEntry],
) -> Result<Vec<FileToMove>, RtRefusal>
    ensures looked { Looked (D.disk device.old) (D.disk device.new) (2 * length entries.now)
        (faults_in result) }
    ensures tells { IfOk result (λ files. All (TellsFile entries.now (D.disk device.old))
        files.items) }
    ensures exact { IfOk result (λ files. TellsEntries entries.now (D.disk device.old)
        files.items) }
    ensures why { IfErr result (λ e. is_fault e ≡ false → e ≡ RtRefusal.NoMemory) }
{
    let mut files = Vec::new(alloc);
    for i in 0..entries.len() {
        let entry = entries[i];
        let found = match told_entry(device, entries, &entry) {
            Ok(found) => found,
            Err(refusal) => return Err(refusal),
        };
        match add_file(&mut files, found) {
            Ok(()) => {}
            Err(_) => return Err(RtRefusal::NoMemory),
        }
    }
    Ok(files)
}

/// The files of an RT-11 volume that may be moved, in the order of its directory, each as it is, and with the scratch name of its own name
/// and the type `SQZ`. Files of the type `BAD` may not, since they cover bad blocks, nor those of a name that several have (profile). The
/// directory is read, and the two blocks of a file's segment once more for its date. It takes memory for the directory and for the list.
///
/// # Errors
///
/// `DeviceFault` where a transfer failed, and `NoMemory` where there was no memory.
pub fn files_told<D: Device>(alloc: Global, device: &mut D) -> Result<Vec<FileToMove>, RtRefusal>
    ensures tells { IfOk result (λ files. TellsAll files.items
        (D.disk device.old) (D.disk device.new)) }
    ensures failed { IfErr result (λ e. FailsToTell e (D.disk device.old) (D.disk device.new)) }
{
    match survey(alloc, device) {
        Ok(RtSurvey::Read(_, entries)) => told_all(alloc, device, entries.as_slice()),
        Ok(RtSurvey::Unreadable(_, _)) => Ok(Vec::new(alloc)),
        Err(LookFault::DeviceFault) => Err(RtRefusal::DeviceFault),
        Err(LookFault::NoMemory) => Err(RtRefusal::NoMemory),
    }
}
