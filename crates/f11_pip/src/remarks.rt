//! What is said on standard error beside the lines that are fixed: which word is meant, and why.
use crate::image::{ReadImage, image_of};
use crate::outcome::Failure;
use crate::rt_folder;
use f11_commands::f11_layout::{InitParams, Layout, MOST_BLOCKS, is_label};
use f11_commands::{
    Answer, FileAnswer, RtServed, RtState, System, blocks_wanted, print_home, print_rt_ls,
    print_rt_vfy,
};
use f11_dev::{BLOCK_SIZE, CannotOpen, Device, Fault, MAX_BLOCKS};
use f11_salvage::RtTooSmall;
use std::env::{Env, FillError};
use std::fs::{self, File};
use std::io::{self, Read};
use thiserror::Error;

/// The bytes of the longest word in which is looked for some that are no text: those of the longest path.
const LONGEST: usize = 4096;

/// A word of the command line, and what there is to say of it.
#[derive(Clone, Copy, Debug, Error)]
#[error("{word}: {why}")]
pub struct Remark<'a> {
    pub word: Which<'a>,
    pub why: Why,
}

impl<'a> Remark<'a> {
    /// That there is this to say of this word.
    pub fn of(word: &'a str, why: Why) -> Remark<'a> {
        let word = if word.is_empty() { "''" } else { word };
        Remark {
            word: Which::Text(word),
            why,
        }
    }
}

/// Which word of the command line is meant.
#[derive(Clone, Copy, Debug, Error)]
pub enum Which<'a> {
    /// This one.
    #[error("{0}")]
    Text(&'a str),
    /// The one in this place behind the program's name, from 1.
    #[error("word {0}")]
    Place(usize),
    /// One that isn't known.
    #[error("a word")]
    Unknown,
}

/// What there is to say of a word.
#[derive(Clone, Copy, Debug, Error)]
pub enum Why {
    /// This.
    #[error("{0}")]
    Said(&'static str),
    /// No file can be opened, or made, under it.
    #[error("{0}")]
    CannotOpen(CannotOpen),
    /// The system doesn't let its file be opened, for this cause.
    #[error("cannot be opened: {0}")]
    NotOpened(io::Error),
    /// The system doesn't let its file, or its folder, be made, for this cause.
    #[error("cannot be made: {0}")]
    NotMade(io::Error),
    /// A transfer of its image failed.
    #[error("{0}")]
    Fault(Fault),
    /// Its file, which was longer when it was opened, ends before this block, which was to be read.
    #[error("block {0} cannot be read: the file ends before it")]
    EndsBefore(u32),
    /// Its file, which was made, took no more, and why.
    #[error("not written to its end: {0}")]
    NotWritten(io::Error),
    /// It is fewer blocks than a fresh volume with so many slots takes, which are so many.
    #[error("too few for so many slots, which take {0}")]
    TooFew(u32),
    /// An RT-11 volume has no room for all files of another, but with so many blocks and segments.
    #[error("no room for all files; --blocks {0} --segments {1} would do")]
    NoRoom(u32, u16),
    /// Fewer file headers are free on the volume in it than may be needed.
    #[error("it may need {0} file headers, and fewer are free or can be had: delete files, or take a fresh volume, init with --slots {1} or more")]
    FewHeaders(u64, u64),
    /// Its file begins as that of another program does, which packs what it keeps.
    #[error("{0}, not a raw image: unpack it first")]
    NotRaw(&'static str),
    /// The image of the volume in it ends early: how many blocks it should have, and how many bytes these are.
    #[error("the volume has faults, which vfy tells: its image ends early and should have {0} blocks; take out its files first, then truncate -s {1} puts zeros for what is missing")]
    CutShort(u32, u64),
    /// The same where its faults are told already.
    #[error("the image ends early and should have {0} blocks; take out its files first, then truncate -s {1} puts zeros for what is missing")]
    EndsEarly(u32, u64),
    /// So many bytes of 0 of its file aren't in the text that was made of it.
    #[error("{0} bytes of 0 were dropped, since they mean nothing in a text; --mode image takes all bytes as they are")]
    NulsDropped(u64),
    /// The RT-11 volume in it has faults, and its image ends early: how many blocks it should have, and how many bytes these are.
    #[error("the volume has faults, which rt-vfy tells: if the first blocks and lengths in its directory are right, its image ends early and should have {0} blocks; take out its files first, then truncate -s {1} puts zeros for what is missing")]
    RtCutShort(u32, u64),
    /// The RT-11 volume in it ends within its last empty area: how many blocks it should have, and how many bytes these are.
    #[error("it ends within its last empty area, so that no file is cut if the lengths in its directory are right: it should have {0} blocks, as truncate -s {1} makes it")]
    Short(u32, u64),
    /// Its file has so many bytes behind the last whole block.
    #[error("length not a multiple of 512 bytes, the rest of {0} is left out")]
    Remainder(u64),
}

impl Why {
    /// Its file couldn't be read to its length.
    pub const UNREAD: Why = Why::Said("cannot be read to its end");
    /// It is a folder, where a script is to be read.
    pub const FOLDER: Why = Why::Said("a folder");
    /// Its file, which was made, took no more.
    pub const UNWRITTEN: Why = Why::Said("not written to its end");
    /// It isn't text.
    pub const NOT_TEXT: Why = Why::Said("not UTF-8");
    /// It is the name of no file on a Files-11 volume.
    pub const NO_NAME: Why = Why::Said(
        "no name; one is in capitals, as LOGIN.CMD;1: up to 9 of A to Z, 0 to 9 and $, a dot, up to 3 more, at least one of all these, and an octal version, 1 to 77777",
    );
    /// Files of an RT-11 volume stay before which an empty area lies.
    pub const NOT_SQUEEZED: Why = Why::Said(
        "some files stay, since a file is copied before its old place is given up, and no empty area that serves for it is as long; rt-copy brings all together on a fresh volume, but without the boot block, and with bad blocks under other files",
    );
    /// So do some since the name of their copies is that of files.
    pub const COPY_THERE: Why = Why::Said(
        "some files stay: the copy of a file has the type SQZ while it is moved, and a file has that name, maybe since an rt-squeeze was stopped; rt-ren gives it another name",
    );
    /// It is no folder that is called as a directory.
    pub const NO_FOLDER_NAME: Why = Why::Said(
        "no folder that is called as a directory, [ggg,mmm] or [NAME]",
    );
    /// It is neither the name of a file on a Files-11 volume nor a pattern of such names.
    pub const NO_PATTERN: Why = Why::Said(
        "no name; one is as LOGIN.CMD;1: up to 9 of A to Z, 0 to 9 and $, a dot, up to 3 more, at least one of all these, and an octal version, 1 to 77777; without a version the highest is meant; * stands for any characters and % for one, and ;* for each version, as *.TXT;*",
    );
    /// It is no pattern of names without a version.
    pub const VERSION: Why = Why::Said(
        "no pattern of names without a version, as *.TXT or LOGIN.CMD; purge deletes all versions but the highest",
    );
    /// It is the name of no file on an RT-11 volume.
    pub const NO_RT_NAME: Why = Why::Said(
        "no name; one is in capitals, as LOGIN.CMD: 1 to 6 of A to Z, 0 to 9 and $, a dot and up to 3 more",
    );
    /// It is no command.
    pub const NO_COMMAND: Why = Why::Said("no command; f11_pip help lists them");
    /// Its file was made, and the system gave it no length: it stays.
    pub const NO_LENGTH: Why = Why::Said("the system gives it no such length; it stays, empty");
    /// Its file was made, and no volume in it: it stays.
    pub const ZEROS: Why = Why::Said("stays, all zeros; remove it first");
    /// A Files-11 volume was looked for, and it is an RT-11 volume.
    pub const OF_RT11: Why = Why::Said("an RT-11 volume: rt-vfy, rt-ls and rt-get serve it");
    /// An RT-11 volume was looked for, and it is a Files-11 volume.
    pub const OF_FILES11: Why = Why::Said("a Files-11 volume: vfy, ls and get serve it");
    /// It has no bytes.
    pub const EMPTY: Why = Why::Said("empty");
    /// It ends before the first block that may be a home block.
    pub const NO_BLOCK_1: Why = Why::Said(
        "ends before the end of block 1, where a home block lies",
    );
    /// No home block is in it, and it is no RT-11 volume either.
    pub const NO_HOME: Why = Why::Said(
        "no home block: no Files-11 volume, or one whose home block is bad, of which docs/VFY.md tells at F1",
    );
    /// Neither, but block 1 has what each home block has.
    pub const BAD_HOME: Why = Why::Said(
        "block 1 has the mark of a home block and isn't valid as one: its words are bad, or the image is cut; docs/VFY.md tells more at F1",
    );
    /// No directory of an RT-11 volume is in it, and no home block either.
    pub const NO_RT_DIRECTORY: Why = Why::Said(
        "block 6 doesn't begin a directory: no RT-11 volume, or one whose directory is bad, of which docs/VFY.md tells at R1",
    );
    /// The volume in it has faults.
    pub const FAULTY: Why = Why::Said(
        "the volume has faults: vfy tells them, and docs/VFY.md what to do",
    );
    /// The same, so that a command that writes, or asks for an accepted volume, did nothing.
    pub const UNSERVED: Why = Why::Said(
        "the volume has faults, so nothing was done: get --all takes out what can be read of its files, and docs/VFY.md tells what to do",
    );
    /// The same of an RT-11 volume.
    pub const RT_UNSERVED: Why = Why::Said(
        "the volume has faults, so nothing was done: rt-get --all takes out what can be read of its files, and docs/VFY.md tells what to do",
    );
    /// The file of the volume under this name has no records that can be read.
    pub const NO_RECORDS: Why = Why::Said(
        "its records can't be read as lines; --mode image takes all its bytes",
    );
    /// The records of the file in it that became lines have no carriage control.
    pub const NO_LINES: Why = Why::Said(
        "its records have no carriage control, so they may be no lines; each got an LF, and --mode image takes all bytes as they are",
    );
    /// Its file, which was made, has the text of the records before the one that can't be read.
    pub const BEGINNING: Why = Why::Said("has the lines of the records before that, and stays");
    /// A line of the RT-11 text of this name is too long.
    pub const LONG_RT_LINE: Why = Why::Said(
        "a line, which CR LF ends and LF alone doesn't, has more than 2048 bytes; --mode image takes all its bytes",
    );
    /// The directory of the volume that was meant has no file of this name.
    pub const NOT_THERE: Why = Why::Said("no such file in that directory; ls lists those that are");
    /// The directory of the volume that was meant has no file whose name is one that this pattern means.
    pub const NONE_MEANT: Why = Why::Said(
        "it means no file of that directory; ls lists those that are",
    );
    /// It is a directory, a pipe, a device or the like, where a file is to be read.
    pub const NO_FILE: Why = Why::Said("no regular file");
    /// The folder of its file isn't there.
    pub const NO_FOLDER: Why = Why::Said("no such folder");
    /// The system doesn't let it be made, for a cause that isn't known.
    pub const NOT_MADE: Why = Why::Said("cannot be made");
    /// It is named as both images of a copy.
    pub const TWICE: Why = Why::Said(
        "named twice: a copy goes from one image to another; get and put go by a file",
    );
    /// A new file was to get the next version of it.
    pub const LAST_VERSION: Why = Why::Said(
        "the directory has a record of its version 77777, the last that there is",
    );
    /// It is none of a directory.
    pub const NO_DIRECTORY_NAME: Why = Why::Said(
        "a directory's name has the type DIR, and a character before it at least",
    );
    /// It is the name of a directory, or the name before is, and the other isn't.
    pub const OTHER_TYPE: Why = Why::Said(
        "a directory keeps the type DIR, and no other file gets it",
    );
    /// The bit of the slot of the file in it that is taken out is lost.
    pub const UNUSED: Why = Why::Said(
        "the file's slot is out of use: if the volume was written since, its blocks may be another file's",
    );
    /// The file in it that is taken out was open when the system stopped, and states no bytes.
    pub const LEFT_OPEN: Why = Why::Said(
        "the file was open when the system stopped, and states that it has no bytes: --blocks takes what blocks it has",
    );
    /// The RT-11 volume in it has faults.
    pub const RT_FAULTY: Why = Why::Said(
        "the volume has faults: rt-vfy tells them, and docs/VFY.md what to do",
    );
    /// No RT-11 volume has room for all files of the one in it.
    pub const NEVER_ROOM: Why = Why::Said(
        "no RT-11 volume surely has room for all its files; rt-get --all takes them out",
    );
    /// Its file is longer than an image can be.
    pub const TOO_LONG: Why = Why::Said("longer than 16777216 blocks, the rest is left out");
}

/// What was opened, or made, under a word, and where nothing could be, a remark why.
pub fn opened<'a, T>(
    file: Result<T, Why>,
    word: &'a str,
    remark: &mut Option<Remark<'a>>,
) -> Result<T, Failure> {
    match file {
        Ok(file) => Ok(file),
        Err(why) => {
            *remark = Some(Remark::of(word, why));
            Err(Failure::CannotOpen)
        }
    }
}

/// What is said where the words can't be read, since one isn't text: the first such one.
pub fn of_words(rt: &HostRuntime) -> Remark<'static> {
    let word = match no_text(rt) {
        Some(place) => Which::Place(place),
        None => Which::Unknown,
    };
    Remark {
        word,
        why: Why::NOT_TEXT,
    }
}

/// The place of the first word that isn't text, of those that aren't longer than [`LONGEST`].
fn no_text(rt: &HostRuntime) -> Option<usize> {
    let mut bytes = [0; LONGEST];
    for place in 1..usize::MAX {
        match rt.arg(place, &mut bytes) {
            Ok(length) if str::from_utf8(&bytes[..length]).is_err() => return Some(place),
            Ok(_) | Err(FillError::TooLong) => {}
            Err(FillError::NotPresent) => return None,
        }
    }
    None
}

/// The limit of `init` that a parameter passed, where no volume of so many blocks can be made with these.
pub fn passed_by(blocks: u32, params: &InitParams<'_>) -> Remark<'static> {
    if blocks > MOST_BLOCKS {
        limit("--blocks", "at most 516096")
    } else if params.slots < 16 || params.slots > 16_000 {
        limit("--slots", "16 to 16000")
    } else if params.max_files < params.slots || params.max_files > 65_500 {
        limit("--max", "from --slots to 65500; 4000 where it isn't given")
    } else if !is_label(params.label) {
        limit("--label", "1 to 12 characters A to Z and 0 to 9")
    } else {
        Remark::of("--blocks", Why::TooFew(fewest(blocks, params)))
    }
}

/// With how many blocks a volume can be made with these parameters, of which so many are too few.
fn fewest(blocks: u32, params: &InitParams<'_>) -> u32 {
    for more in blocks..MOST_BLOCKS {
        if Layout::new(params, more).is_some() {
            return more;
        }
    }
    MOST_BLOCKS
}

/// The limit of `rt-init` that a parameter passed, where no volume can be made with so many segments.
pub fn passed_by_segments(segments: u16) -> Remark<'static> {
    if segments < 1 || segments > 31 {
        limit("--segments", "1 to 31")
    } else {
        limit("--blocks", "at least 7, and two more for each segment")
    }
}

/// Why a fresh volume has no room for all files of another, in these images, and of which size it would have.
pub fn of_small<'a>(why: RtTooSmall, old: &'a str, new: &'a str) -> Remark<'a> {
    match why {
        RtTooSmall::BadParameter => limit("--segments", "1 to 31"),
        RtTooSmall::Wants(size) => Remark::of(new, Why::NoRoom(size.blocks, size.segments)),
        RtTooSmall::Never => Remark::of(old, Why::NEVER_ROOM),
    }
}

fn limit(word: &'static str, limit: &'static str) -> Remark<'static> {
    Remark::of(word, Why::Said(limit))
}

/// What there is to say of the image of a volume that is served whether it has faults or not: that it has some, or is no raw image; and
/// where it has none, that not all of its file is read.
pub fn of_volume<'a>(rt: &HostRuntime, word: &'a str, is_faulty: bool) -> Option<Remark<'a>> {
    if is_faulty {
        let why = match of_other(rt, word, System::Files11) {
            Some(why) => why,
            None => match of_no_home(rt, word) {
                Some(why) => why,
                None => of_faults(rt, word),
            },
        };
        Some(Remark::of(word, why))
    } else {
        of_image(rt, word, None)
    }
}

/// That the file of the host under this name, which was made, took no more, and why.
pub fn of_unwritten(word: &str, error: io::Error) -> Remark<'_> {
    Remark::of(word, Why::NotWritten(error))
}

/// Says this of a word at once, where the command goes on.
pub fn tell(rt: &HostRuntime, word: &str, why: Why) {
    let remark = Remark::of(word, why);
    let _ = eprintln!(rt; "{remark}");
}

/// What there is to say of a volume that has faults: where its image ends early, how long it should be.
fn of_faults(rt: &HostRuntime, word: &str) -> Why {
    match wanted(rt, word) {
        Some(blocks) => Why::CutShort(blocks, bytes_of(blocks)),
        None => Why::FAULTY,
    }
}

/// How many blocks the image of a volume should have that ends early, if it does, as far as that can be read.
fn wanted(rt: &HostRuntime, word: &str) -> Option<u32> {
    let mut device = image_of(rt, word).ok()?;
    blocks_wanted(rt.alloc(), &mut device).ok()?
}

/// How many bytes so many blocks are.
fn bytes_of(blocks: u32) -> u64 {
    BLOCK_SIZE as u64 * u64::from(blocks)
}

/// The same of the image of an RT-11 volume, by how that is.
pub fn of_rt_volume<'a>(rt: &HostRuntime, word: &'a str, state: RtState) -> Option<Remark<'a>> {
    match state {
        RtState::Sound => of_image(rt, word, None),
        RtState::Short(blocks) => Some(Remark::of(word, Why::Short(blocks, bytes_of(blocks)))),
        RtState::Faulty => Some(Remark::of(word, of_rt_faults(rt, word))),
    }
}

/// Why no file could be opened under a word.
pub fn unopened(error: io::Error) -> Why {
    match CannotOpen::from(error) {
        CannotOpen::Refused => Why::NotOpened(error),
        why => Why::CannotOpen(why),
    }
}

/// Why no file, or folder, could be made under a word.
pub fn unmade(error: io::Error) -> Why {
    match CannotOpen::from(error) {
        CannotOpen::Missing => Why::NO_FOLDER,
        CannotOpen::Refused => Why::NotMade(error),
        why => Why::CannotOpen(why),
    }
}

/// What there is to say of an RT-11 volume that has faults: where its image ends early, how long it should be.
fn of_rt_faults(rt: &HostRuntime, word: &str) -> Why {
    match of_other(rt, word, System::Rt11) {
        Some(why) => why,
        None => match rt_folder::blocks_wanted(rt, word) {
            Some(blocks) => Why::RtCutShort(blocks, bytes_of(blocks)),
            None => Why::RT_FAULTY,
        },
    }
}

/// What there is to say of the file that a word names as an image: that it is something else, which is asked where a fault of this system's
/// volume was found, or that not all of it is read.
pub fn of_image<'a>(rt: &HostRuntime, word: &'a str, fault: Option<System>) -> Option<Remark<'a>> {
    let metadata = fs::metadata(rt, word).ok()?;
    if !metadata.is_file() {
        return None;
    }
    let other = match fault {
        Some(system) => of_other(rt, word, system),
        None => None,
    };
    let why = match other {
        Some(why) => Some(why),
        None => match of_frame(rt, word, fault) {
            Some(why) => Some(why),
            None => of_length(metadata.len()),
        },
    };
    why.map(|why| Remark::of(word, why))
}

/// What there is to say of an image in which a fault of this system's volume was found: that it has no home block, or directory, or how long
/// it should be.
fn of_frame(rt: &HostRuntime, word: &str, fault: Option<System>) -> Option<Why> {
    match fault {
        Some(System::Files11) => match of_no_home(rt, word) {
            Some(why) => Some(why),
            None => wanted(rt, word).map(|blocks| Why::EndsEarly(blocks, bytes_of(blocks))),
        },
        Some(System::Rt11) => of_no_directory(rt, word),
        None => None,
    }
}

/// What there is to say of an image whose volume has faults, so that a command for accepted volumes did nothing.
pub fn of_unserved<'a>(rt: &HostRuntime, word: &'a str, system: System) -> Remark<'a> {
    let why = match of_other(rt, word, system) {
        Some(why) => why,
        None => match system {
            System::Files11 => of_no_home(rt, word).unwrap_or(Why::UNSERVED),
            System::Rt11 => of_no_directory(rt, word).unwrap_or(Why::RT_UNSERVED),
        },
    };
    Remark::of(word, why)
}

/// What the file of an image is, if it is no volume of this system, but empty, no raw image, or a volume of the other system.
fn of_other(rt: &HostRuntime, word: &str, system: System) -> Option<Why> {
    let metadata = fs::metadata(rt, word).ok()?;
    if !metadata.is_file() {
        return None;
    }
    if metadata.len() == 0 {
        return Some(Why::EMPTY);
    }
    if let Some(what) = packed(beginning(rt, word)) {
        return Some(Why::NotRaw(what));
    }
    let mut device = image_of(rt, word).ok()?;
    match system {
        System::Files11 => match print_rt_vfy(rt.alloc(), device, &mut io::sink()) {
            (_, Ok(Answer::Done)) => Some(Why::OF_RT11),
            _ => None,
        },
        System::Rt11 => match print_home(&mut device, &mut io::sink()) {
            Ok(Answer::Done) => Some(Why::OF_FILES11),
            _ => None,
        },
    }
}

/// That no home block is in an image, if none is.
fn of_no_home(rt: &HostRuntime, word: &str) -> Option<Why> {
    let mut device = image_of(rt, word).ok()?;
    if device.blocks() < 2 {
        return Some(Why::NO_BLOCK_1);
    }
    match print_home(&mut device, &mut io::sink()) {
        Ok(Answer::Fault) if has_mark(&mut device) => Some(Why::BAD_HOME),
        Ok(Answer::Fault) => Some(Why::NO_HOME),
        _ => None,
    }
}

/// Whether block 1 says that its volume is a Files-11 one, as a home block does at H.INDF.
fn has_mark(device: &mut ReadImage) -> bool {
    let mut block = [0; BLOCK_SIZE];
    device.blocks() > 1
        && device.read(1, &mut block).is_ok()
        && block[496..506].starts_with(b"DECFILE11A")
}

/// That no directory of an RT-11 volume is in an image, if none is.
fn of_no_directory(rt: &HostRuntime, word: &str) -> Option<Why> {
    let device = image_of(rt, word).ok()?;
    match print_rt_ls(rt.alloc(), device, &mut io::sink()) {
        (
            _,
            Ok(
                RtServed {
                    answer: FileAnswer::Faulty(_),
                    ..
                },
            ),
        ) => Some(Why::NO_RT_DIRECTORY),
        _ => None,
    }
}

/// The first bytes of a file, zeros where it has fewer or can't be read.
fn beginning(rt: &HostRuntime, word: &str) -> [u8; 8] {
    let mut bytes = [0; 8];
    if let Ok(mut file) = File::open(rt, word) {
        let _ = file.read(&mut bytes);
    }
    bytes
}

/// What a file is that begins so, if it is one in which another program packs what it keeps.
fn packed(bytes: [u8; 8]) -> Option<&'static str> {
    match bytes {
        [0x1f, 0x8b, ..] => Some("a gzip file"),
        [b'P', b'K', 3, 4, ..] => Some("a zip archive"),
        [0xfd, b'7', b'z', b'X', b'Z', 0, ..] => Some("an xz file"),
        [b'B', b'Z', b'h', ..] => Some("a bzip2 file"),
        [b'I', b'M', b'D', b' ', ..] => Some("an ImageDisk file"),
        [b'T', b'D', ..] => Some("a TeleDisk file"),
        [b't', b'd', ..] => Some("a TeleDisk file"),
        [b'c', b'o', b'n', b'e', b'c', b't', b'i', b'x'] => Some("a dynamic VHD"),
        _ => None,
    }
}

/// What there is to say of a file of so many bytes.
fn of_length(bytes: u64) -> Option<Why> {
    if bytes / 512 > u64::from(MAX_BLOCKS) {
        Some(Why::TOO_LONG)
    } else if bytes % 512 != 0 {
        Some(Why::Remainder(bytes % 512))
    } else {
        None
    }
}

/// That a word names no file on a Files-11 volume.
pub fn of_name(word: &str) -> Remark<'_> {
    Remark::of(word, Why::NO_NAME)
}

/// That a word is neither the name of a file on a Files-11 volume nor a pattern of such names.
pub fn of_pattern(word: &str) -> Remark<'_> {
    Remark::of(word, Why::NO_PATTERN)
}

/// That a word is no pattern of names without a version.
pub fn of_purge(word: &str) -> Remark<'_> {
    Remark::of(word, Why::VERSION)
}

/// That a directory is to have a name that is none of a directory.
pub fn of_directory_name() -> Remark<'static> {
    Remark::of("DIR", Why::NO_DIRECTORY_NAME)
}

/// That a word is no new name, since it would make a directory of a file, or a file of a directory.
pub fn of_type(word: &str) -> Remark<'_> {
    Remark::of(word, Why::OTHER_TYPE)
}

/// That a word names no file on an RT-11 volume.
pub fn of_rt_name(word: &str) -> Remark<'_> {
    Remark::of(word, Why::NO_RT_NAME)
}

/// That the first word behind the program's name is no command, where there is one.
pub fn of_command(words: &[String]) -> Option<Remark<'_>> {
    of_unknown(words.get(1))
}

/// That a word is no command, where there is one.
pub fn of_unknown(word: Option<&String>) -> Option<Remark<'_>> {
    Some(Remark::of(word?.as_str(), Why::NO_COMMAND))
}
