//! What a refusal means to whoever asked for it, and which word of the command it is about.
use crate::remarks::{Remark, Why};
use f11_actions::{Action, Change};

/// The line that says that a directory has no record of a name.
pub const NO_SUCH_ENTRY: &str = "no NoSuchEntry";

/// Why a file on a Files-11 volume isn't found, or its directory, or its records can't be read, by the line that was written.
pub fn not_found(line: &str) -> Option<&'static str> {
    let why = match line {
        "no NoSuchEntry" => "no such file in that directory, or no such directory; ls lists them",
        "no NoSuchFile" => {
            "the record of that name, or its directory's, leads to no valid file header; vfy and get --all tell more"
        }
        "no NotDirectory" => {
            "what the master file directory has under the directory's name is no directory"
        }
        "no EndOfFile" => "it states an end past its last block; get takes out what is there",
        "no SystemFile" =>
            "files 1 to 3 are the volume's own and aren't copied; get takes them out",
        "no Marked" => "it, or its directory, is marked for delete; get takes it out",
        "no NoPrivilege" => {
            "its protection word, or its directory's, denies it to [1,1]; get takes it out"
        }
        "no BadRecord" => "its records can't be read as lines; --mode image takes all its bytes",
        "no LineTooLong" => "a record has more than 2048 bytes; --mode image takes all its bytes",
        _ => return None,
    };
    Some(why)
}

/// The same of the file of this name.
pub fn of_finding<'a>(line: &str, name: &'a str) -> Option<Remark<'a>> {
    not_found(line).map(|why| refused(name, why))
}

/// What there is to say where this pattern means nothing that something can be done to.
pub fn of_none<'a>(line: &str, change: Change, pattern: &'a str) -> Option<Remark<'a>> {
    if line == NO_SUCH_ENTRY {
        let why = match change {
            Change::Delete => {
                "it means no file of that directory, or only directories, which a pattern leaves out, or there is no such directory; ls lists them"
            }
            _ => "it means no file of that directory, or there is no such directory; ls lists them",
        };
        return Some(refused(pattern, why));
    }
    of_finding(line, pattern)
}

/// What there is to say of a refusal to make a file on the Files-11 volume of this image, under this name, of this source.
pub fn of_making<'a>(
    line: &str,
    image: &'a str,
    name: &'a str,
    source: &'a str,
) -> Option<Remark<'a>> {
    let (word, why) = match line {
        "no NoSuchEntry" => (image, "no such directory; mkdir makes one"),
        "no NoSuchFile" | "no Marked" | "no NotDirectory" | "no SystemFile" => (
            image,
            "what the master file directory has under the directory's name is no directory to write in",
        ),
        "no NoPrivilege" => (
            image,
            "the protection word of the directory denies it to [1,1]",
        ),
        "no DuplicateName" => (name, "the directory has a record of that name and version"),
        "no TooManySegments" => (
            source,
            "more than 26112 blocks, the most of a file that is put or copied: 256 headers, each for 102 at worst",
        ),
        "no DeviceFull" => (image, "fewer blocks are free than the file needs"),
        "no NoHeader" => (
            image,
            "it may need a file header for each 102 of its blocks, and fewer are free or can be had: delete files, or read docs/RECIPES.md, How many slots",
        ),
        "no LineTooLong" => {
            (
                source,
                "a line has more than 2048 bytes; --mode image takes all its bytes",
            )
        }
        _ => return None,
    };
    Some(refused(word, why))
}

/// Why a file can't be truncated.
const NO_END: &str =
    "it states no end, or it was open when the system stopped; get --blocks takes all its blocks; or its record names a file of another volume of a set";

/// What there is to say of a refusal to do something to a file of this name on the volume of this image, which was to get a new name.
pub fn of_action<'a>(
    refusal: &str,
    action: &Action,
    image: &'a str,
    name: &'a str,
    new: &'a str,
) -> Option<Remark<'a>> {
    match (refusal, action) {
        ("BadArgument", Action::Truncate { .. }) => Some(refused(name, NO_END)),
        ("BadArgument", Action::Rename { .. }) => {
            Some(refused(
                name,
                "its own header says that it is a directory, and NEW isn't one's name, or the other way round; or it is to go into itself; or its record names a file of another volume of a set",
            ))
        }
        _ => of_any(refusal, image, name, new),
    }
}

/// The same of something that is done to each file of some, of which this one is refused.
pub fn of_change<'a>(
    refusal: &str,
    change: Change,
    image: &'a str,
    word: &'a str,
) -> Option<Remark<'a>> {
    match (refusal, change) {
        ("BadArgument", Change::Truncate) => Some(refused(word, NO_END)),
        ("Marked", Change::Purge) => {
            Some(refused(
                word,
                "the file of its highest version, or the directory, is marked for delete, so this one stays; del deletes it",
            ))
        }
        ("BadArgument", Change::Purge) => {
            Some(refused(
                word,
                "its highest version was open when the system stopped, so this one stays; or a record names a file of another volume of a set",
            ))
        }
        ("NoSuchFile", Change::Purge) => Some(refused(
            word,
            "the record of its highest version, or of the directory, leads to no file, so this one stays; del removes such a name",
        )),
        _ => of_any(refusal, image, word, word),
    }
}

/// The same of anything that is done to a file.
fn of_any<'a>(refusal: &str, image: &'a str, name: &'a str, new: &'a str) -> Option<Remark<'a>> {
    let (word, why) = match refusal {
        "NoSuchEntry" => (
            name,
            "no such file in that directory, or no such directory; ls lists them",
        ),
        "NoSuchFile" => (
            name,
            "the record of that name, or its directory's, leads to no file; del removes such a name",
        ),
        "NotDirectory" => (
            image,
            "what the master file directory has under the directory's name is no directory",
        ),
        "SystemFile" => (name, "files 1 to 5 are the volume's own"),
        "BadArgument" => (name, "its record names a file of another volume of a set"),
        "NotEmpty" => (
            name,
            "it is a directory that has records, and the files that these name would be in none then",
        ),
        "Marked" => (
            name,
            "it, or its directory, is marked for delete; del deletes it",
        ),
        "NoPrivilege" => (
            name,
            "its protection word, or its directory's, denies it to [1,1]; prot IMAGE DIR NAME WORD gives a file another, and a directory one as a file of 0,0",
        ),
        "DuplicateName" => (
            new,
            "the directory has a record of that name and version, which may be of the same file, where a ren was stopped; else give another version, as ;2",
        ),
        "TooManySegments" | "DeviceFull" | "NoHeader" => (
            image,
            "the directory needs one block more, and it, or the file header for it, can't be had",
        ),
        _ => return None,
    };
    Some(refused(word, why))
}

/// What there is to say of a refusal to make a directory on the volume of this image.
pub fn of_making_directory<'a>(refusal: &str, image: &'a str) -> Option<Remark<'a>> {
    let why = match refusal {
        "DuplicateName" => {
            "the master file directory has a record of that name; ls IMAGE 0,0 lists them, and prot gives it a protection word"
        }
        "NoPrivilege" => "the protection word of the master file directory denies it to [1,1]",
        "NotDirectory" | "Marked" => "its master file directory is none that can be written",
        "NoHeader" => {
            "a directory needs a file header, and none is free or can be had: delete files, or read docs/RECIPES.md, How many slots"
        }
        "TooManySegments" | "DeviceFull" => {
            "the master file directory needs one block more, and it, or the file header for it, can't be had"
        }
        _ => return None,
    };
    Some(refused(image, why))
}

/// What there is to say of a refusal of the RT-11 volume of this image, where a file of this name was looked for, or to be made.
pub fn of_rt<'a>(line: &str, image: &'a str, name: &'a str) -> Option<Remark<'a>> {
    let (word, why) = match line {
        "no NoSuchFile" => (
            name,
            "no file of that name; rt-ls lists those that there are",
        ),
        "no DuplicateName" => (name, "the volume has a file of that name"),
        "no Protected" => (
            name,
            "protected, so that it isn't deleted; rt-prot --off has it protected no more",
        ),
        "no NoSpace" => (
            image,
            "no empty area is as long as the file; rt-list lists them",
        ),
        "no DirectoryFull" => (
            image,
            "its directory has no room for one file more; rt-del makes some, and rt-init more with --segments",
        ),
        _ => return None,
    };
    Some(refused(word, why))
}

/// The same where it was to get another name.
pub fn of_rt_renaming<'a>(
    line: &str,
    image: &'a str,
    name: &'a str,
    new: &'a str,
) -> Option<Remark<'a>> {
    let word = if line == "no DuplicateName" {
        new
    } else {
        name
    };
    of_rt(line, image, word)
}

/// What there is to say where files aren't copied to the RT-11 volume of this image, the last of them, of this name, for this cause.
pub fn of_rt_copying<'a>(refusal: &str, image: &'a str, name: &'a str) -> Option<Remark<'a>> {
    let (word, why) = match refusal {
        "DuplicateName" => (
            name,
            "the volume that is copied to has a file of that name, which may be the first of several; rt-ren gives one another",
        ),
        "NoSpace" => (
            image,
            "no empty area is as long as a file that isn't copied; rt-list lists them",
        ),
        "DirectoryFull" => (
            image,
            "its directory has no room for one file more; without --onto the fresh volume has as many segments as the files need",
        ),
        _ => return None,
    };
    Some(refused(word, why))
}

/// What it means that a line of a script is answered so.
pub fn of_request(line: &str) -> Option<&'static str> {
    let why = match line {
        "bad line" => {
            "a line is a task, 0 to 7, a user's code as [200,1], a verb in capitals and its arguments, with single spaces between them, each as docs/FORMATS.md has it at Scripts: a file as 6,1, a name as LOGIN.CMD;1, a number in digits alone"
        }
        "no VolumeFailed" => "an earlier request met a device fault, or damage",
        "no BadArgument" => "a file number, a VBN, or a number of blocks or slots is 0",
        "no NoSuchAccess" => "the task has no access by that lun, or none that writes",
        "no LunInUse" => "the task has an access by that lun already",
        "no SystemFile" => "files 1 to 3 are the volume's own, and 4 and 5 aren't deleted",
        "no NoSuchFile" => "no file has that number and sequence number",
        "no Marked" => "the file is marked for delete",
        "no NoPrivilege" => "the protection word, or the owner, denies it to that user",
        "no Conflict" => "an access stands against it",
        "no NotDirectory" => "the file is no directory",
        "no EndOfFile" => "the file has fewer blocks",
        "no NoSuchEntry" => "the directory has no record of that name",
        "no DuplicateName" => "the directory has a record of that name and version",
        "no NotEmpty" => "the file has blocks already",
        "no IndexLimit" => "there would be more slots than the volume may have; home shows its max",
        "no TooManySegments" => "a file would have more than 256 headers",
        "no DeviceFull" => "fewer blocks are free than are needed",
        "no NoHeader" => "fewer file headers are free than are needed, and no more could be made",
        "no NoRun" => "nowhere so many free blocks follow one another",
        "no NoMemory" => "no memory was left",
        "no DeviceFault" => "a transfer of a block failed",
        "no Damaged" => "the volume's structure was met broken",
        _ => return None,
    };
    Some(why)
}

fn refused<'a>(word: &'a str, why: &'static str) -> Remark<'a> {
    Remark::of(word, Why::Said(why))
}

/// Says it on standard error, if there is something to say.
pub fn tell(rt: &HostRuntime, remark: Option<Remark<'_>>) {
    if let Some(remark) = remark {
        let _ = eprintln!(rt; "{remark}");
    }
}
