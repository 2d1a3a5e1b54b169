//! The commands on files of the host: which files they open, and how.
ghost use Rattle.std.specs.Prelude.{◌≡◌};
ghost use Rattle.f11_commands.specs.FoundFile.{reader_of};
ghost use Rattle.f11_commands.specs.OpenEnd.{mode_of as mode_by_header};
ghost use Rattle.f11_pip.specs.Taking.{mode_taken};

use crate::heard::Heard;
use crate::host_file::HostFile;
use crate::image::{
    ReadImage, image_of, opened_to_read, opened_to_write, tell_fault, tell_read_fault,
};
use crate::meant::get_meant;
use crate::outcome::Failure;
use crate::refusals::{self, NO_SUCH_ENTRY, of_finding, of_making};
use crate::remarks::{self, Remark, Why, opened};
use crate::sources::Source;
use crate::volumes::judged;
use f11_actions::{found_name, next_name};
use f11_commands::f11_catalog::LineForm;
use f11_commands::f11_flx::CopyMode;
use f11_commands::f11_rad50::Name;
use f11_commands::{
    Answer, FileAnswer, FoundFile, PutFailure, Putting, Served, print_ls, print_put, refuse_names,
    seek_file, to_last_block, write_file,
};
use f11_patterns::OneName;
use f11_words::TakingMode;
use std::io::{self, Write};

/// A file of a volume, as the words name it: its image, its directory, and its name.
#[derive(Clone, Copy)]
pub struct Named<'a> {
    pub image: &'a str,
    /// Under which name the master file directory has it.
    pub directory: Name,
    pub name: &'a str,
}

/// How a file is taken out.
#[derive(Clone, Copy)]
pub struct Taking {
    pub mode: TakingMode,
    /// Up to its last block, whatever end it states.
    pub all_blocks: bool,
}

impl Taking {
    /// As what a file that was found is copied.
    pub fn mode_of(self, found: &FoundFile<ReadImage>) -> CopyMode
        ensures { result ≡ mode_taken self.mode (mode_by_header (reader_of found.now)) }
    {
        match self.mode {
            TakingMode::Copy(mode) => mode,
            TakingMode::Auto => found.mode(),
        }
    }
}

/// Takes a file out of a volume. A file of the host is made for it, where none is yet, once it is found. Where the name is a pattern that may
/// mean several, HOST is a folder.
pub fn get<'a, W: Write>(
    rt: &HostRuntime,
    file: &Named<'a>,
    taking: Taking,
    host: &'a str,
    writer: &mut W,
    remark: &mut Option<Remark<'a>>,
) -> Result<Answer, Failure> {
    let Some(named) = OneName::of(file.name.as_bytes()) else {
        return get_meant(rt, file, taking, host, writer, remark);
    };
    let mut device = opened_to_read(rt, file.image, remark)?;
    let name = match found_name(rt.alloc(), &mut device, &file.directory, &named) {
        Ok(name) => name,
        Err(failure) => {
            tell_read_fault(rt, file.image, device);
            return Err(Failure::from(failure));
        }
    };
    let served = match seek(rt, file, &name, device, writer) {
        Ok(Ok(found)) => {
            tell_found(rt, file.image, &found, taking);
            let mode = taking.mode_of(&found);
            let lacks_lines = mode == CopyMode::Text && !found.has_lines();
            let found = as_far_as(rt, file.image, found, taking.all_blocks)?;
            let served = take_out(rt, found, file, mode, host, writer, remark)?;
            if lacks_lines && served.answer == Answer::Done {
                remarks::tell(rt, file.name, Why::NO_LINES);
            }
            served
        }
        Ok(Err((_device, served))) => served,
        Err((device, failure)) => {
            tell_read_fault(rt, file.image, device);
            return Err(Failure::from(failure));
        }
    };
    Ok(judged(rt, file.image, served, remark))
}

/// Says of a file that was found whether its slot is out of use, and whether it states no end since it was open when the system stopped.
pub fn tell_found(rt: &HostRuntime, word: &str, found: &FoundFile<ReadImage>, taking: Taking) {
    if !found.is_in_use() {
        remarks::tell(rt, word, Why::UNUSED);
    }
    if found.was_left_open() && !taking.all_blocks {
        remarks::tell(rt, word, Why::LEFT_OPEN);
    }
}

/// The file of a volume that was found, or why none was, which is told.
pub type Sought = Result<
    Result<FoundFile<ReadImage>, (ReadImage, Served)>,
    (ReadImage, f11_commands::Failure),
>;

/// Seeks a file on a volume.
fn seek<W: Write>(
    rt: &HostRuntime,
    file: &Named<'_>,
    name: &Name,
    device: ReadImage,
    writer: &mut W,
) -> Sought {
    let mut heard = Heard::new(writer, None);
    let sought = seek_file(rt.alloc(), device, &mut heard, &file.directory, name);
    if let Some(line) = heard.refusal() {
        if !is_directory_missing(rt, file, line) {
            if line == NO_SUCH_ENTRY {
                remarks::tell(rt, file.name, Why::NOT_THERE);
            } else {
                refusals::tell(rt, of_finding(line, file.name));
            }
        }
    }
    sought
}

/// The file up to the end that it states, or up to its last block.
pub fn as_far_as(
    rt: &HostRuntime,
    image: &str,
    found: FoundFile<ReadImage>,
    all_blocks: bool,
) -> Result<FoundFile<ReadImage>, Failure> {
    if !all_blocks {
        return Ok(found);
    }
    match to_last_block(found) {
        Ok(found) => Ok(found),
        Err(device) => {
            tell_read_fault(rt, image, device);
            Err(Failure::DeviceFault)
        }
    }
}

/// Makes a file of the host, and writes a file that was found to it. Where that fails with nothing written, what was made is removed again.
fn take_out<'a, W: Write>(
    rt: &HostRuntime,
    found: FoundFile<ReadImage>,
    from: &Named<'_>,
    mode: CopyMode,
    host: &'a str,
    writer: &mut W,
    remark: &mut Option<Remark<'a>>,
) -> Result<Served, Failure> {
    let mut file = made(rt, host, remark)?;
    let (device, served) = write_file(found, None, mode, &mut file, writer);
    tell_read_fault(rt, from.image, device);
    if !matches!(
        served,
        Ok(Served {
            answer: Answer::Done,
            ..
        },)
    ) {
        let (stays, failure) = given_up(rt, file, host);
        if let Some(error) = failure {
            *remark = Some(remarks::of_unwritten(host, error));
        }
        if served.is_ok() && mode == CopyMode::Text {
            remarks::tell(rt, from.name, Why::NO_RECORDS);
            if stays {
                remarks::tell(rt, host, Why::BEGINNING);
            }
        }
    }
    Ok(served?)
}

/// Gives up a file of the host of which not all was written: where it has no byte it is removed again. Whether it stays, and why it took no
/// more, if it didn't.
pub fn given_up(rt: &HostRuntime, file: HostFile, path: &str) -> (bool, Option<io::Error>) {
    let mut file = file;
    let _ = file.end();
    let failure = file.failure();
    (file.give_up(rt, path), failure)
}

/// A file of the host that is made for one of a volume.
pub fn made<'a>(
    rt: &HostRuntime,
    host: &'a str,
    remark: &mut Option<Remark<'a>>,
) -> Result<HostFile, Failure> {
    opened(
        HostFile::new(rt, host)?.map_err(remarks::unmade),
        host,
        remark,
    )
}

/// Makes a file on a volume with the bytes or the lines of a file of the host, which is opened first, twice: a text is read to its end before
/// the file is made. Of a name without a version it is the next one of those that the directory has, which is told.
pub fn put<'a, W: Write>(
    rt: &HostRuntime,
    file: &Named<'a>,
    mode: CopyMode,
    host: &'a str,
    writer: &mut W,
    remark: &mut Option<Remark<'a>>,
) -> Result<Answer, Failure> {
    let Some(named) = OneName::of(file.name.as_bytes()) else {
        *remark = Some(remarks::of_name(file.name));
        return Ok(refuse_names(writer)?);
    };
    let mut source = Source::open(rt, mode, host, remark)?;
    let mut device = opened_to_write(rt, file.image, remark)?;
    let name = match next_name(rt.alloc(), &mut device, &file.directory, &named) {
        Ok(name) => name,
        Err(failure) => {
            tell_fault(rt, file.image, device);
            return Err(Failure::from(failure));
        }
    };
    let putting = Putting {
        directory: file.directory,
        name,
        mode,
        blocks: source.blocks,
    };
    let mut heard = Heard::new(writer, None);
    let (device, told) = print_put(
        rt.alloc(),
        device,
        &putting,
        &mut source.first,
        &mut source.again,
        source.bytes,
        &mut heard,
    );
    tell_fault(rt, file.image, device);
    if told == Ok(FileAnswer::Done) {
        if let OneName::Highest(_) = named {
            tell_next(rt, file.name, &name);
        }
        tell_nuls(rt, mode, host, &source);
    }
    if let Some(line) = heard.refusal() {
        if is_last(&named, line) {
            remarks::tell(rt, file.name, Why::LAST_VERSION);
        } else {
            tell_unmade(rt, file, mode, host, source.bytes, line);
        }
    }
    put_answer(rt, file.image, host, told, remark)
}

/// Says which name a file got that was put under a word without a version.
fn tell_next(rt: &HostRuntime, word: &str, name: &Name) {
    let _ = eprintln!(rt; "{word}: put as {name}");
}

/// Says how many bytes of 0 a file of the host has, of which a text was made.
pub fn tell_nuls(rt: &HostRuntime, mode: CopyMode, host: &str, source: &Source) {
    let nuls = source.first.nuls;
    if mode == CopyMode::Text && nuls != 0 {
        remarks::tell(rt, host, Why::NulsDropped(nuls));
    }
}

/// Whether a name of which no version is given was refused, by this line, since there is none behind the last.
fn is_last(named: &OneName, line: &str) -> bool {
    line == "no DuplicateName" && matches!(named, OneName::Highest(_))
}

/// Says why no file was made of one of the host with so many bytes, by the line that was written.
fn tell_unmade(
    rt: &HostRuntime,
    file: &Named<'_>,
    mode: CopyMode,
    host: &str,
    bytes: u64,
    line: &str,
) {
    if !is_directory_missing(rt, file, line) {
        tell_why(rt, file.image, file.name, mode, host, bytes, line);
    }
}

/// The same, where the directory is there.
pub fn tell_why(
    rt: &HostRuntime,
    image: &str,
    name: &str,
    mode: CopyMode,
    host: &str,
    bytes: u64,
    line: &str,
) {
    if line == "no NoHeader" && mode == CopyMode::Image {
        let headers = headers_of(bytes);
        let slots = headers.saturating_add(OTHER_SLOTS).max(16);
        remarks::tell(rt, image, Why::FewHeaders(headers, slots));
    } else {
        refusals::tell(rt, of_making(line, image, name, host));
    }
}

/// How many slots beside those of a file a fresh volume has to have: the volume's own five, and one of a directory that grows.
const OTHER_SLOTS: u64 = 6;

/// How many headers are asked for a file of so many bytes, as it is: one for each 102 blocks, and one of a file without blocks.
fn headers_of(bytes: u64) -> u64 {
    bytes.div_ceil(512 * 102).max(1)
}

/// Whether it is the directory of a file that wasn't found where this line was written: then it says so.
pub fn is_directory_missing(rt: &HostRuntime, file: &Named<'_>, line: &str) -> bool {
    let is_missing = line == NO_SUCH_ENTRY && lacks_directory(rt, file.image, file.directory);
    if is_missing {
        tell_no_directory(rt, file.directory);
    }
    is_missing
}

/// Says that there is no directory of this name.
pub fn tell_no_directory(rt: &HostRuntime, directory: Name) {
    let why =
        "the master file directory has no such directory; vfy tells whether one is lost, and mkdir makes one";
    let _ = eprintln!(rt; "{directory}: {why}");
}

/// Whether the master file directory of a volume doesn't name this directory, as listing it tells.
pub fn lacks_directory(rt: &HostRuntime, image: &str, directory: Name) -> bool {
    let Ok(device) = image_of(rt, image) else {
        return false;
    };
    let mut nowhere = io::sink();
    let mut heard = Heard::new(&mut nowhere, None);
    let _ = print_ls(
        rt.alloc(),
        device,
        &mut heard,
        LineForm::Short,
        Some(directory),
    );
    heard.refusal() == Some(NO_SUCH_ENTRY)
}

/// The answer of a command that puts a file of the host on a volume, and a remark on the image, or on the host's file where that couldn't
/// be read to its length.
pub fn put_answer<'a>(
    rt: &HostRuntime,
    image: &'a str,
    host: &'a str,
    told: Result<FileAnswer, PutFailure>,
    remark: &mut Option<Remark<'a>>,
) -> Result<Answer, Failure> {
    match told {
        Ok(answer) => Ok(ended(rt, image, answer, remark)),
        Err(failure) => {
            if failure == PutFailure::Unread {
                *remark = Some(Remark::of(host, Why::UNREAD));
            }
            Err(failure.into())
        }
    }
}

/// The answer of a command on a file of a volume, and a remark on its image where there is one.
pub fn ended<'a>(
    rt: &HostRuntime,
    image: &'a str,
    answer: FileAnswer,
    remark: &mut Option<Remark<'a>>,
) -> Answer {
    *remark = match answer {
        FileAnswer::Faulty(system) => Some(remarks::of_unserved(rt, image, system)),
        FileAnswer::Done | FileAnswer::Refused | FileAnswer::BothFaulty => {
            remarks::of_image(rt, image, None)
        }
    };
    answer.answer()
}
