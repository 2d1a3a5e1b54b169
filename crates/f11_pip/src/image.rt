//! Images that words of the command line name: opened, made, and closed.
use crate::outcome::Failure;
use crate::remarks::{Remark, Why, opened, tell, unmade, unopened};
use f11_dev::{CannotOpen, Fault, FileImage};
use f11_read_ahead::ReadAhead;
use std::fs::{self, File, OpenOptions};
use std::io::ErrorKind;

/// An image that is only read. Where its blocks are read in order, more of them are read at once.
pub type ReadImage = ReadAhead<FileImage<File>>;

/// The image in the file under a word, which is opened for reading only.
pub fn image_of(rt: &HostRuntime, word: &str) -> Result<ReadImage, CannotOpen> {
    let file = FileImage::open_to_read(rt, word)?;
    Ok(ReadAhead::new(rt.alloc(), file))
}

/// The same, and where there is none, a remark why.
pub fn opened_to_read<'a>(
    rt: &HostRuntime,
    word: &'a str,
    remark: &mut Option<Remark<'a>>,
) -> Result<ReadImage, Failure> {
    let image = image_of(rt, word).map_err(|why| refused(rt, word, why, false));
    opened(image, word, remark)
}

/// The image that is copied from, in the file under a word, which is opened for reading only, and where there is none, a remark why. Its
/// blocks are read one by one.
pub fn opened_source<'a>(
    rt: &HostRuntime,
    word: &'a str,
    remark: &mut Option<Remark<'a>>,
) -> Result<FileImage<File>, Failure> {
    let image = FileImage::open_to_read(rt, word).map_err(|why| refused(rt, word, why, false));
    opened(image, word, remark)
}

/// The image in the file under a word, to be written, too, and where there is none, a remark why.
pub fn opened_to_write<'a>(
    rt: &HostRuntime,
    word: &'a str,
    remark: &mut Option<Remark<'a>>,
) -> Result<FileImage<File>, Failure> {
    let image = FileImage::open(rt, word).map_err(|why| refused(rt, word, why, true));
    opened(image, word, remark)
}

/// Why no image could be opened under a word, to be written or not. Where the cause isn't one of those that images tell it is asked of the
/// system once more.
fn refused(rt: &HostRuntime, word: &str, why: CannotOpen, writes: bool) -> Why {
    let mut options = OpenOptions::new();
    match why {
        CannotOpen::Refused => match options.read(true).write(writes).open(rt, word) {
            Ok(_) => Why::CannotOpen(why),
            Err(error) => unopened(error),
        },
        _ => Why::CannotOpen(why),
    }
}

/// An image file of so many blocks that is made, and where none could be, a remark why; one that is there then, and got no such length, is
/// told, too.
pub fn created<'a>(
    rt: &HostRuntime,
    word: &'a str,
    blocks: u32,
    remark: &mut Option<Remark<'a>>,
) -> Result<FileImage<File>, Failure> {
    let image = FileImage::create(rt, word, blocks).map_err(|why| unmade_image(rt, word, why));
    opened(image, word, remark)
}

/// Why no image could be made under a word. Where the cause isn't one of those that images tell it is asked of the system once more.
fn unmade_image(rt: &HostRuntime, word: &str, why: CannotOpen) -> Why {
    match why {
        CannotOpen::Missing => Why::NO_FOLDER,
        CannotOpen::Refused => match fs::metadata(rt, word) {
            Ok(file) if file.is_file() => Why::NO_LENGTH,
            Ok(_) => Why::CannotOpen(CannotOpen::Exists),
            Err(_) => never_made(rt, word),
        },
        _ => Why::CannotOpen(why),
    }
}

/// Why no file can be made under a word, where none is. One that is made after all is removed again.
fn never_made(rt: &HostRuntime, word: &str) -> Why {
    match OpenOptions::new()
        .write(true)
        .create_new(true)
        .open(rt, word)
    {
        Ok(_) => {
            let _ = fs::remove_file(rt, word);
            Why::NOT_MADE
        }
        Err(error) => unmade(error),
    }
}

/// Says which transfer of the image in a word failed, and why, where one did that was asked for, and closes it: it can be opened again.
pub fn tell_fault(rt: &HostRuntime, word: &str, image: FileImage<File>) {
    match image.fault() {
        Some(Fault::Read(lbn, error)) if error.kind() == ErrorKind::UnexpectedEof => {
            tell(rt, word, Why::EndsBefore(lbn));
        }
        // each block that was asked for was read by itself then
        Some(Fault::ReadRun(_, _)) | None => {}
        Some(fault) => tell(rt, word, Why::Fault(fault)),
    }
}

/// The same of one that was only read.
pub fn tell_read_fault(rt: &HostRuntime, word: &str, image: ReadImage) {
    tell_fault(rt, word, image.into_inner());
}
