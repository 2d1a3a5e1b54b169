//! Files of the host that are read, to be put on a volume: how they are opened, their length, and how many blocks they take.
use crate::host_file::PIECE;
use crate::outcome::Failure;
use crate::remarks::{self, Remark, Why, opened};
use f11_commands::f11_flx::{CopyMode, LONGEST_LINE};
use rt11_text::FromHost;
use std::fs::{self, File};
use std::io::{self, BufReader, Read};

/// A file of the host that is read for one of a volume, and counts the bytes of 0 in it.
#[derive(Drop)]
pub struct Counted {
    file: BufReader<File>,
    pub nuls: u64,
}

impl Read for Counted {
    fn read(&mut self, piece: &mut [u8]) -> io::Result<usize> {
        let count = self.file.read(piece)?;
        for byte in &piece[..count] {
            if *byte == 0 {
                self.nuls = self.nuls.saturating_add(1);
            }
        }
        Ok(count)
    }
}

/// A file of the host that is put on a Files-11 volume. A text is read to its end before the file is made: so it is opened twice.
#[derive(Drop)]
pub struct Source {
    pub first: Counted,
    pub again: Counted,
    /// Its length when it was opened.
    pub bytes: u64,
    /// How many blocks it takes at most.
    pub blocks: u64,
}

impl Source {
    /// The file under a word; and where it can't be read, a remark why.
    pub fn open<'a>(
        rt: &HostRuntime,
        mode: CopyMode,
        host: &'a str,
        remark: &mut Option<Remark<'a>>,
    ) -> Result<Source, Failure> {
        let (first, bytes) = opened_host(rt, host, remark)?;
        let blocks = most_blocks(rt, mode, bytes, host)?;
        let again = opened(
            File::open(rt, host).map_err(remarks::unopened),
            host,
            remark,
        )?;
        Ok(Source {
            first: with_count(rt, first)?,
            again: with_count(rt, again)?,
            bytes,
            blocks,
        })
    }
}

/// How many blocks a file of the host with so many bytes takes at most on a volume: as it is, or as the records of its lines. So many that no
/// file has them where it is a text that can't be read, or has a line that is too long.
fn most_blocks(rt: &HostRuntime, mode: CopyMode, bytes: u64, host: &str) -> Result<u64, Failure> {
    if mode == CopyMode::Image {
        return Ok(bytes.div_ceil(512));
    }
    let Ok(file) = File::open(rt, host) else {
        return Ok(u64::MAX);
    };
    let mut text = in_pieces(rt, file)?;
    match lines_of(&mut text, bytes) {
        Some(lines) => Ok(bytes.saturating_add(lines.saturating_mul(2)).div_ceil(512)),
        None => Ok(u64::MAX),
    }
}

/// How many lines a text of so many bytes has, with the last, which may lack its end: none where it can't be read, or a line has over 2,048
/// bytes, those of 0 and a CR before its end left out.
fn lines_of<R: Read>(text: &mut R, bytes: u64) -> Option<u64> {
    let longest = LONGEST_LINE as u64;
    let (mut lines, mut length, mut last) = (1_u64, 0_u64, 0);
    let mut byte = [0];
    for _ in 0..bytes {
        match text.read(&mut byte) {
            Ok(0) => break,
            Ok(_) => {}
            Err(_) => return None,
        }
        match byte[0] {
            0 => {}
            b'\n' => {
                if length > longest + u64::from(last == b'\r') {
                    return None;
                }
                (lines, length, last) = (lines.saturating_add(1), 0, 0);
            }
            other => (length, last) = (length.saturating_add(1), other),
        }
    }
    if length > longest { None } else { Some(lines) }
}

fn with_count(rt: &HostRuntime, file: File) -> Result<Counted, Failure> {
    let file = in_pieces(rt, file)?;
    Ok(Counted { file, nuls: 0 })
}

/// A file of the host that is read in pieces.
pub fn in_pieces(rt: &HostRuntime, file: File) -> Result<BufReader<File>, Failure> {
    BufReader::with_capacity(rt.alloc(), PIECE, file).map_err(|_| Failure::NoMemory)
}

/// How many bytes the text of a file of the host has, each of whose lines ends in CR LF.
pub fn lines_length<'a>(
    rt: &HostRuntime,
    host: &'a str,
    remark: &mut Option<Remark<'a>>,
) -> Result<u64, Failure> {
    let file = opened(
        File::open(rt, host).map_err(remarks::unopened),
        host,
        remark,
    )?;
    let text = FromHost::new(in_pieces(rt, file)?);
    let counted = io::copy(&mut text.take(MOST_COUNTED), &mut io::sink()).map_err(|_| Why::UNREAD);
    opened(counted, host, remark)
}

/// The most bytes that are counted of a file that says that it has none: one more than the largest volume has.
const MOST_COUNTED: u64 = 264_241_153;

/// A file of the host under a word, to be read, and how many bytes it has; and where it can't be, a remark why. What is no file isn't opened,
/// since opening a pipe may wait.
pub fn opened_host<'a>(
    rt: &HostRuntime,
    host: &'a str,
    remark: &mut Option<Remark<'a>>,
) -> Result<(File, u64), Failure> {
    let file = match fs::metadata(rt, host) {
        Ok(metadata) if !metadata.is_file() => Err(Why::NO_FILE),
        Ok(_) => with_length(rt, host),
        Err(error) => Err(remarks::unopened(error)),
    };
    opened(file, host, remark)
}

/// A file of the host, to be read, and how many bytes it has. One that says that it has none, as the files of /proc do, is read to its end to
/// count them, and opened again.
fn with_length(rt: &HostRuntime, path: &str) -> Result<(File, u64), Why> {
    let file = File::open(rt, path).map_err(remarks::unopened)?;
    let stated = file.metadata().map_err(remarks::unopened)?.len();
    if stated > 0 {
        return Ok((file, stated));
    }
    let counted = io::copy(&mut file.take(MOST_COUNTED), &mut io::sink()).map_err(|_| Why::UNREAD)?;
    let again = File::open(rt, path).map_err(remarks::unopened)?;
    Ok((again, counted))
}
