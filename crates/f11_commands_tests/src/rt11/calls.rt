//! Calls on the files of RT-11 volumes, made one after another from tables.
use f11_commands::{Answer, print_rt_list};
use f11_dev::{Device, DeviceFault, Memory};
use f11_fixtures::{SEVENS, lines, memory, put_words, text_of};
use rt11_volume::{BadName, RtAccepted, RtName, RtRefusal, RtReport, init, verify};
use std::alloc::Global;
use std::test::Fail;

/// A call on the file of a name; the number is the length of a new one, or the place of a block.
#[derive(Clone, Copy, Debug)]
pub enum Call {
    Create(u16),
    Delete,
    Find,
    List,
    Read(u16),
    Write(u16),
}

/// Makes a file.
pub fn create<D: Device>(
    volume: &mut RtAccepted<D>,
    name: &RtName,
    length: u16,
    date: u16,
) -> Result<(), RtRefusal> {
    volume.create(name, length, date)
}

/// Deletes a file.
pub fn delete<D: Device>(volume: &mut RtAccepted<D>, name: &RtName) -> Result<(), RtRefusal> {
    volume.delete(name)
}

/// Finds a file: its first block, and its length.
pub fn find<D: Device>(volume: &mut RtAccepted<D>, name: &RtName) -> Result<(u16, u16), RtRefusal> {
    volume.find(name)
}

/// Reads a block, which has to stay as it is where that is refused.
fn read<D: Device>(volume: &mut RtAccepted<D>, name: &RtName, place: u16) -> Result<(), RtRefusal> {
    let mut block = SEVENS;
    let done = volume.read(name, place, &mut block);
    if done.is_err() && block != SEVENS {
        return Ok(());
    }
    done
}

fn write<D: Device>(
    volume: &mut RtAccepted<D>,
    name: &RtName,
    place: u16,
) -> Result<(), RtRefusal> {
    volume.write(name, place, &SEVENS)
}

fn list<D: Device>(alloc: Global, volume: &mut RtAccepted<D>) -> Result<(), RtRefusal> {
    let _ = volume.list(alloc)?;
    Ok(())
}

fn found<D: Device>(volume: &mut RtAccepted<D>, name: &RtName) -> Result<(), RtRefusal> {
    let _ = find(volume, name)?;
    Ok(())
}

impl Call {
    /// Makes the call, and drops what it gives.
    pub fn make<D: Device>(
        &self,
        alloc: Global,
        volume: &mut RtAccepted<D>,
        name: &RtName,
    ) -> Result<(), RtRefusal> {
        match *self {
            Call::Create(length) => create(volume, name, length, 0),
            Call::Delete => delete(volume, name),
            Call::Find => found(volume, name),
            Call::List => list(alloc, volume),
            Call::Read(place) => read(volume, name, place),
            Call::Write(place) => write(volume, name, place),
        }
    }
}

/// A name.
pub fn named(text: &str) -> Result<RtName, BadName> {
    RtName::parse(text.as_bytes())
}

/// The name of file n.
pub fn numbered(n: u16) -> Result<RtName, BadName> {
    let mut text = *b"F000.TXT";
    for (i, by) in [100, 10, 1].into_iter().enumerate() {
        text[1 + i] = b'0' + (n / by % 10) as u8;
    }
    RtName::parse(&text)
}

/// The volume of a device, which has to be accepted.
pub fn accepted<D: Device + Drop>(alloc: Global, device: D) -> Result<RtAccepted<D>, DeviceFault> {
    match verify(alloc, device) {
        Ok(RtReport::Accepted(volume, _)) => Ok(volume),
        _ => Err(DeviceFault),
    }
}

/// The device of a volume with so many segments.
fn made(alloc: Global, blocks: u32, segments: u16) -> Result<Memory, Fail> {
    match init(memory(alloc, blocks)?, segments) {
        Ok(made) => Ok(made.device()),
        Err(_) => Err(DeviceFault)?,
    }
}

/// A fresh volume of so many blocks and segments, with so many extra bytes in each entry.
pub fn fresh(
    alloc: Global,
    blocks: u32,
    segments: u16,
    extra: u16,
) -> Result<RtAccepted<Memory>, Fail> {
    let mut device = made(alloc, blocks, segments)?;
    let end = 24 + usize::from(extra.min(128));
    put_words(&mut device, 6, &[(6, extra), (24, 0), (end, 0o4000)])?;
    Ok(accepted(alloc, device)?)
}

/// Whether a volume is accepted, and the lines of its list are these; it comes back.
pub fn lists(
    alloc: Global,
    volume: RtAccepted<Memory>,
    text: &[u8],
) -> Result<(RtAccepted<Memory>, bool), DeviceFault> {
    let mut lines = lines();
    let (device, answer) = print_rt_list(alloc, volume.device(), &mut lines);
    let is_list = answer == Ok(Answer::Done) && text_of(&lines) == text;
    Ok((accepted(alloc, device)?, is_list))
}

/// A call on the file of a name, its answer, and the lines of the list behind it.
pub type Row<'a> = (&'a str, Call, Result<(), RtRefusal>, &'a [u8]);

/// Makes the calls of rows one after another. The volume comes back, and the first row that isn't so.
pub fn go(
    alloc: Global,
    mut volume: RtAccepted<Memory>,
    rows: &[Row<'_>],
) -> Result<(RtAccepted<Memory>, Option<usize>), Fail> {
    for (i, (name, call, answer, text)) in rows.iter().enumerate() {
        let name = named(name)?;
        let is_answer = call.make(alloc, &mut volume, &name) == *answer;
        let (next, is_list) = lists(alloc, volume, text)?;
        volume = next;
        if !(is_answer && is_list) {
            return Ok((volume, Some(i)));
        }
    }
    Ok((volume, None))
}

/// Makes files of one block from number 0 on; the volume is accepted after each.
pub fn with_files(
    alloc: Global,
    mut volume: RtAccepted<Memory>,
    files: u16,
) -> Result<RtAccepted<Memory>, Fail> {
    for n in 0..files {
        create(&mut volume, &numbered(n)?, 1, 0)?;
        volume = accepted(alloc, volume.device())?;
    }
    Ok(volume)
}
