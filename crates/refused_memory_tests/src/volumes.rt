//! Volumes, and the names of RT-11 files.
use f11_bytes::NoMemory;
use f11_commands::f11_catalog::LineForm;
use f11_commands::{Answer, Failure, Served, print_ls, print_rt_list, print_rt_vfy, print_vfy};
use f11_dev::{DeviceFault, Memory};
use f11_fixtures::{
    Lines, are_found, file, has_words, keep, lines, linked, memory, put_words, rt_volumes, text_of,
    volumes,
};
use f11_vfy::{Accepted, Report, VfyError, reclaim, verify};
use rt11_volume::{RtAccepted, RtArea, RtKind, RtName, RtRefusal, RtReport, RtVfyError};
use std::alloc::Global;
use std::test::Fail;

/// A volume where header 5 names block 30, past the end, block 21 is free and 22 lost; of the directory record 2 has no name, and
/// record 4 that of record 0, for no file.
fn faulty(alloc: Global) -> Result<Memory, Fail> {
    let mut device = volumes::fresh(alloc, volumes::BLOCKS)?;
    let header = linked(file(5, 5), 0, file(0, 0), &[(30, 0)]);
    keep(&mut device, 7, &header)?;
    put_words(&mut device, 20, &[(2, 0xa0)])?;
    put_words(&mut device, 21, &[(38, 0), (40, 0), (44, 0)])?;
    put_words(&mut device, 21, &[(64, 9), (70, 14964), (72, 8966)])?;
    Ok(device)
}

/// What `verify` gives.
pub type Verified = Result<Report<Memory>, VfyError<Memory>>;

fn once(alloc: Global, device: Memory) -> Verified {
    verify(alloc, device)
}

/// Verifies a volume, once more where there was no memory.
pub fn verified(alloc: Global, device: Memory) -> Verified {
    match once(alloc, device) {
        Err(VfyError::NoMemory(device)) => once(alloc, device),
        done => done,
    }
}

#[test]
fn a_volume_is_verified(rt: HostRuntime) -> Result<(), Fail> {
    let device = faulty(rt.alloc())?;
    let Ok(Report::Faulty(_, faults, notes)) = verified(rt.alloc(), device) else {
        return Err(DeviceFault)?;
    };
    assert!(rt; are_found(&faults, &[(8, 5, 0), (10, 21, 0)]));
    let wanted = [(1, 22, 22), (6, 5, 0), (7, 4, 4), (8, 4, 4), (9, 4, 2)];
    assert!(rt; are_found(&notes, &wanted));
    Ok(())
}

/// Reclaims an accepted volume, once more where there was no memory, and gives its device.
fn reclaimed(alloc: Global, volume: Accepted<Memory>) -> Result<Memory, DeviceFault> {
    match reclaim(alloc, volume) {
        Ok(volume) => Ok(volume.device()),
        Err(VfyError::NoMemory(device)) => match verified(alloc, device) {
            Ok(Report::Accepted(volume, _)) => match reclaim(alloc, volume) {
                Ok(volume) => Ok(volume.device()),
                Err(_) => Err(DeviceFault),
            },
            _ => Err(DeviceFault),
        },
        Err(VfyError::DeviceFault(_)) => Err(DeviceFault),
    }
}

/// A volume with a header that no file has, extension header 6, which names block 22; block 23 is lost.
fn with_orphan(alloc: Global) -> Result<Memory, Fail> {
    let mut device = volumes::fresh(alloc, volumes::BLOCKS)?;
    let orphan = linked(file(6, 1), 1, file(0, 0), &[(22, 0)]);
    keep(&mut device, 8, &orphan)?;
    put_words(&mut device, 2, &[(0, 63)])?;
    put_words(&mut device, 20, &[(2, 0)])?;
    Ok(device)
}

#[test]
fn a_volume_is_reclaimed(rt: HostRuntime) -> Result<(), Fail> {
    let device = with_orphan(rt.alloc())?;
    let Ok(Report::Accepted(volume, _)) = verified(rt.alloc(), device) else {
        return Err(DeviceFault)?;
    };
    let mut device = reclaimed(rt.alloc(), volume)?;
    assert!(rt; has_words(&mut device, 2, &[(0, 31)])?);
    assert!(rt; has_words(&mut device, 8, &[(2, 0), (510, 0)])?);
    assert!(rt; has_words(&mut device, 20, &[(2, 0xc0)])?);
    Ok(())
}

/// The commands whose lines take memory.
#[derive(Clone, Copy, Debug)]
enum Command {
    Ls,
    Vfy,
    RtVfy,
    RtList,
}

/// What a command gives: the device, and its answer.
type Given = (Memory, Result<Answer, Failure>);

fn print_one(alloc: Global, device: Memory, lines: &mut Lines) -> Given {
    print_vfy(alloc, device, lines)
}

/// The answer of a command that serves any volume.
fn answer_in(served: Result<Served, Failure>) -> Result<Answer, Failure> {
    match served {
        Ok(served) => Ok(served.answer),
        Err(failure) => Err(failure),
    }
}

fn print_names(alloc: Global, device: Memory, lines: &mut Lines) -> Given {
    let (device, served) = print_ls(alloc, device, lines, LineForm::Short, None);
    (device, answer_in(served))
}

fn print_rt(alloc: Global, device: Memory, lines: &mut Lines) -> Given {
    print_rt_vfy(alloc, device, lines)
}

fn print_areas(alloc: Global, device: Memory, lines: &mut Lines) -> Given {
    print_rt_list(alloc, device, lines)
}

impl Command {
    /// Runs the command on a device.
    fn run(self, alloc: Global, device: Memory, lines: &mut Lines) -> Given {
        match self {
            Command::Ls => print_names(alloc, device, lines),
            Command::Vfy => print_one(alloc, device, lines),
            Command::RtVfy => print_rt(alloc, device, lines),
            Command::RtList => print_areas(alloc, device, lines),
        }
    }

    /// Whether a command gives this answer and this text, once more where there was no memory, and nothing was written.
    fn writes(self, alloc: Global, device: Memory, wanted: Answer, text: &[u8]) -> bool {
        let mut lines = lines();
        let (device, mut answer) = self.run(alloc, device, &mut lines);
        if answer == Err(Failure::NoMemory) && lines.position() == 0 {
            answer = self.run(alloc, device, &mut lines).1;
        }
        answer == Ok(wanted) && text_of(&lines) == text
    }
}

const REPORT: &[u8] =
    b"fault F8 header 5 pointer 0 outside the volume\nfault F10 block 21 named and free\nnote N1 blocks 22 to 22 lost\nnote N6 file 5 in no directory\nnote N7 directory 4 record 4 names no file\nnote N8 directory 4 record 4 repeats a name\nnote N9 directory 4 record 2 has no name\nfaulty\n";

#[test]
fn a_report_is_written(rt: HostRuntime) -> Result<(), Fail> {
    let device = faulty(rt.alloc())?;
    assert!(rt; Command::Vfy.writes(rt.alloc(), device, Answer::Fault, REPORT));
    Ok(())
}

const LISTING: &[u8] =
    b"[0,0]\nfile 000000.DIR;1 4,4 blocks 1 bytes 80 owner [1,1] prot 160000\nfile CORIMG.SYS;1 5,5 blocks 0 bytes 0 owner [1,1] prot 160000\n";

#[test]
fn directories_are_listed(rt: HostRuntime) -> Result<(), Fail> {
    let mut device = volumes::fresh(rt.alloc(), volumes::BLOCKS)?;
    put_words(&mut device, 21, &[(0, 0), (16, 0), (32, 0)])?;
    assert!(rt; Command::Ls.writes(rt.alloc(), device, Answer::Done, LISTING));
    Ok(())
}

/// A volume with all segments in use, where the entry of the first has two kinds, and the second begins late, with a tentative file.
fn faulty_rt(alloc: Global) -> Result<Memory, Fail> {
    let mut device = rt_volumes::made(memory(alloc, rt_volumes::BLOCKS)?)?;
    rt_volumes::fill(&mut device)?;
    put_words(&mut device, 6, &[(10, 0o1400)])?;
    put_words(&mut device, 8, &[(8, 19), (10, 0o400), (24, 0o4000)])?;
    Ok(device)
}

/// What `verify` gives of an RT-11 volume.
pub type RtVerified = Result<RtReport<Memory>, RtVfyError<Memory>>;

fn rt_once(alloc: Global, device: Memory) -> RtVerified {
    rt11_volume::verify(alloc, device)
}

/// Verifies an RT-11 volume, once more where there was no memory.
pub fn rt_verified(alloc: Global, device: Memory) -> RtVerified {
    match rt_once(alloc, device) {
        Err(RtVfyError::NoMemory(device)) => rt_once(alloc, device),
        done => done,
    }
}

#[test]
fn an_rt_volume_is_verified(rt: HostRuntime) -> Result<(), Fail> {
    let device = faulty_rt(rt.alloc())?;
    let Ok(RtReport::Faulty(_, faults, notes)) = rt_verified(rt.alloc(), device) else {
        return Err(DeviceFault)?;
    };
    assert!(rt; are_found(&faults, &[(6, 1, 0), (7, 2, 0), (8, 3, 0)]));
    assert!(rt; are_found(&notes, &[(1, 2, 0), (4, 2, 0)]));
    Ok(())
}

const RT_REPORT: &[u8] =
    b"fault R6 segment 1 entry 0 status\nfault R7 segment 2 entry 0 past the device\nfault R8 segment 3 begins too early\nnote Q1 segment 2 entry 0 tentative\nnote Q4 segment 2 begins late\nfaulty\n";

#[test]
fn an_rt_report_is_written(rt: HostRuntime) -> Result<(), Fail> {
    let device = faulty_rt(rt.alloc())?;
    assert!(rt; Command::RtVfy.writes(rt.alloc(), device, Answer::Fault, RT_REPORT));
    Ok(())
}

/// A volume with file `A.TXT` of two blocks, and four empty areas of none.
pub fn with_areas(alloc: Global) -> Result<Memory, Fail> {
    let mut device = rt_volumes::made(memory(alloc, rt_volumes::BLOCKS)?)?;
    put_words(&mut device, 6, &[(10, 0o2000), (12, 1600), (16, 32980)])?;
    for i in 0..4 {
        put_words(
            &mut device,
            6,
            &[(24 + 14 * i, 0o1000), (38 + 14 * i, 0o4000)],
        )?;
    }
    Ok(device)
}

fn list(alloc: Global, volume: &mut RtAccepted<Memory>) -> Result<Vec<RtArea>, RtRefusal> {
    volume.list(alloc)
}

/// The areas of a volume, asked for again where there was no memory.
fn listed(alloc: Global, volume: &mut RtAccepted<Memory>) -> Result<Vec<RtArea>, RtRefusal> {
    match list(alloc, volume) {
        Err(RtRefusal::NoMemory) => list(alloc, volume),
        done => done,
    }
}

#[test]
fn an_rt_volume_is_listed(rt: HostRuntime) -> Result<(), Fail> {
    let device = with_areas(rt.alloc())?;
    let Ok(RtReport::Accepted(mut volume, _)) = rt_verified(rt.alloc(), device) else {
        return Err(DeviceFault)?;
    };
    let areas = listed(rt.alloc(), &mut volume)?;
    let name: Option<RtName> = Some(RtName::parse(b"A.TXT")?);
    for (i, (kind, name, start, length)) in [
        (RtKind::Permanent, name, 16, 2),
        (RtKind::Empty, None, 18, 0),
        (RtKind::Empty, None, 18, 0),
        (RtKind::Empty, None, 18, 0),
        (RtKind::Empty, None, 18, 0),
    ]
    .into_iter()
    .enumerate()
    {
        let area = RtArea {
            kind,
            name,
            start,
            length,
            protected: false,
        };
        assert_eq!(rt; areas.get(i), Some(&area), "{i}");
    }
    assert_eq!(rt; areas.len(), 5);
    Ok(())
}

const RT_LIST: &[u8] = b"perm A.TXT 16 2\nempty 18 0\nempty 18 0\nempty 18 0\nempty 18 0\n";

#[test]
fn an_rt_list_is_written(rt: HostRuntime) -> Result<(), Fail> {
    let device = with_areas(rt.alloc())?;
    assert!(rt; Command::RtList.writes(rt.alloc(), device, Answer::Done, RT_LIST));
    Ok(())
}

/// The text of a name, asked for again where memory was refused once.
fn spelled(alloc: Global, name: &RtName) -> Result<String, NoMemory> {
    match name.text(alloc) {
        Ok(text) => Ok(text),
        Err(NoMemory) => name.text(alloc),
    }
}

#[test]
fn rt_names(rt: HostRuntime) -> Result<(), Fail> {
    for (text, words) in [
        ("A.TXT", [1600, 0, 32980]),
        ("B.TXT", [3200, 0, 32980]),
        ("C.TXT", [4800, 0, 32980]),
        ("ABCDEF.", [1683, 6606, 0]),
    ] {
        let name = RtName::parse(text.as_bytes())?;
        assert_eq!(rt; name.words(), words, "{text}");
        let spelled = spelled(rt.alloc(), &name)?;
        assert_eq!(rt; spelled.as_str(), text);
    }
    Ok(())
}
