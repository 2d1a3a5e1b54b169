//! A file taken out of a volume.
use f11_commands::f11_flx::CopyMode;
use f11_commands::{
    Answer, Failure, FoundFile, Served, TakingAll, begin_all, directory_name, read_name, seek_file,
    write_file,
};
use f11_dev::{DeviceFault, Memory};
use f11_fixtures::{Lines, lines, text_of, volumes};
use f11_rad50::Name;
use f11_store::Uic;
use std::alloc::Global;
use std::io::sink;
use std::test::Fail;

/// The name of the master file directory, which names itself.
pub fn master_directory() -> Name {
    directory_name(Uic {
        group: 0,
        member: 0,
    })
}

/// What seeking a file gives.
type Sought = Result<Result<FoundFile<Memory>, (Memory, Served)>, (Memory, Failure)>;

fn once(alloc: Global, device: Memory, lines: &mut Lines, name: &Name) -> Sought {
    seek_file(alloc, device, lines, &master_directory(), name)
}

/// Seeks a file, once more where there was no memory, and nothing was written.
fn sought(alloc: Global, device: Memory, lines: &mut Lines, name: &Name) -> Sought {
    match once(alloc, device, lines, name) {
        Err((device, Failure::NoMemory)) if lines.position() == 0 => {
            once(alloc, device, lines, name)
        }
        done => done,
    }
}

/// The name that a text spells, read once more where there was no memory.
pub fn named(alloc: Global, text: &str) -> Result<Option<Name>, Failure> {
    match read_name(alloc, text) {
        Err(Failure::NoMemory) => read_name(alloc, text),
        done => done,
    }
}

#[test]
fn a_file_is_taken_out(rt: HostRuntime) -> Result<(), Fail> {
    let device = volumes::fresh(rt.alloc(), volumes::BLOCKS)?;
    let Ok(Some(name)) = named(rt.alloc(), "000000.dir;1") else {
        return Err(DeviceFault)?;
    };
    let (mut told, mut host) = (lines(), lines());
    let Ok(Ok(found)) = sought(rt.alloc(), device, &mut told, &name) else {
        return Err(DeviceFault)?;
    };
    let (_, served) = write_file(found, None, CopyMode::Image, &mut host, &mut told);
    let wanted = Served {
        answer: Answer::Done,
        faulty: false,
    };
    assert_eq!(rt; served, Ok(wanted));
    assert!(rt; text_of(&told) == b"copied 80 bytes\n".as_slice());
    assert!(rt; text_of(&host).len() == 80);
    assert!(rt; text_of(&host).starts_with(&[1, 0, 1, 0, 0, 0]));
    Ok(())
}

/// What beginning with all files gives.
type Begun = Result<TakingAll<Memory>, (Memory, Result<Served, Failure>)>;

/// Begins with all files, once more where there was no memory, and nothing was written.
fn begun(alloc: Global, device: Memory, lines: &mut Lines) -> Begun {
    match begin_all(alloc, device, lines) {
        Err((device, Err(Failure::NoMemory))) if lines.position() == 0 => {
            begin_all(alloc, device, lines)
        }
        done => done,
    }
}

#[test]
fn all_files_are_taken_out(rt: HostRuntime) -> Result<(), Fail> {
    let device = volumes::fresh(rt.alloc(), volumes::BLOCKS)?;
    let mut told = lines();
    let Ok(mut all) = begun(rt.alloc(), device, &mut told) else {
        return Err(DeviceFault)?;
    };
    for _ in 0..5 {
        let Some(found) = all.next() else {
            return Err(DeviceFault)?;
        };
        assert_eq!(rt; all.write(&found, None, &mut sink(), &mut told), Ok(()));
    }
    assert!(rt; all.next().is_none());
    let (_, served) = all.end(&mut told);
    let wanted = b"[0,0] INDEXF.SYS;1 copied 9728 bytes\n\
        [0,0] BITMAP.SYS;1 copied 1024 bytes\n\
        [0,0] BADBLK.SYS;1 copied 0 bytes\n\
        [0,0] 000000.DIR;1 copied 80 bytes\n\
        [0,0] CORIMG.SYS;1 copied 0 bytes\n\
        all 5 copied, 0 cut, 0 not copied, 0 in lost\n";
    assert!(rt; text_of(&told) == wanted.as_slice());
    let wanted = Served {
        answer: Answer::Done,
        faulty: false,
    };
    assert_eq!(rt; served, Ok(wanted));
    Ok(())
}
