//! Files of the host put on a volume.
use crate::taking_out::{master_directory, named};
use f11_commands::f11_flx::CopyMode;
use f11_commands::{Failure, FileAnswer, PutFailure, Puts, Putting, begin_puts, print_put};
use f11_dev::{DeviceFault, Memory};
use f11_fixtures::{Lines, has_words, lines, text_of, volumes};
use std::alloc::Global;
use std::io::Cursor;
use std::test::Fail;

/// What putting a file gives.
type Put = (Memory, Result<FileAnswer, PutFailure>);

/// A text of the host.
type Host = Cursor<[u8; 10]>;

fn host() -> Host {
    Cursor::new(*b"HELLO\n\nAB\n")
}

fn once(
    alloc: Global,
    device: Memory,
    put: &Putting,
    first: &mut Host,
    again: &mut Host,
    lines: &mut Lines,
) -> Put {
    print_put(alloc, device, put, first, again, 10, lines)
}

/// Puts the text on a volume, once more where there was no memory, and nothing was written or read.
fn put(alloc: Global, device: Memory, putting: &Putting, lines: &mut Lines) -> Put {
    let (mut first, mut again) = (host(), host());
    let (device, answer) = once(alloc, device, putting, &mut first, &mut again, lines);
    let lacks_memory = answer == Err(PutFailure::Command(Failure::NoMemory));
    if lacks_memory && lines.position() == 0 && first.position() == 0 {
        return once(alloc, device, putting, &mut first, &mut again, lines);
    }
    (device, answer)
}

#[test]
fn a_text_is_put(rt: HostRuntime) -> Result<(), Fail> {
    let device = volumes::fresh(rt.alloc(), volumes::BLOCKS)?;
    let Ok(Some(name)) = named(rt.alloc(), "A.TXT;1") else {
        return Err(DeviceFault)?;
    };
    let putting = Putting {
        directory: master_directory(),
        name,
        mode: CopyMode::Text,
        blocks: 1,
    };
    let mut told = lines();
    let (mut device, answer) = put(rt.alloc(), device, &putting, &mut told);
    assert_eq!(rt; answer, Ok(FileAnswer::Done));
    assert!(rt; text_of(&told) == b"copied 1\n".as_slice());
    assert!(rt; has_words(&mut device, 22, &[(0, 5), (8, 0), (10, 2)])?);
    Ok(())
}

/// The volume on which files are put one after another, or how that ends.
type Begun = Result<Puts<Memory>, (Memory, Result<FileAnswer, Failure>)>;

fn begin(alloc: Global, device: Memory, lines: &mut Lines) -> Begun {
    begin_puts(alloc, device, lines)
}

#[test]
fn files_are_put_one_after_another(rt: HostRuntime) -> Result<(), Fail> {
    let device = volumes::fresh(rt.alloc(), volumes::BLOCKS)?;
    let mut told = lines();
    let begun = match begin(rt.alloc(), device, &mut told) {
        Err((device, Err(Failure::NoMemory))) => begin(rt.alloc(), device, &mut told),
        done => done,
    };
    let Ok(puts) = begun else {
        return Err(DeviceFault)?;
    };
    assert_eq!(rt; (puts.has_refused(), told.position()), (false, 0));
    Ok(())
}
