//! What is done to files whose names a pattern chooses.
use crate::taking_out::{master_directory, named};
use f11_actions::{Behind, Change, begin_taking, meant_names, print_chosen};
use f11_commands::{Failure, FileAnswer, NoNames, Served, leads_to_records};
use f11_dev::{DeviceFault, Memory};
use f11_fixtures::{Lines, lines, text_of, volumes};
use f11_patterns::Pattern;
use f11_rad50::Name;
use std::alloc::Global;
use std::test::Fail;

/// The names that a pattern means in the master file directory.
fn meant(
    alloc: Global,
    device: &mut Memory,
    pattern: &Pattern,
) -> Result<Result<Vec<Name>, NoNames>, Failure> {
    meant_names(alloc, device, &master_directory(), pattern)
}

/// Whether a name leads to a directory that has records.
fn leads(
    alloc: Global,
    device: &mut Memory,
    name: &Name,
) -> Result<Result<bool, NoNames>, Failure> {
    leads_to_records(alloc, device, &master_directory(), name)
}

/// Which files are taken out, or why none is.
type Taking = Result<(Memory, bool, Vec<Name>), (Memory, Result<Served, Failure>)>;

fn taking(alloc: Global, device: Memory, pattern: &Pattern, lines: &mut Lines) -> Taking {
    begin_taking(alloc, device, &master_directory(), pattern, lines)
}

/// The master file directory purged.
fn purged(
    alloc: Global,
    device: Memory,
    pattern: &Pattern,
    lines: &mut Lines,
) -> (Memory, Result<FileAnswer, Failure>) {
    let directory = master_directory();
    print_chosen(
        alloc,
        device,
        directory,
        pattern,
        Change::Purge,
        Behind::GoesOn,
        lines,
    )
}

#[test]
fn names_are_meant_and_lead(rt: HostRuntime) -> Result<(), Fail> {
    let mut device = volumes::fresh(rt.alloc(), volumes::BLOCKS)?;
    let (Ok(pattern), Ok(Some(name))) = (
        Pattern::parse(b"*.SYS;*"),
        named(rt.alloc(), "000000.DIR;1"),
    ) else {
        return Err(DeviceFault)?;
    };
    let names = match meant(rt.alloc(), &mut device, &pattern) {
        Err(Failure::NoMemory) => meant(rt.alloc(), &mut device, &pattern),
        done => done,
    };
    let Ok(Ok(names)) = names else {
        return Err(DeviceFault)?;
    };
    assert_eq!(rt; names.len(), 4);
    let led = match leads(rt.alloc(), &mut device, &name) {
        Err(Failure::NoMemory) => leads(rt.alloc(), &mut device, &name),
        done => done,
    };
    assert!(rt; led == Ok(Ok(true)));
    Ok(())
}

#[test]
fn files_are_chosen(rt: HostRuntime) -> Result<(), Fail> {
    let device = volumes::fresh(rt.alloc(), volumes::BLOCKS)?;
    let Ok(pattern) = Pattern::parse(b"*.SYS") else {
        return Err(DeviceFault)?;
    };
    let mut told = lines();
    let taken = match taking(rt.alloc(), device, &pattern, &mut told) {
        Err((device, Err(Failure::NoMemory))) => taking(rt.alloc(), device, &pattern, &mut told),
        done => done,
    };
    let Ok((device, faulty, names)) = taken else {
        return Err(DeviceFault)?;
    };
    assert_eq!(rt; (faulty, names.len(), told.position()), (false, 4, 0));
    let (_, answer) = match purged(rt.alloc(), device, &pattern, &mut told) {
        (device, Err(Failure::NoMemory)) => purged(rt.alloc(), device, &pattern, &mut told),
        done => done,
    };
    assert_eq!(rt; answer, Ok(FileAnswer::Done));
    assert!(rt; text_of(&told) == b"all 0 done, 0 not done\n".as_slice());
    Ok(())
}
