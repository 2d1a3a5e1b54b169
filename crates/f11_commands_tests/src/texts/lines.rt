//! The lines of commands, where no command of the program shows them.
use f11_bytes::Block;
use f11_commands::{
    Answer, Failure, dump_header, print_home, print_init, print_name, print_rights, print_rt_init,
    print_rt_vfy, print_vfy,
};
use f11_dev::FailOnce;
use f11_fixtures::volumes::params;
use f11_fixtures::{SYSTEM, ZEROS, directory_header, lines, memory, text_of};
use std::io::Cursor;
use std::test::Fail;

/// The answer of the command that dumps a header, to a writer that takes so many bytes.
fn dumped(block: &Block, n: u16, size: usize) -> Result<Answer, Failure> {
    let mut space = [0; 120];
    dump_header(&mut Cursor::new(&mut space[..size.min(120)]), block, n)
}

#[test]
fn headers_without_room(rt: HostRuntime) {
    let header = directory_header();
    // three lines of 83, 18 and 9 bytes
    for (block, n, size) in [
        (&header, 4, 8),
        (&header, 5, 8),
        (&ZEROS, 4, 8),
        (&header, 4, 90),
        (&header, 4, 109),
    ] {
        let answer = dumped(block, n, size);
        assert_eq!(rt; answer, Err(Failure::CannotWrite), "{n} {size}");
    }
    assert_eq!(rt; dumped(&header, 4, 110), Ok(Answer::Done));
}

#[test]
fn lines_without_room(rt: HostRuntime) {
    for text in ["A.TXT;1", "a.TXT;1"] {
        let mut full = Cursor::new([0; 8]);
        assert_eq!(rt; print_name(text, &mut full), Err(Failure::CannotWrite));
    }
    let mut full = Cursor::new([0; 4]);
    assert_eq!(rt;
        print_rights(SYSTEM, SYSTEM, 0, &mut full),
        Err(Failure::CannotWrite)
    );
}

#[test]
fn a_device_fault_writes_no_line(rt: HostRuntime) -> Result<(), Fail> {
    let mut device = FailOnce::new(memory(rt.alloc(), 2)?, 1, false);
    let mut lines = lines();
    assert_eq!(rt;
        print_home(&mut device, &mut lines),
        Err(Failure::DeviceFault)
    );
    assert_eq!(rt; text_of(&lines), b"".as_slice());
    let mut full = Cursor::new([0; 8]);
    assert_eq!(rt;
        print_home(&mut device, &mut full),
        Err(Failure::CannotWrite)
    );
    assert_eq!(rt; print_home(&mut device, &mut lines), Ok(Answer::Fault));
    Ok(())
}

#[test]
fn volumes_on_devices_that_fail(rt: HostRuntime) -> Result<(), Fail> {
    let fault = Err(Failure::DeviceFault);
    let device = FailOnce::new(memory(rt.alloc(), 22)?, 1, false);
    let mut lines = lines();
    let (device, answer) = print_vfy(rt.alloc(), device, &mut lines);
    assert_eq!(rt; answer, fault);
    let device = FailOnce::new(device, 1, false);
    let (device, answer) = print_init(device, &mut lines, &params());
    assert_eq!(rt; answer, fault);
    let device = FailOnce::new(device, 1, false);
    let (device, answer) = print_rt_vfy(rt.alloc(), device, &mut lines);
    assert_eq!(rt; answer, fault);
    let device = FailOnce::new(device, 1, false);
    let (_, answer) = print_rt_init(device, 1, &mut lines);
    assert_eq!(rt; answer, fault);
    assert_eq!(rt; text_of(&lines), b"".as_slice());
    Ok(())
}

#[test]
fn a_sync_that_fails_writes_no_line(rt: HostRuntime) -> Result<(), Fail> {
    let fault = Err(Failure::DeviceFault);
    let mut done = lines();
    let (made, answer) = print_init(memory(rt.alloc(), 22)?, &mut done, &params());
    assert_eq!(rt; answer, Ok(Answer::Done));
    let mut lines = lines();
    // behind the last transfer the sync is the next that fails, and the volume is whole
    let next = made.transfers().saturating_add(1);
    let device = FailOnce::new(memory(rt.alloc(), 22)?, next, false);
    let (device, answer) = print_init(device, &mut lines, &params());
    assert_eq!(rt; answer, fault);
    let (device, answer) = print_vfy(rt.alloc(), device.into_inner(), &mut done);
    assert_eq!(rt; answer, Ok(Answer::Done));
    // of an RT-11 volume the two blocks of its segment are written before
    let device = FailOnce::new(device, 3, false);
    let (device, answer) = print_rt_init(device, 1, &mut lines);
    assert_eq!(rt; answer, fault);
    let (_, answer) = print_rt_vfy(rt.alloc(), device.into_inner(), &mut done);
    assert_eq!(rt; answer, Ok(Answer::Done));
    assert_eq!(rt; text_of(&lines), b"".as_slice());
    Ok(())
}

/// A writer that takes so many bytes.
fn room(space: &mut [u8; 40], size: usize) -> Cursor<&mut [u8]> {
    Cursor::new(&mut space[..size.min(40)])
}

#[test]
fn volumes_without_room(rt: HostRuntime) -> Result<(), Fail> {
    let mut space = [0; 40];
    // room for nothing, and for all but the last byte of `ok`, of the one fault and of the report
    for (size, init_size) in [(0, 0), (22, 2), (29, 2)] {
        let device = memory(rt.alloc(), 22)?;
        let (device, answer) = print_vfy(rt.alloc(), device, &mut room(&mut space, size));
        assert_eq!(rt; answer, Err(Failure::CannotWrite), "{size}");
        let (device, answer) = print_rt_vfy(rt.alloc(), device, &mut room(&mut space, size));
        assert_eq!(rt; answer, Err(Failure::CannotWrite), "{size}");
        let mut writer = room(&mut space, init_size);
        let (device, answer) = print_init(device, &mut writer, &params());
        assert_eq!(rt; answer, Err(Failure::CannotWrite), "{size}");
        let (_, answer) = print_rt_init(device, 1, &mut room(&mut space, init_size));
        assert_eq!(rt; answer, Err(Failure::CannotWrite), "{size}");
    }
    Ok(())
}
