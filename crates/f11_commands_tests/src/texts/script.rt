//! The script language.
use f11_bytes::Block;
use f11_fixtures::{SYSTEM, ZEROS, file, lines, text_of};
use f11_rad50::Name;
use f11_script::{Line, Parsed, ScriptError, ScriptReader, bad_line, parse, reply};
use f11_store::{Attr, Change, FileId, Lun, Mode, Refusal, Reply, Request, Task};
use std::io::{self, Cursor, ErrorKind, Read, Write};
use std::test::Fail;

/// The request of a line of task 3 and [1,1], and `None` for any other line.
fn asked(line: &[u8]) -> Option<Request> {
    let mut block = ZEROS;
    let Parsed::Asks {
        task,
        caller,
        request,
    } = parse(line, &mut block)
    else {
        return None;
    };
    if task.number() == 3 && caller == SYSTEM {
        Some(request)
    } else {
        None
    }
}

#[test]
fn each_verb_asks(rt: HostRuntime) -> Result<(), Fail> {
    let lun = Lun::new(3).ok_or("lun")?;
    let name = Name::parse(b"A.TXT;1")?;
    let f = file(6, 65535);
    for (line, request) in [
        (
            b"3 [1,1] EXTEND 3 4294967295".as_slice(),
            Request::Extend(lun, u32::MAX),
        ),
        (
            b"3 [001,1] TRUNCATE 0000000003 0",
            Request::Truncate(lun, 0),
        ),
        (b"3 [1,1] DELETE 6,65535", Request::Delete(f)),
        (b"3 [1,1] GROW 0000000001", Request::GrowIndex(1)),
        (
            b"3 [1,1] ACCESS 6,65535 L 3",
            Request::Access(f, Mode::Locked, lun),
        ),
        (
            b"3 [1,1] ACCESS 6,65535 W 3",
            Request::Access(f, Mode::Write, lun),
        ),
        (b"3 [1,1] CLOSE 3", Request::Deaccess(lun)),
        (b"3 [1,1] RELEASE", Request::Release),
        (b"3 [1,1] READ 3 0", Request::ReadBlock(lun, 0)),
        (b"3 [1,1] FILL 3 1 377", Request::WriteBlock(lun, 1)),
        (b"3 [1,1] WRITE 3 1 fF", Request::WriteBlock(lun, 1)),
        (b"3 [1,1] FIND 6,65535 A.TXT;1", Request::Find(f, name)),
        (
            b"3 [1,1] ENTER 6,65535 A.TXT;1 6,65535",
            Request::Enter(f, name, f),
        ),
        (b"3 [1,1] REMOVE 6,65535 A.TXT;1", Request::Remove(f, name)),
        (b"3 [1,1] ATTR 6,65535", Request::ReadAttr(f)),
        (
            b"3 [1,1] PROTECT 6,65535 177777",
            Request::WriteAttr(f, Change::Protect(65535)),
        ),
        (b"3 [1,1] SPACE", Request::Space),
    ] {
        assert_eq!(rt; asked(line), Some(request), "{request:?}");
    }
    Ok(())
}

#[test]
fn areas_are_made(rt: HostRuntime) {
    let mut ident = [0; 46];
    ident[..10].copy_from_slice(b"\x40\x06\0\0\0\0\x7a\x1a\x01\0");
    let mut attr = [0; 32];
    (attr[0], attr[2]) = (1, 16);
    assert_eq!(rt;
        asked(b"3 [1,1] CREATE A.DIR;1 160000"),
        Some(Request::Create {
            protection: 0o160000,
            ident,
            attr,
        })
    );
    let mut attr = [0; 32];
    attr[..14].copy_from_slice(b"\xff\x08\xff\xff\0\0\x01\0\xff\xff\xff\xff\x02\0");
    assert_eq!(rt;
        asked(b"3 [1,1] SETATTR 7,1 255 8 65535 1 4294967295 2"),
        Some(Request::WriteAttr(file(7, 1), Change::Attr(attr)))
    );
}

#[test]
fn bad_lines(rt: HostRuntime) {
    for line in [
        b"8 [1,1] SPACE".as_slice(),
        b"33 [1,1] SPACE",
        b"3 [377,400] SPACE",
        b"3 [0001,1] SPACE",
        b"3 [1,1 SPACE",
        b"3 1,1 SPACE",
        b"3 [1,8] SPACE",
        b"3 [1,1]  SPACE",
        b"3 [1,1] SPACE ",
        b" 3 [1,1] SPACE",
        b"3 [1,1]\tSPACE",
        b"3 [1,1] space",
        b"3 [1,1] SPACES",
        b"3 [1,1] SPACE 1",
        b"3 [1,1]",
        b"3",
        b"3 [1,1] EXTEND 4 1",
        b"3 [1,1] EXTEND 0",
        b"3 [1,1] EXTEND 0 4294967296",
        b"3 [1,1] EXTEND 0 00000000001",
        b"3 [1,1] EXTEND 0 -1",
        b"3 [1,1] DELETE 6",
        b"3 [1,1] DELETE 65536,1",
        b"3 [1,1] DELETE 6,1,0",
        b"3 [1,1] ACCESS 6,1 r 0",
        b"3 [1,1] CREATE a.TXT;1 0",
        b"3 [1,1] CREATE A.TXT;1 200000",
        b"3 [1,1] CREATE A.TXT;1 0000000",
        b"3 [1,1] FILL 0 1 400",
        b"3 [1,1] FILL 0 1 0001",
        b"3 [1,1] WRITE 0 1 0",
        b"3 [1,1] WRITE 0 1 0g",
        b"3 [1,1] WRITE 0 1 ",
        b"3 [1,1] SETATTR 7,1 256 0 0 0 0 0",
        b"3 [1,1] SETATTR 7,1 0 0 65536 0 0 0",
        b"\r",
    ] {
        let mut block = ZEROS;
        assert!(rt; parse(line, &mut block) == Parsed::Bad, "{line:?}");
        assert!(rt; block == ZEROS, "{line:?}");
    }
    let mut block = ZEROS;
    for line in [b"".as_slice(), b";", b"; 3 [1,1] SPACE"] {
        assert!(rt; parse(line, &mut block) == Parsed::Nothing);
    }
}

#[test]
fn long_lines(rt: HostRuntime) {
    let mut block = ZEROS;
    let comment = [b';'; 1201];
    assert!(rt; parse(&comment[..1200], &mut block) == Parsed::Nothing);
    assert!(rt; parse(&comment, &mut block) == Parsed::Bad);
    let mut write = [b'7'; 1042];
    write[..18].copy_from_slice(b"3 [1,1] WRITE 0 1 ");
    let lun = Lun::new(0);
    assert!(rt; asked(&write) == lun.map(|lun| Request::WriteBlock(lun, 1)));
    assert!(rt; asked(&write[..1041]).is_none());
    let mut longer = [b'7'; 1044];
    longer[..18].copy_from_slice(b"3 [1,1] WRITE 0 1 ");
    assert!(rt; asked(&longer).is_none());
}

#[test]
fn blocks_are_filled(rt: HostRuntime) {
    let mut block = ZEROS;
    let _ = parse(b"0 [1,1] FILL 0 1 377", &mut block);
    assert!(rt; block == [255; 512]);
    let _ = parse(b"0 [1,1] WRITE 0 1 0aF1", &mut block);
    assert_eq!(rt; &block[..3], [0x0a, 0xf1, 0].as_slice());
    assert!(rt; block[3..] == ZEROS[3..]);
}

#[test]
fn answers_are_written(rt: HostRuntime) -> Result<(), Fail> {
    let far = FileId {
        number: 7,
        sequence: 1,
        volume: 2,
    };
    for (answer, text) in [
        (Ok(Reply::Done), b"ok\n".as_slice()),
        (Ok(Reply::Created(file(6, 2))), b"ok file 6,2\n"),
        (Ok(Reply::Found(far)), b"ok file 7,1,2\n"),
        (Ok(Reply::Length(378)), b"ok blocks 378\n"),
        (Ok(Reply::Slots(17)), b"ok slots 17\n"),
        (Err(Refusal::EndOfFile), b"no EndOfFile\n"),
    ] {
        let mut lines = lines();
        reply(&mut lines, &Request::Release, &answer, &ZEROS)?;
        assert_eq!(rt; text_of(&lines), text);
    }
    let mut lines = lines();
    bad_line(&mut lines)?;
    assert_eq!(rt; text_of(&lines), b"bad line\n".as_slice());
    Ok(())
}

#[test]
fn blocks_are_written(rt: HostRuntime) -> Result<(), Fail> {
    let lun = Lun::new(0).ok_or("lun")?;
    let mut last = ZEROS;
    (last[0], last[2]) = (0xab, 1);
    for (block, text) in [
        (ZEROS, b"ok data -\n".as_slice()),
        (last, b"ok data ab0001\n"),
    ] {
        let mut lines = lines();
        let request = Request::ReadBlock(lun, 1);
        reply(&mut lines, &request, &Ok(Reply::Done), &block)?;
        assert_eq!(rt; text_of(&lines), text);
    }
    Ok(())
}

#[test]
fn a_full_block_is_written(rt: HostRuntime) -> Result<(), Fail> {
    let lun = Lun::new(0).ok_or("lun")?;
    let request = Request::ReadBlock(lun, 1);
    let mut lines = Cursor::new([0; 1034]);
    reply(&mut lines, &request, &Ok(Reply::Done), &[255; 512])?;
    let written = lines.get_ref();
    assert_eq!(rt; &written[..8], b"ok data ".as_slice());
    assert!(rt; written[8..1032].iter().all(|digit| *digit == b'f'));
    assert_eq!(rt; &written[1032..], b"\n\0".as_slice());
    Ok(())
}

#[test]
fn attributes_are_written(rt: HostRuntime) -> Result<(), Fail> {
    let mut attr = [0; 32];
    (attr[0], attr[2], attr[10], attr[12]) = (1, 16, 2, 16);
    let mut ident = [0; 46];
    ident[..10].copy_from_slice(b"\x4e\xc0\x4e\xc0\0\0\x7a\x1a\x01\0");
    for (ident, text) in [
        (
            ident,
            b"ok owner [1,1] prot 160000 char 0 name 000000.DIR;1 rtyp 1 rsiz 16 efbk 2 ffby 16\n".as_slice(),
        ),
        (
            [255; 46],
            b"ok owner [1,1] prot 160000 char 0 name ? rtyp 1 rsiz 16 efbk 2 ffby 16\n",
        ),
    ] {
        let file = Attr {
            owner: SYSTEM,
            protection: 0o160000,
            characteristics: 0,
            ident,
            attr,
        };
        let mut lines = lines();
        reply(&mut lines, &Request::Space, &Ok(Reply::Attr(file)), &ZEROS)?;
        assert_eq!(rt; text_of(&lines), text);
    }
    let mut lines = lines();
    let space = Reply::Space {
        free: 378,
        headers: 11,
        slots: 16,
    };
    reply(&mut lines, &Request::Space, &Ok(space), &ZEROS)?;
    assert_eq!(rt;
        text_of(&lines),
        b"ok free 378 headers 11 slots 16\n".as_slice()
    );
    Ok(())
}

/// A reader and writer that is interrupted so many times before each call, and then reads or takes one byte.
#[derive(Drop)]
struct Slow {
    inner: Cursor<[u8; 160]>,
    interrupts: u32,
    left: u32,
}

impl Slow {
    fn passes(&mut self) -> bool {
        if self.left == 0 {
            self.left = self.interrupts;
            return true;
        }
        self.left = self.left.saturating_sub(1);
        false
    }
}

impl Read for Slow {
    fn read(&mut self, buf: &mut [u8]) -> io::Result<usize> {
        if !self.passes() {
            return Err(ErrorKind::Interrupted.into());
        }
        let few = buf.len().min(1);
        self.inner.read(&mut buf[..few])
    }
}

impl Write for Slow {
    fn write(&mut self, buf: &[u8]) -> io::Result<usize> {
        if !self.passes() {
            return Err(ErrorKind::Interrupted.into());
        }
        self.inner.write(&buf[..buf.len().min(1)])
    }

    fn flush(&mut self) -> io::Result<()> {
        Ok(())
    }
}

fn slow_of(text: [u8; 160], interrupts: u32) -> Slow {
    Slow {
        inner: Cursor::new(text),
        interrupts,
        left: interrupts,
    }
}

#[test]
fn lines_are_read_byte_by_byte(rt: HostRuntime) -> Result<(), Fail> {
    let mut text = [b'\n'; 160];
    text[..10].copy_from_slice(b"A\r\n\r\n\rB\nCC");
    let mut script = ScriptReader::new(slow_of(text, 2));
    let mut line = Line::new();
    for want in [b"A".as_slice(), b"", b"\rB", b"CC", b""] {
        assert!(rt; script.read_line(&mut line)?);
        assert_eq!(rt; line.as_slice(), want);
    }
    Ok(())
}

#[test]
fn a_last_line_keeps_its_return(rt: HostRuntime) -> Result<(), Fail> {
    let mut script = ScriptReader::new(Cursor::new(*b"A\r\nB\r"));
    let mut line = Line::new();
    for want in [b"A".as_slice(), b"B\r"] {
        assert!(rt; script.read_line(&mut line)?);
        assert_eq!(rt; line.as_slice(), want);
    }
    assert!(rt; !script.read_line(&mut line)?);
    Ok(())
}

#[test]
fn interrupts_have_an_end(rt: HostRuntime) -> Result<(), Fail> {
    let mut line = Line::new();
    let mut patient = ScriptReader::new(slow_of([b'\n'; 160], 65536));
    assert_eq!(rt; patient.read_line(&mut line), Ok(true));
    let mut never = ScriptReader::new(slow_of([b'\n'; 160], 65537));
    assert_eq!(rt; never.read_line(&mut line), Err(ScriptError::ReadFault));
    let mut writer = slow_of([0; 160], 3);
    bad_line(&mut writer)?;
    assert_eq!(rt; &writer.inner.get_ref()[..10], b"bad line\n\0".as_slice());
    assert_eq!(rt; bad_line(&mut slow_of([0; 160], 65536)), Ok(()));
    assert_eq!(rt;
        bad_line(&mut slow_of([0; 160], 65537)),
        Err(ScriptError::WriteFault)
    );
    assert_eq!(rt;
        bad_line(&mut Cursor::new([0; 3])),
        Err(ScriptError::WriteFault)
    );
    Ok(())
}

/// A reader of so many line feeds.
#[derive(Drop)]
pub struct LineFeeds {
    pub left: u64,
}

impl Read for LineFeeds {
    fn read(&mut self, buf: &mut [u8]) -> io::Result<usize> {
        let count = self.left.min(buf.len() as u64);
        self.left = self.left.saturating_sub(count);
        let count = count as usize;
        buf[..count].fill(b'\n');
        Ok(count)
    }
}

#[test]
fn lines_end_with_pieces(rt: HostRuntime) -> Result<(), Fail> {
    for bytes in [0, 1, 4095, 4096, 4097, 8192] {
        let mut script = ScriptReader::new(LineFeeds { left: bytes });
        let mut line = Line::new();
        for _ in 0..bytes {
            assert!(rt; script.read_line(&mut line)?);
            assert!(rt; line.is_empty());
        }
        assert!(rt; !script.read_line(&mut line)?);
    }
    Ok(())
}
