//! Readers and writers of scripts that fail.
use f11_script::{Line, ScriptError, ScriptReader, bad_line};
use std::io::{self, Cursor, ErrorKind, Read, Write};

/// A reader and writer whose first call fails by another cause than an interruption, or takes no byte.
#[derive(Drop)]
struct Once {
    inner: Cursor<[u8; 160]>,
    first: bool,
    takes_none: bool,
}

impl Read for Once {
    fn read(&mut self, buf: &mut [u8]) -> io::Result<usize> {
        if self.first {
            self.first = false;
            return Err(ErrorKind::Other.into());
        }
        self.inner.read(buf)
    }
}

impl Write for Once {
    fn write(&mut self, buf: &[u8]) -> io::Result<usize> {
        if self.first {
            self.first = false;
            if self.takes_none {
                return Ok(0);
            }
            return Err(ErrorKind::Other.into());
        }
        self.inner.write(buf)
    }

    fn flush(&mut self) -> io::Result<()> {
        Ok(())
    }
}

fn failing_once(takes_none: bool) -> Once {
    Once {
        inner: Cursor::new([b'\n'; 160]),
        first: true,
        takes_none,
    }
}

#[test]
fn faults_are_told_at_once(rt: HostRuntime) {
    for takes_none in [true, false] {
        let mut writer = failing_once(takes_none);
        assert_eq!(rt; bad_line(&mut writer), Err(ScriptError::WriteFault));
        assert_eq!(rt; writer.inner.get_ref()[0], b'\n');
    }
    let mut line = Line::new();
    let mut script = ScriptReader::new(failing_once(false));
    assert_eq!(rt; script.read_line(&mut line), Err(ScriptError::ReadFault));
}
