//! Scripts that are served, by a service that does nothing.
ghost use Rattle.std.specs.Prelude.{◌≡◌, IfOk, IfSome, Ok, length};
ghost use Rattle.std.specs.Str.Lines.{lines};
ghost use Rattle.f11_script.specs.Asking.{requests_in};

use f11_bytes::Block;
use f11_commands::f11_serving::f11_making::Asked;
use f11_commands::f11_serving::{laws, serve_lines};
use f11_script::{ScriptError, ScriptReader};
use f11_store::{Lun, Refusal, Reply, Request, Task, Uic};
use std::io::{self, Cursor, ErrorKind, Read, Write};
use std::test::Fail;

/// A service that refuses a release, and to all else says that it is done.
#[derive(Drop)]
struct Idle;

impl Asked for Idle {
    ghost service = { record {
      serves = λ old call answer new. answer.block ≡ call.block;
      measures = λ task lun result old new. result ≡ Ok 0;
    } };

    fn serve(
        &mut self,
        _task: Task,
        _caller: Uic,
        request: &Request,
        _block: &mut Block,
    ) -> Result<Reply, Refusal> {
        match *request {
            Request::Release => Err(Refusal::NoSuchAccess),
            _ => Ok(Reply::Done),
        }
    }

    fn length(&mut self, _task: Task, _lun: Lun) -> Result<u32, Refusal> {
        Ok(0)
    }
}

/// How many requests a script has, which are served on the way.
fn requests_of<R: Read + Drop, W: Write>(reader: R, writer: &mut W) -> Result<u32, ScriptError>
    ensures { IfOk result (λ n. IfSome (R.remaining reader)
        (λ xs. n ≡ length (requests_in (lines xs)))) }
{
    let mut script = ScriptReader::new(reader);
    serve_lines(&mut script, writer, &mut Idle)
}

/// A reader that fails behind its text.
#[derive(Drop)]
struct BreaksOff {
    text: Cursor<[u8; 36]>,
}

impl Read for BreaksOff {
    fn read(&mut self, buf: &mut [u8]) -> io::Result<usize> {
        match self.text.read(buf)? {
            0 => Err(ErrorKind::Other.into()),
            count => Ok(count),
        }
    }
}

#[test]
fn scripts_are_served(rt: HostRuntime) -> Result<(), Fail> {
    let script =
        *b"; a comment\n\n0 [1,1] WRITE 0 1 0aF1\r\nbad\n0 [1,1] READ 0 1\n0 [1,1] RELEASE";
    let text = b"ok\nbad line\nok data 0af1\nno NoSuchAccess\n";
    let mut answers = Cursor::new([0; 41]);
    assert_eq!(rt; requests_of(Cursor::new(script), &mut answers)?, 3);
    assert_eq!(rt; answers.get_ref().as_slice(), text.as_slice());
    Ok(())
}

#[test]
fn scripts_break_off(rt: HostRuntime) {
    let text = *b"0 [1,1] SPACE\n0 [1,1] RELEASE\n0 [1,1";
    let mut script = ScriptReader::new(BreaksOff {
        text: Cursor::new(text),
    });
    let mut answers = Cursor::new([0; 19]);
    assert_eq!(rt;
        serve_lines(&mut script, &mut answers, &mut Idle),
        Err(ScriptError::ReadFault)
    );
    assert_eq!(rt; answers.get_ref(), b"ok\nno NoSuchAccess\n");
    let mut few = Cursor::new([0; 5]);
    assert_eq!(rt;
        requests_of(Cursor::new(text), &mut few),
        Err(ScriptError::WriteFault)
    );
    assert_eq!(rt; few.get_ref(), b"ok\nno");
}

#[test]
fn laws_of_served_scripts() {
    laws::parts::<Idle>();
    laws::counts::<Idle>();
    laws::answers::<Idle>();
    laws::runs::<Idle>();
}
