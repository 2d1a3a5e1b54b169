//! A consumer of scripts: it counts lines.
ghost use Rattle.std.specs.Prelude.{◌≡◌, IfOk, IfSome, length};
ghost use Rattle.std.specs.Str.Lines.{lines};

use f11_script::{Line, ScriptError, ScriptReader};
use std::io::{Cursor, Read};
use std::test::Fail;

/// How many lines a script has. A reader that is known by its trait alone is one that may be dropped, or it is lent by `&mut`.
fn count_lines<R: Read + Drop>(reader: R) -> Result<u32, ScriptError>
    ensures { IfOk result (λ n. IfSome (R.remaining reader) (λ xs. n ≡ length (lines xs))) }
{
    let mut script = ScriptReader::new(reader);
    let mut line = Line::new();
    let mut count = 0;
    while script.read_line(&mut line)? {
        count += 1;
    }
    Ok(count)
}

/// The same of a reader that is lent.
fn count_lent<R: Read>(reader: &mut R) -> Result<u32, ScriptError>
    ensures { IfOk result (λ n. IfSome (R.remaining reader.old) (λ xs. n ≡ length (lines xs))) }
{
    count_lines(reader)
}

#[test]
fn lines_are_counted(rt: HostRuntime) -> Result<(), Fail> {
    let mut script = Cursor::new(*b"A\r\n\r\n\rB\nCC");
    assert_eq!(rt; count_lent(&mut script)?, 4);
    assert_eq!(rt; count_lines(script)?, 0);
    Ok(())
}
