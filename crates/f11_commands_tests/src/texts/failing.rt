//! What is written of a script where a transfer of its volume fails.
use f11_commands::{Answer, Failure, RunFailure, print_run};
use f11_dev::FailOnce;
use f11_fixtures::volumes::fresh;
use f11_fixtures::{Lines, lines, text_of};
use std::alloc::Global;
use std::io::{Cursor, Write};
use std::test::Fail;

const SCRIPT: [u8; 89] =
    *b"0 [1,1] CREATE A.TXT;1 0\n0 [1,1] ACCESS 6,1 W 0\nwhat\n0 [1,1] EXTEND 0 2\n0 [1,1] READ 0 2\n";

/// What its lines are answered.
const ANSWERS: [&[u8]; 5] = [
    b"ok file 6,1\n",
    b"ok\n",
    b"bad line\n",
    b"ok blocks 2\n",
    b"ok data -\n",
];

/// The line that is none.
const BAD: usize = 2;

/// What is written where a transfer fails that line `failed` makes, from 0.
fn text_behind(failed: usize) -> Lines {
    let mut text = lines();
    for (i, answer) in ANSWERS.iter().enumerate() {
        let line = if i < failed || i == BAD {
            answer
        } else if i == failed {
            b"no DeviceFault\n".as_slice()
        } else {
            b"no VolumeFailed\n"
        };
        let _ = text.write_all(line);
    }
    text
}

/// Which line that text is of, 5 where all are answered, and `None` where it is that of none.
fn failed_in(text: &[u8]) -> Option<usize> {
    for failed in 0..=ANSWERS.len() {
        if failed != BAD && text == text_of(&text_behind(failed)) {
            return Some(failed);
        }
    }
    None
}

/// How a script ends where the transfer `at`, from 1, fails, and what was written.
fn served(alloc: Global, at: u64) -> Result<(Result<Answer, RunFailure>, Lines), Fail> {
    let device = FailOnce::new(fresh(alloc, 400)?, at, false);
    let mut text = lines();
    let (_, end) = print_run(alloc, device, Cursor::new(SCRIPT), &mut text);
    Ok((end, text))
}

#[test]
fn answers_are_written_up_to_the_fault(rt: HostRuntime) -> Result<(), Fail> {
    let fault = Err(RunFailure::Command(Failure::DeviceFault));
    // how many transfers each line makes, and the sync behind them
    let mut made = [0_u32; 6];
    for at in 1..=200 {
        let (end, text) = served(rt.alloc(), at)?;
        if end == Ok(Answer::Done) {
            assert_eq!(rt; failed_in(text_of(&text)), Some(5));
            break;
        }
        assert_eq!(rt; end, fault, "{at}");
        if text_of(&text).is_empty() {
            // the volume is verified and mounted first
            assert!(rt; made == [0; 6], "{at}");
        } else {
            let line = failed_in(text_of(&text)).ok_or("another text")?;
            if let Some(count) = made.get_mut(line) {
                *count = count.saturating_add(1);
            }
        }
    }
    // creating takes at most four, accessing one, extending by two blocks at most thirty, and reading a block two
    assert!(rt; made[0] > 0 && made[0] <= 4, "{made:?}");
    assert_eq!(rt; made[1], 1);
    assert_eq!(rt; made[2], 0);
    assert!(rt; made[3] > 2 && made[3] <= 30, "{made:?}");
    assert!(rt; made[4] > 0 && made[4] <= 2, "{made:?}");
    assert_eq!(rt; made[5], 1);
    Ok(())
}
