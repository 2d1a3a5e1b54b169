//! Inputs as long as the limits.
ghost use Rattle.std.specs.Prelude.{◌≤◌};

use crate::texts::records::{attributes, text_length};
use crate::texts::script::LineFeeds;
use f11_bytes::Block;
use f11_commands::f11_flx::{BadRecord, LineTooLong, Records, ToRecords};
use f11_fixtures::ZEROS;
use f11_script::{Line, ScriptError, ScriptReader};
use std::test::Fail;

/// The most blocks that an RT-11 file can have.
const BLOCKS: u32 = 65_535;

/// How many lines of a script are read, and how that ends.
fn lines_of(bytes: u64) -> (u32, Result<bool, ScriptError>) {
    let mut script = ScriptReader::new(LineFeeds { left: bytes });
    let mut line = Line::new();
    for count in 0..u32::MAX {
        let done = script.read_line(&mut line);
        if done != Ok(true) || !line.is_empty() {
            return (count, done);
        }
    }
    (u32::MAX, Ok(true))
}

#[test]
fn the_longest_script(rt: HostRuntime) {
    assert_eq!(rt; lines_of(16_777_216), (16_777_216, Ok(false)));
    assert_eq!(rt;
        lines_of(16_777_217),
        (16_777_216, Err(ScriptError::TooLong))
    );
}

/// How many records a walk over a file of zeros takes, and how it ends.
fn records_of_zeros(blocks: u32, attr: &[u8; 32]) -> Result<u32, BadRecord>
    requires { blocks ≤ 516096 }
{
    let mut walk = Records::new(attr, blocks)?;
    for count in 0..u32::MAX {
        if walk.place().is_none() {
            return Ok(count);
        }
        let _ = walk.take(0)?;
    }
    Ok(u32::MAX)
}

/// How many bytes the records have of a text of blocks that are each the same.
fn records_length(blocks: u32, block: &Block) -> Result<u64, LineTooLong> {
    let mut conversion = ToRecords::new();
    let (mut records, mut count) = (ZEROS, 0u64);
    for _ in 0..blocks {
        let mut used = 0usize;
        for _ in 0..4 {
            let rest = block.get(used..).unwrap_or(&[]);
            let (read, to) = conversion.convert(rest, &mut records, 0)?;
            used = used.saturating_add(read);
            count = count.saturating_add(to as u64);
        }
    }
    Ok(count)
}

#[test]
fn the_longest_file_becomes_text(rt: HostRuntime) -> Result<(), Fail> {
    // two bytes for each of the records without a byte, and as many of text
    let attr = attributes(2, 2, 0, 65_535, 512);
    let length = 65_535 * 512;
    assert_eq!(rt; records_of_zeros(BLOCKS, &attr)?, length / 2);
    assert_eq!(rt;
        text_length(&attr, BLOCKS, &ZEROS, &ZEROS)?,
        u64::from(length)
    );
    Ok(())
}

#[test]
fn the_longest_text_becomes_records(rt: HostRuntime) -> Result<(), Fail> {
    let mut ends = [b'\r'; 512];
    for i in 0..256 {
        ends[2 * i + 1] = b'\n';
    }
    for (block, length) in [(ZEROS, 0), (ends, 65_535 * 512)] {
        assert_eq!(rt; records_length(BLOCKS, &block)?, length);
    }
    Ok(())
}
