//! Text records.
ghost use Rattle.std.specs.Prelude.{◌≤◌};

use arrayvec::ArrayVec;
use f11_bytes::Block;
use f11_commands::f11_flx::{
    BadRecord, LineTooLong, Records, ToRecords, ToText, image_attributes, image_blocks,
    text_attributes,
};
use f11_fixtures::ZEROS;
use std::test::Fail;

/// Attributes with this record type, record attributes, record size, and end.
pub fn attributes(kind: u8, carriage: u8, size: u16, block: u16, byte: u16) -> [u8; 32] {
    let mut attr = [0; 32];
    (attr[0], attr[1]) = (kind, carriage);
    (attr[2], attr[3]) = ((size % 256) as u8, (size / 256) as u8);
    (attr[10], attr[11]) = ((block % 256) as u8, (block / 256) as u8);
    (attr[12], attr[13]) = ((byte % 256) as u8, (byte / 256) as u8);
    attr
}

/// The first block of the text of a file of one block, and the text's length.
fn text_of(attr: &[u8; 32], content: &Block) -> Result<(Block, usize), BadRecord> {
    let mut conversion = ToText::new(attr, 1)?;
    let mut text = ZEROS;
    let (used, to) = conversion.convert(content, &mut text, 0)?;
    let (_, to) = conversion.convert(&content[used..], &mut text, to)?;
    Ok((text, to))
}

/// A block that begins with these bytes.
fn block_of(bytes: &[u8]) -> Block {
    let mut block = ZEROS;
    for (i, byte) in bytes.iter().enumerate() {
        if i < 512 {
            block[i] = *byte;
        }
    }
    block
}

#[test]
fn records_become_text(rt: HostRuntime) {
    let fixed = block_of(b"ABCDEFGH");
    let lines = block_of(b"\x01\0A\0\x01\0B\0");
    for (attr, content, text) in [
        (
            attributes(1, 0, 4, 1, 8),
            fixed,
            b"ABCD\r\nEFGH\r\n".as_slice(),
        ),
        (attributes(2, 2, 1, 1, 8), lines, b"A\r\nB\r\n"),
        (attributes(2, 2, 1, 1, 7), lines, b"A\r\nB\r\n"),
        (attributes(2, 0, 0, 1, 2), ZEROS, b"\r\n"),
        (attributes(2, 0, 0, 0, 9), fixed, b""),
        (attributes(1, 7, 4, 0, 0), fixed, b""),
    ] {
        assert_eq!(rt; text_of(&attr, &content), Ok((block_of(text), text.len())));
    }
    for attr in [
        attributes(1, 0, 4, 1, 6),
        attributes(1, 0, 3, 1, 6),
        attributes(1, 0, 0, 0, 0),
        attributes(1, 8, 4, 1, 8),
        attributes(3, 0, 4, 1, 8),
        attributes(0, 0, 4, 0, 0),
        attributes(2, 0, 0, 1, 1),
        attributes(2, 0, 0, 1, 8),
    ] {
        assert_eq!(rt; text_of(&attr, &fixed), Err(BadRecord), "{attr:?}");
    }
}

#[test]
fn a_walk_over_records(rt: HostRuntime) -> Result<(), Fail> {
    let mut walk = Records::new(&attributes(2, 0, 0, 1, 9), 516_096)?;
    assert_eq!(rt; walk.place(), Some(0));
    assert!(rt; walk.place().is_some());
    assert_eq!(rt; walk.take(3), Ok((2, 3)));
    assert_eq!(rt; walk.place(), Some(6));
    assert_eq!(rt; walk.take(2), Err(BadRecord));
    assert_eq!(rt; walk.place(), Some(6));
    assert_eq!(rt; walk.take(1), Ok((8, 1)));
    assert_eq!(rt; walk.place(), None);
    let past = Records::new(&attributes(1, 0, 512, 9, 0), 2)?;
    assert_eq!(rt; past.place(), Some(0));
    Ok(())
}

/// The first block of the records of a text, their bytes, and the longest line.
fn records_of(text: &[u8]) -> Result<(Block, usize, u16), LineTooLong> {
    let mut conversion = ToRecords::new();
    let (mut first, mut block) = (ZEROS, ZEROS);
    let (mut bytes, mut used) = (0usize, 0usize);
    for turn in 0..12 {
        let (read, to) = conversion.convert(text.get(used..).unwrap_or(&[]), &mut block, 0)?;
        used = used.saturating_add(read);
        if turn == 0 {
            first = block;
        }
        bytes = bytes.saturating_add(to);
        if to < 512 && used >= text.len() {
            conversion.finish()?;
            let (_, last) = conversion.convert(&[], &mut block, to)?;
            if bytes < 512 {
                first = block;
            }
            bytes = bytes.saturating_add(last.saturating_sub(to));
        }
    }
    Ok((first, bytes, conversion.longest()))
}

#[test]
fn text_becomes_records(rt: HostRuntime) -> Result<(), Fail> {
    for (text, records, longest) in [
        (
            b"A\r\nB\0\0\0".as_slice(),
            b"\x01\0A\0\x01\0B\0".as_slice(),
            1,
        ),
        (b"A\0\r\0\nB\r\n", b"\x01\0A\0\x01\0B\0", 1),
        (b"\0\0\0", b"", 0),
        (b"\r\n\r\n", b"\0\0\0\0", 0),
        (b"A\nB\rC", b"\x05\0A\nB\rC\0", 5),
        (b"A\r\r\n", b"\x02\0A\r", 2),
        (b"A\r", b"\x02\0A\r", 2),
        (b"\r\r\r", b"\x03\0\r\r\r\0", 3),
        (b"\r\r\r\n", b"\x02\0\r\r", 2),
    ] {
        assert_eq!(rt;
            records_of(text)?,
            (block_of(records), records.len(), longest)
        );
    }
    Ok(())
}

#[test]
fn a_long_line(rt: HostRuntime) -> Result<(), Fail> {
    let mut text = [b'A'; 2051];
    text[2048..2050].copy_from_slice(b"\r\n");
    let (_, bytes, longest) = records_of(&text[..2050])?;
    assert_eq!(rt; (bytes, longest), (2050, 2048));
    let attr = text_attributes(2048, 5, 2050);
    assert_eq!(rt;
        &attr[..14],
        b"\x02\x02\0\x08\0\0\x05\0\0\0\x05\0\x02\0".as_slice()
    );
    text[2048..].copy_from_slice(b"A\r\n");
    assert_eq!(rt; records_of(&text), Err(LineTooLong));
    Ok(())
}

#[test]
fn attributes_of_copies(rt: HostRuntime) {
    assert_eq!(rt;
        &image_attributes(3)[..14],
        b"\x01\0\0\x02\0\0\x03\0\0\0\x04\0\0\0".as_slice()
    );
    assert_eq!(rt;
        &text_attributes(0, 0, 0)[..14],
        b"\x02\x02\0\0\0\0\0\0\0\0\x01\0\0\0".as_slice()
    );
    for (attr, blocks) in [
        (attributes(1, 0, 0, 1, 8), 1),
        (attributes(1, 0, 0, 2, 0), 1),
        (attributes(1, 0, 0, 2, 1), 2),
        (attributes(1, 0, 0, 9, 0), 2),
        (attributes(1, 0, 0, 0, 9), 0),
    ] {
        assert_eq!(rt; image_blocks(&attr, 2), blocks, "{attr:?}");
    }
}

/// Bytes that are put together.
type Bytes = ArrayVec<u8, 2048>;

/// The first bytes of what is left of others, at most so many.
fn piece_of(bytes: &[u8], used: usize, size: usize) -> &[u8] {
    let rest = bytes.get(used..).unwrap_or(&[]);
    rest.get(..size).unwrap_or(rest)
}

/// The text of a file of three blocks whose bytes come in pieces of so many.
fn text_in_pieces(attr: &[u8; 32], bytes: &[u8], size: usize) -> Result<Bytes, BadRecord> {
    let mut conversion = ToText::new(attr, 3)?;
    let (mut text, mut block) = (Bytes::new(), ZEROS);
    let mut used = 0usize;
    for _ in 0..2000 {
        let (read, to) = conversion.convert(piece_of(bytes, used, size), &mut block, 0)?;
        used = used.saturating_add(read);
        let _ = text.try_extend_from_slice(&block[..to]);
    }
    Ok(text)
}

/// The records of a text that comes in pieces of so many bytes.
fn records_in_pieces(text: &[u8], size: usize) -> Result<Bytes, LineTooLong> {
    let mut conversion = ToRecords::new();
    let (mut records, mut block) = (Bytes::new(), ZEROS);
    let mut used = 0usize;
    for _ in 0..2000 {
        let (read, to) = conversion.convert(piece_of(text, used, size), &mut block, 0)?;
        used = used.saturating_add(read);
        let _ = records.try_extend_from_slice(&block[..to]);
        if used >= text.len() && to == 0 {
            conversion.finish()?;
        }
    }
    Ok(records)
}

/// A line of so many `A`, and one of a `B`: the text, and the variable records.
fn two_lines(count: usize) -> (Bytes, Bytes) {
    let (mut text, mut records) = (Bytes::new(), Bytes::new());
    let line = [b'A'; 600];
    let line = line.get(..count).unwrap_or(&[]);
    let _ = text.try_extend_from_slice(line);
    let _ = text.try_extend_from_slice(b"\r\nB\r\n");
    let _ = records.try_extend_from_slice(&[(count % 256) as u8, (count / 256 % 256) as u8]);
    let _ = records.try_extend_from_slice(line);
    let _ = records.try_extend_from_slice(&[0][..count % 2]);
    let _ = records.try_extend_from_slice(b"\x01\0B\0");
    (text, records)
}

#[test]
fn lines_cross_the_ends_of_blocks(rt: HostRuntime) -> Result<(), Fail> {
    for count in 505..=515 {
        let (text, records) = two_lines(count);
        let end = records.len();
        let attr = attributes(2, 2, 0, (end / 512 + 1) as u16, (end % 512) as u16);
        for size in [1, 2, 3, 511, 512, 513] {
            let converted = text_in_pieces(&attr, records.as_slice(), size)?;
            assert!(rt; converted == text, "{count} {size}");
            let converted = records_in_pieces(text.as_slice(), size)?;
            assert!(rt; converted == records, "{count} {size}");
        }
    }
    Ok(())
}

/// How many bytes the text of a file has whose first block is this and each other one that.
pub fn text_length(
    attr: &[u8; 32],
    blocks: u32,
    first: &Block,
    other: &Block,
) -> Result<u64, BadRecord>
    requires { blocks ≤ 516096 }
{
    let mut conversion = ToText::new(attr, blocks)?;
    let (mut text, mut count) = (ZEROS, 0u64);
    for k in 0..blocks {
        let source = if k == 0 { first } else { other };
        let mut used = 0usize;
        for _ in 0..4 {
            let (read, to) = conversion.convert(piece_of(source, used, 512), &mut text, 0)?;
            used = used.saturating_add(read);
            count = count.saturating_add(to as u64);
        }
    }
    Ok(count)
}

#[test]
fn large_files_become_text(rt: HostRuntime) {
    let other = [b'A'; 512];
    let mut first = other;
    (first[0], first[1]) = (255, 255);
    for (attr, blocks, length) in [
        (attributes(2, 0, 0, 129, 2), 129, Ok(65_537)),
        (attributes(2, 0, 0, 129, 1), 129, Ok(65_537)),
        (attributes(2, 0, 0, 129, 0), 129, Err(BadRecord)),
        (attributes(1, 0, 512, 600, 512), 600, Ok(600 * 514)),
    ] {
        assert_eq!(rt;
            text_length(&attr, blocks, &first, &other),
            length,
            "{blocks}"
        );
    }
}
