//! Directory records.
use f11_dev::Block;
use f11_dir::{RECORDS, Record, clear, find, first_empty, put, records};
use f11_fixtures::{SEVENS, ZEROS, file};
use f11_rad50::{BadName, Name};
use std::test::Fail;

/// The names of the master file directory of a fresh volume, whose files have the numbers and sequence numbers 1 to 5, and their words.
const NAMES: [(&[u8; 12], [u16; 5]); 5] = [
    (b"INDEXF.SYS;1", [14964, 8966, 0, 31419, 1]),
    (b"BITMAP.SYS;1", [3580, 20856, 0, 31419, 1]),
    (b"BADBLK.SYS;1", [3244, 3691, 0, 31419, 1]),
    (b"000000.DIR;1", [49230, 49230, 0, 6778, 1]),
    (b"CORIMG.SYS;1", [5418, 14927, 0, 31419, 1]),
];

/// Puts a record of file `number`.
fn put_record(block: &mut Block, i: usize, number: u16, name: &Name) {
    if i < RECORDS {
        put(block, i, file(number, number), name);
    }
}

/// The master file directory of a fresh volume.
fn master() -> Result<Block, BadName> {
    let mut block = ZEROS;
    for (i, (text, _)) in NAMES.iter().enumerate() {
        put_record(&mut block, i, (i % 5) as u16 + 1, &Name::parse(*text)?);
    }
    Ok(block)
}

/// Whether a record is that of a file and a name, or an empty one.
fn is_of(record: &Record, number: u16, words: [u16; 5], name: Option<Name>) -> bool {
    record.id == file(number, number)
        && record.words == words
        && record.is_empty() == (number == 0)
        && record.name() == name
        && name.is_none_or(|name| record.has_name(&name))
}

#[test]
fn records_of_the_master_file_directory(rt: HostRuntime) -> Result<(), Fail> {
    let all = records(&master()?);
    for (i, (text, words)) in NAMES.iter().enumerate() {
        let name = Name::parse(*text)?;
        let is_record = all.get(i).is_some_and(|record| is_of(
            record,
            (i % 5) as u16 + 1,
            *words,
            Some(name),
        ));
        assert!(rt; is_record, "record {i}");
    }
    for record in &all[5..] {
        assert!(rt; is_of(record, 0, [0; 5], None));
    }
    Ok(())
}

/// The place where a name is found, and the first empty record, of the first so many.
fn found(block: &Block, upto: usize, name: &Name) -> [Option<usize>; 2] {
    if upto > RECORDS {
        return [None; 2];
    }
    let found = find(block, upto, name);
    [found.map(|found| found.place), first_empty(block, upto)]
}

#[test]
fn records_are_found(rt: HostRuntime) -> Result<(), Fail> {
    let bitmap = Name::parse(b"BITMAP.SYS;1")?;
    let mut block = master()?;
    put_record(&mut block, 31, 9, &bitmap);
    let mut later = block;
    put_record(&mut later, 1, 0, &bitmap);
    for (block, upto, places) in [
        (&block, 32, [Some(1), Some(5)]),
        (&block, 6, [Some(1), Some(5)]),
        (&block, 5, [Some(1), None]),
        (&block, 2, [Some(1), None]),
        (&block, 1, [None, None]),
        (&later, 32, [Some(31), Some(1)]),
        (&later, 31, [None, Some(1)]),
        (&SEVENS, 32, [None, None]),
    ] {
        assert_eq!(rt; found(block, upto, &bitmap), places, "of {upto}");
    }
    Ok(())
}

#[test]
fn records_have_sixteen_bytes(rt: HostRuntime) -> Result<(), Fail> {
    let mut block = SEVENS;
    put_record(&mut block, 2, 1, &Name::parse(b"INDEXF.SYS;1")?);
    clear(&mut block, 31);
    let mut want = SEVENS;
    want[32..48].copy_from_slice(b"\x01\0\x01\0\0\0\x74\x3a\x06\x23\0\0\xbb\x7a\x01\0");
    want[496..].copy_from_slice(&[0; 16]);
    assert!(rt; block == want);
    Ok(())
}
