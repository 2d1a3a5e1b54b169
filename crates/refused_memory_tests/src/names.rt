//! Names and their texts.
use f11_rad50::{Name, NoMemory, decode, encode};
use std::alloc::{AllocError, Global};
use std::test::Fail;

/// The characters of Radix-50, each with its code.
const CHARACTERS: &[u8; 39] = b" ABCDEFGHIJKLMNOPQRSTUVWXYZ$.0123456789";

fn empty_table(alloc: Global) -> Result<Vec<Option<[u8; 3]>>, AllocError> {
    match vec![in alloc; None; 65536] {
        Ok(table) => Ok(table),
        Err(_) => vec![in alloc; None; 65536],
    }
}

/// Every word is the value of the three characters that `encode` makes it of, and of no others.
#[test]
fn every_word(rt: HostRuntime) -> Result<(), Fail> {
    let mut table = empty_table(rt.alloc())?;
    for first in CHARACTERS {
        for second in CHARACTERS {
            for third in CHARACTERS {
                let characters = [*first, *second, *third];
                let value = usize::from(encode(characters)?);
                assert!(rt; value < table.len());
                table[value] = Some(characters);
            }
        }
    }
    for (word, characters) in (0..=u16::MAX).zip(&table) {
        assert_eq!(rt; decode(word), *characters, "at {word}");
    }
    Ok(())
}

/// A text and its five words.
const NAMES: [(&str, [u16; 5]); 7] = [
    ("INDEXF.SYS;1", [14964, 8966, 0, 31419, 1]),
    ("BITMAP.SYS;1", [3580, 20856, 0, 31419, 1]),
    ("BADBLK.SYS;1", [3244, 3691, 0, 31419, 1]),
    ("000000.DIR;1", [49230, 49230, 0, 6778, 1]),
    ("CORIMG.SYS;1", [5418, 14927, 0, 31419, 1]),
    ("ABCDEFGHI.TXT;77777", [1683, 6606, 11529, 32980, 32767]),
    (".TXT;10", [0, 0, 0, 32980, 8]),
];

#[test]
fn names(rt: HostRuntime) -> Result<(), Fail> {
    for (text, words) in NAMES {
        let name = Name::parse(text.as_bytes())?;
        assert_eq!(rt; name.words(), words, "{text}");
        assert_eq!(rt; Name::from_words(words), Some(name), "{text}");
        let spelled = text_of(rt.alloc(), &name)?;
        assert_eq!(rt; spelled.as_str(), text);
    }
    Ok(())
}

/// The text of a name, asked for again where memory was refused once.
fn text_of(alloc: Global, name: &Name) -> Result<String, NoMemory> {
    match name.text(alloc) {
        Ok(text) => Ok(text),
        Err(NoMemory) => name.text(alloc),
    }
}
