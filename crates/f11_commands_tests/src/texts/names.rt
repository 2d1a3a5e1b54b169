//! Radix-50 and file names.
use f11_rad50::{BadCharacter, Name, decode, encode};
use std::test::Fail;

#[test]
fn radix_50(rt: HostRuntime) {
    for (characters, word) in [
        (*b"SYS", Ok(31419)),
        (*b"DIR", Ok(6778)),
        (*b"000", Ok(49230)),
        (*b"TXT", Ok(32980)),
        (*b"999", Ok(63999)),
        (*b"sYS", Err(BadCharacter)),
        (*b"S_S", Err(BadCharacter)),
        (*b"SY/", Err(BadCharacter)),
        (*b"S:S", Err(BadCharacter)),
        ([b'S', 0, b'S'], Err(BadCharacter)),
        ([b'S', b'Y', 0x80], Err(BadCharacter)),
    ] {
        assert_eq!(rt; encode(characters), word, "of {characters:?}");
    }
    for (word, characters) in [
        (31419, Some(*b"SYS")),
        (6778, Some(*b"DIR")),
        (49230, Some(*b"000")),
        (32980, Some(*b"TXT")),
        (63999, Some(*b"999")),
        (64000, None),
        (65535, None),
        (29, None),
        (29 * 40, None),
        (29 * 1600, None),
        (31419 / 40 * 40 + 29, None),
    ] {
        assert_eq!(rt; decode(word), characters, "of {word}");
    }
}

#[test]
fn words_of_no_name(rt: HostRuntime) {
    for words in [
        [0, 0, 0, 0, 1], // name and type empty
        [14964, 8966, 0, 31419, 0], // version 0
        [14964, 8966, 0, 31419, 32768], // version above 32767
        [0, 8966, 0, 31419, 1], // spaces before the name's end
        [1, 8966, 0, 31419, 1], // a space before the name's end
        [14964, 8966, 28, 31419, 1], // a dot in the name
        [14964, 8966, 0, 28 * 1600, 1], // a dot in the type
        [29, 8966, 0, 31419, 1], // the unused code
        [14964, 8966, 64000, 31419, 1], // more than 63999
        [14964, 8966, 0, 64000, 1],
    ] {
        assert_eq!(rt; Name::from_words(words), None, "{words:?}");
    }
}

/// `spell` writes the text at the front, and leaves the rest of the buffer.
#[test]
fn spelling(rt: HostRuntime) -> Result<(), Fail> {
    let mut buffer = [b'#'; 19];
    let length = Name::parse(b"INDEXF.SYS;1")?.spell(&mut buffer);
    assert_eq!(rt; length, 12);
    assert_eq!(rt; &buffer, b"INDEXF.SYS;1#######");
    let length = Name::parse(b"ABCDEFGHI.TXT;77777")?.spell(&mut buffer);
    assert_eq!(rt; length, 19);
    assert_eq!(rt; &buffer, b"ABCDEFGHI.TXT;77777");
    Ok(())
}
