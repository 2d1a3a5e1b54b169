//! Patterns as users write them, and names that fit them or don't.
ghost use Rattle.std.specs.Prelude.{◌≡◌, ℕ, ◌<◌, ◌↔◌, [], length, slice_index_or, IsTrue, IfNone, IfSome};
ghost use Rattle.f11_patterns.specs.Pattern.{Fits, TextFits};
ghost use Rattle.f11_patterns.specs.Lent.{parts_of};

use crate::like::is_like;
use crate::{BadPattern, HostNames, Pattern, Versions, names_of, next_version};
use f11_rad50::{BadName, Name};
use std::alloc::Global;
use std::test::Fail;

/// Patterns, and a name that fits each (RSX-11M-PLUS MCR Operations Manual, wildcards; profile: small letters).
const FITTING: [(&str, &str); 26] = [
    ("*.TXT;*", "A.TXT;7"),
    ("*.*;*", "LOGIN.CMD;12"),
    ("*.*;*", "A.;1"),
    ("*.*;*", ".A;1"),
    ("*.*", "LOGIN.CMD;3"),
    ("LOGIN.CMD", "LOGIN.CMD;1"),
    ("LOGIN.CMD;", "LOGIN.CMD;77777"),
    ("LOGIN.CMD;0", "LOGIN.CMD;5"),
    ("LOGIN.CMD;00000", "LOGIN.CMD;5"),
    ("LOGIN.CMD;12", "LOGIN.CMD;12"),
    ("LOGIN.CMD;012", "LOGIN.CMD;12"),
    ("login.cmd;1", "LOGIN.CMD;1"),
    ("LoGiN.c*;1", "LOGIN.CMD;1"),
    ("A%.*;1", "AB.C;1"),
    ("%.%%;*", "7.$Z;2"),
    ("*A*.*;*", "BANANA.FTN;4"),
    ("*A.*;*", "BANANA.FTN;4"),
    ("B*N*A.F%N;*", "BANANA.FTN;4"),
    ("**B**.**;*", "B.;1"),
    ("*%*.*;*", "B.;1"),
    ("*.;*", "MAKEFILE.;1"),
    (".*;*", ".TXT;1"),
    (".%;*", ".T;1"),
    ("ABCDEFGHI.TXT;77777", "ABCDEFGHI.TXT;77777"),
    ("%%%%%%%%%.%%%;77777", "ABCDEFGHI.TXT;77777"),
    ("*********.***;*", "ABCDEFGHI.TXT;77777"),
];

/// Patterns, and a name that doesn't fit each.
const OTHERS: [(&str, &str); 26] = [
    ("*.TXT;*", "A.TXX;7"),
    ("*.TXT;*", "A.TX;7"),
    ("*.TXT;*", "A.;7"),
    ("LOGIN.CMD", "LOGIN.CM;1"),
    ("LOGIN.CMD", "LOGI.CMD;1"),
    ("LOGIN.CMD", "LOGINS.CMD;1"),
    ("LOGIN.CMD;1", "LOGIN.CMD;2"),
    ("LOGIN.CMD;12", "LOGIN.CMD;1"),
    ("login.cmd;10", "LOGIN.CMD;12"),
    ("*.*;1", "LOGIN.CMD;11"),
    ("A%.*;1", "A.C;1"),
    ("A%.*;1", "ABC.C;1"),
    ("A%.*;1", "BB.C;1"),
    ("%.%%;*", "7.$;2"),
    ("%.%%;*", ".$Z;2"),
    ("*A*.*;*", "BIN.FTN;4"),
    ("*AN.*;*", "BANANA.FTN;4"),
    ("B*N*B.F%N;*", "BANANA.FTN;4"),
    ("**B**.**;*", "A.;1"),
    ("*%*.*;*", ".B;1"),
    ("*.;*", "MAKEFILE.X;1"),
    (".*;*", "T.TXT;1"),
    (".%;*", ".TT;1"),
    ("ABCDEFGHI.TXT;77777", "ABCDEFGHI.TXT;77776"),
    ("%%%%%%%%.%%%;77777", "ABCDEFGHI.TXT;77777"),
    ("********Z.***;*", "ABCDEFGHI.TXT;77777"),
];

/// Texts that are no pattern.
const BAD: [&str; 26] = [
    "",
    ".",
    ".;*",
    ".;1",
    ";1",
    "LOGIN",
    "LOGIN;1",
    "*",
    "LOGIN,CMD",
    "ABCDEFGHIJ.TXT",
    "**********.*",
    "A.TXTS",
    "A.%%%%",
    "A.B.C",
    "A.B;1;2",
    "A B.C",
    "A.B ;1",
    "A-B.C",
    "[1,1]A.B",
    "A.B;8",
    "A.B;-1",
    "A.B;1*",
    "A.B;**",
    "A.B;%",
    "A.B;100000",
    "A.B;000001",
];

/// Patterns, the versions that each asks for, and whether it means one name at most.
const READ: [(&str, Versions, bool); 20] = [
    ("LOGIN.CMD", Versions::Highest, true),
    ("LOGIN.CMD;", Versions::Highest, true),
    ("LOGIN.CMD;0", Versions::Highest, true),
    ("LOGIN.CMD;00", Versions::Highest, true),
    ("LOGIN.CMD;*", Versions::Each, false),
    ("LOGIN.CMD;1", Versions::Exactly(1), true),
    ("LOGIN.CMD;10", Versions::Exactly(8), true),
    ("LOGIN.CMD;77777", Versions::Exactly(32767), true),
    ("login.cmd;00007", Versions::Exactly(7), true),
    ("LOGIN.;1", Versions::Exactly(1), true),
    (".CMD;1", Versions::Exactly(1), true),
    ("$.$", Versions::Highest, true),
    ("L*.CMD", Versions::Highest, false),
    ("LOGIN.*;1", Versions::Exactly(1), false),
    ("LOGI%.CMD;1", Versions::Exactly(1), false),
    ("LOGIN.C%D", Versions::Highest, false),
    ("*.*;*", Versions::Each, false),
    ("*.;*", Versions::Each, false),
    ("%.;", Versions::Highest, false),
    ("ABCDEFGHI.XYZ;77777", Versions::Exactly(32767), true),
];

/// Whether the name that one text spells fits the pattern that another one is; `None` where they aren't both.
fn text_fits(pattern: &str, name: &str) -> Option<bool>
    ensures fits { IfSome result (λ fits. IsTrue fits ↔ TextFits pattern.now name.now) }
    ensures none { IfNone result (¬ TextFits pattern.now name.now) }
{
    match Pattern::parse(pattern.as_bytes()) {
        Ok(pattern) => match Name::parse(name.as_bytes()) {
            Ok(name) => Some(pattern.fits(&name)),
            Err(BadName) => None,
        },
        Err(BadPattern) => None,
    }
}

/// The place of the first name that fits, as who looks through a directory finds it.
fn first_that_fits(pattern: Pattern, names: &[Name]) -> Option<usize>
    ensures found { IfSome result (λ at.
        (at < length names.now) × Fits (parts_of pattern.entry) (slice_index_or names.now at [])) }
    ensures before { IfSome result (λ at. (k : ℕ)
        → k < at
        → ¬ Fits (parts_of pattern.entry) (slice_index_or names.now k [])) }
    ensures none { IfNone result ((k : ℕ)
        → k < length names.now
        → ¬ Fits (parts_of pattern.entry) (slice_index_or names.now k [])) }
{
    for (at, name) in names.iter().enumerate() {
        if pattern.fits(name) {
            return Some(at);
        }
    }
    None
}

/// Which versions a text asks for as a pattern, and whether it means one name at most; `None` where it is none.
fn read(text: &str) -> Option<(Versions, bool)> {
    match Pattern::parse(text.as_bytes()) {
        Ok(pattern) => Some((pattern.versions(), pattern.is_one())),
        Err(BadPattern) => None,
    }
}

#[test]
fn names_fit(rt: HostRuntime) {
    for (pattern, name) in FITTING {
        assert!(rt;
            text_fits(pattern, name) == Some(true),
            "{pattern} and {name}"
        );
    }
}

#[test]
fn other_names_do_not_fit(rt: HostRuntime) {
    for (pattern, name) in OTHERS {
        assert!(rt;
            text_fits(pattern, name) == Some(false),
            "{pattern} and {name}"
        );
    }
}

#[test]
fn texts_that_are_no_pattern(rt: HostRuntime) -> Result<(), Fail> {
    for text in BAD {
        assert!(rt; read(text) == None, "{text}");
    }
    let told = format!(in rt.alloc(); "{BadPattern}")?;
    assert_eq!(rt; told.as_str(), "bad pattern");
    Ok(())
}

#[test]
fn what_patterns_ask_for(rt: HostRuntime) {
    for (text, versions, is_one) in READ {
        assert!(rt; read(text) == Some((versions, is_one)), "{text}");
    }
}

/// The place of the first of three names that fits the pattern that a text is.
fn found(text: &str, names: &[Name; 3]) -> Option<usize> {
    match Pattern::parse(text.as_bytes()) {
        Ok(pattern) => first_that_fits(pattern, names),
        Err(BadPattern) => None,
    }
}

#[test]
fn first_names_are_found(rt: HostRuntime) -> Result<(), Fail> {
    let names = [
        Name::parse(b"B.TXT;1")?,
        Name::parse(b"A.C;1")?,
        Name::parse(b"AB.C;1")?,
    ];
    assert!(rt; found("*.*;*", &names) == Some(0));
    assert!(rt; found("%.C;*", &names) == Some(1));
    assert!(rt; found("A%.*;1", &names) == Some(2));
    assert!(rt; found("C.*;*", &names) == None);
    Ok(())
}

/// Whether a text is like a pattern, decided in steps: where a character isn't the one asked for, the last `*` takes one
/// more.
fn is_like_in_steps(pattern: &[u8], text: &[u8]) -> bool {
    let mut asked = 0;
    let mut read = 0;
    let mut star: Option<(usize, usize)> = None;
    for _ in 0..1000 {
        if asked < pattern.len() && pattern[asked] == b'*' {
            star = Some((asked, read));
            asked += 1;
        } else if asked < pattern.len()
            && read < text.len()
            && (pattern[asked] == b'%' || pattern[asked].eq_ignore_ascii_case(&text[read]))
        {
            asked += 1;
            read += 1;
        } else if asked >= pattern.len() && read >= text.len() {
            return true;
        } else {
            match star {
                Some((place, taken)) if taken < text.len() => {
                    star = Some((place, taken + 1));
                    asked = place.saturating_add(1);
                    read = taken + 1;
                }
                _ => return false,
            }
        }
    }
    false
}

/// The letters of generated patterns, and of the texts that are compared with them.
const PATTERN_LETTERS: &[u8; 4] = b"Ab*%";

const TEXT_LETTERS: &[u8; 4] = b"AB$7";

/// Nine letters by the digits of a number, two bits each.
fn spelled(number: u32, letters: &[u8; 4]) -> [u8; 9] {
    let mut text = [0; 9];
    let mut left = number;
    for place in text.iter_mut() {
        *place = letters[(left % 4) as usize];
        left /= 4;
    }
    text
}

/// Whether both ways decide alike about the first letters of two texts, up to so many of each.
fn agree(pattern: &[u8; 9], text: &[u8; 9], most: usize) -> bool {
    for asked in 0..most.min(9) + 1 {
        for read in 0..most.min(9) + 1 {
            let pattern = &pattern[..asked];
            let text = &text[..read];
            if is_like(pattern, text) != is_like_in_steps(pattern, text) {
                return false;
            }
        }
    }
    true
}

#[test]
fn short_patterns_are_decided_as_in_steps(rt: HostRuntime) {
    for asked in 0..256 {
        let pattern = spelled(asked, PATTERN_LETTERS);
        for given in 0..64 {
            let alike = agree(&pattern, &spelled(given, TEXT_LETTERS), 4);
            assert!(rt; alike, "{asked} and {given}");
        }
    }
}

#[test]
fn long_patterns_are_decided_as_in_steps(rt: HostRuntime) {
    let mut number: u32 = 1;
    for _ in 0..1000 {
        let pattern = spelled(number >> 8, PATTERN_LETTERS);
        number = number.wrapping_mul(1664525).wrapping_add(1013904223);
        let text = spelled(number >> 8, TEXT_LETTERS);
        assert!(rt; agree(&pattern, &text, 9), "{number}");
    }
}

/// Which of these names a pattern means, and which of them a purge by it deletes.
fn meant(text: &str, names: &[Name; 4]) -> Option<([bool; 4], [bool; 4])> {
    let Ok(pattern) = Pattern::parse(text.as_bytes()) else {
        return None;
    };
    let mut means = [false; 4];
    let mut superseded = [false; 4];
    for (at, name) in names.iter().enumerate() {
        means[at] = pattern.means(names, name);
        superseded[at] = pattern.supersedes(names, name);
    }
    Some((means, superseded))
}

#[test]
fn the_highest_version_is_meant(rt: HostRuntime) -> Result<(), Fail> {
    let names = [
        Name::parse(b"A.TXT;1")?,
        Name::parse(b"A.TXT;13")?,
        Name::parse(b"B.TXT;2")?,
        Name::parse(b"A.TXT;7")?,
    ];
    let all = [true; 4];
    let none = [false; 4];
    let highest = [false, true, true, false];
    let others = [true, false, false, true];
    assert!(rt; meant("*.TXT", &names) == Some((highest, others)));
    assert!(rt; meant("*.*;*", &names) == Some((all, others)));
    assert!(rt; meant("a.txt;1", &names) == Some(([true, false, false, false], others)));
    assert!(rt; meant("B.*;0", &names) == Some(([false, false, true, false], none)));
    assert!(rt; meant("C.TXT", &names) == Some((none, none)));
    Ok(())
}

/// A name, in these names of a directory, and with its next version there; `None` where there is none.
fn next(name: &str, names: &[Name; 4]) -> Option<Name> {
    match Name::parse(name.as_bytes()) {
        Ok(name) => next_version(names, &name),
        Err(BadName) => None,
    }
}

#[test]
fn the_next_version_is_above_the_highest(rt: HostRuntime) -> Result<(), Fail> {
    let names = [
        Name::parse(b"A.TXT;7")?,
        Name::parse(b"A.TXT;1")?,
        Name::parse(b"B.TXT;77777")?,
        Name::parse(b"A.LST;2")?,
    ];
    assert!(rt; next("A.TXT;1", &names) == Some(Name::parse(b"A.TXT;10")?));
    assert!(rt; next("A.TXT;12", &names) == Some(Name::parse(b"A.TXT;10")?));
    assert!(rt; next("A.LST;1", &names) == Some(Name::parse(b"A.LST;3")?));
    assert!(rt; next("B.TXT;1", &names) == None);
    assert!(rt; next("C.TXT;4", &names) == Some(Name::parse(b"C.TXT;1")?));
    Ok(())
}

/// Whether files of the host with these paths get these names beside one that is there.
fn get(
    alloc: Global,
    there: &str,
    paths: &[&str],
    fitting: HostNames,
    names: &[Option<Name>],
) -> Result<bool, Fail> {
    let mut all = Vec::new(alloc);
    all.push(Name::parse(there.as_bytes())?)?;
    let given = names_of(alloc, all, paths, fitting)?;
    Ok(given.as_slice() == names)
}

#[test]
fn names_that_are_names_are_given_first(rt: HostRuntime) -> Result<(), Fail> {
    let paths = ["my file.txt", "in/MYFILE.TXT", "a-b.c", "my,file.txt"];
    let own = Some(Name::parse(b"MYFILE.TXT;1")?);
    let fitted = [
        Some(Name::parse(b"MYFILE1.TXT;1")?),
        own,
        Some(Name::parse(b"AB1.C;1")?),
        Some(Name::parse(b"MYFILE2.TXT;1")?),
    ];
    let as_they_are = [None, own, None, None];
    assert!(rt; get(rt.alloc(), "AB.C;7", &paths, HostNames::Fitted, &fitted)?);
    assert!(rt;
        get(
            rt.alloc(),
            "AB.C;7",
            &paths,
            HostNames::AsTheyAre,
            &as_they_are
        )?
    );
    Ok(())
}
