//! The words of command lines.
use f11_store::Uic;
use f11_words::{Directory, Failure, Words, parse};
use std::alloc::Global;
use std::test::Fail;

/// What the words ask for, asked again where memory was refused once.
fn asked_for<'a>(alloc: Global, words: &'a [&'a str]) -> Result<Words<'a>, Failure> {
    match parse(alloc, words) {
        Err(Failure::NoMemory) => parse(alloc, words),
        asked => asked,
    }
}

#[test]
fn words_are_read(rt: HostRuntime) -> Result<(), Fail> {
    let words = ["f11_pip", "vfy", "--update", "a.dsk"];
    let update = Words::Vfy {
        image: "a.dsk",
        update: true,
    };
    assert_eq!(rt; asked_for(rt.alloc(), &words), Ok(update));

    let words = ["f11_pip", "ls", "a.dsk", "[200,1]"];
    let listing = Words::LsIn {
        is_long: false,
        image: "a.dsk",
        directory: Directory::Of(Uic {
            group: 128,
            member: 1,
        }),
    };
    assert_eq!(rt; asked_for(rt.alloc(), &words), Ok(listing));
    Ok(())
}

#[test]
fn wrong_words_are_usage(rt: HostRuntime) -> Result<(), Fail> {
    for words in [
        ["f11_pip", "dump", "a.dsk", "x"],
        ["f11_pip", "home", "a.dsk", "more"],
    ] {
        assert_eq!(rt; asked_for(rt.alloc(), &words), Err(Failure::Usage));
    }
    Ok(())
}
