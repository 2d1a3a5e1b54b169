//! Several actions in one call: one that is refused doesn't end the others, and a transfer that fails does.
use crate::copies::volumes::{ask, mounted};
use f11_actions::{Action, Behind, print_actions};
use f11_commands::{Failure, FileAnswer, directory_name};
use f11_dev::{DeviceFault, FailOnce, Memory};
use f11_fixtures::volumes::fresh;
use f11_fixtures::{Lines, file, lines, text_of};
use f11_rad50::Name;
use f11_store::{Request, Uic, ident_with};
use std::alloc::Global;
use std::test::Fail;

/// What is written of them all.
const ALL: &[u8] =
    b"U.DIR;1 made\nA.TXT;1 truncated\nA.TXT;1 protected\nA.TXT;1 renamed B.TXT;1\nA.TXT;1 not deleted NoSuchEntry\nB.TXT;1 deleted\nall 5 done, 1 not done\n";

/// Attributes that name records of a fixed size, and an end in block 1.
const FIXED: [u8; 32] = [
    1, 0, 0, 2, 0, 0, 0, 0, 0, 0, 1, 0, 0, 0, 0, 0, 0, 0, 0, 0, 0, 0, 0, 0, 0, 0, 0, 0, 0, 0, 0, 0,
];

/// A volume with a file A.TXT;1 in the master file directory.
fn with_file(alloc: Global) -> Result<Memory, Fail> {
    let mut volume = mounted(alloc, fresh(alloc, 400)?)?;
    let name = Name::parse(b"A.TXT;1")?;
    let create = Request::Create {
        protection: 0,
        ident: ident_with(name),
        attr: FIXED,
    };
    for request in [create, Request::Enter(file(4, 4), name, file(6, 1))] {
        if ask(&mut volume, request).is_err() {
            return Err(DeviceFault)?;
        }
    }
    match volume.dismount() {
        Ok(accepted) => Ok(accepted.device()),
        Err(_) => Err(DeviceFault)?,
    }
}

/// A directory is made, and the file is truncated, protected, renamed into it, and deleted under its old name and its new one.
fn actions() -> Result<[Action; 6], Fail> {
    let directory = directory_name(Uic {
        group: 0,
        member: 0,
    });
    let name = Name::parse(b"A.TXT;1")?;
    let new = Name::parse(b"B.TXT;1")?;
    let to = Name::parse(b"U.DIR;1")?;
    Ok([
        Action::MakeDirectory {
            name: to,
            owner: Uic {
                group: 0o200,
                member: 1,
            },
            protection: 0,
        },
        Action::Truncate { directory, name },
        Action::Protect {
            directory,
            name,
            protection: 0o177400,
        },
        Action::Rename {
            directory,
            name,
            to,
            new,
        },
        Action::Delete { directory, name },
        Action::Delete {
            directory: to,
            name: new,
        },
    ])
}

#[test]
fn a_refusal_does_not_end_the_others(rt: HostRuntime) -> Result<(), Fail> {
    let mut text = lines();
    let device = with_file(rt.alloc())?;
    let (_, told) = print_actions(rt.alloc(), device, &actions()?, Behind::GoesOn, &mut text);
    assert_eq!(rt; told, Ok(FileAnswer::Refused));
    assert_eq!(rt; text_of(&text), ALL);
    Ok(())
}

/// How they end where the transfer `at`, from 1, fails, and what was written.
fn acted(alloc: Global, at: u64) -> Result<(Result<FileAnswer, Failure>, Lines), Fail> {
    let device = FailOnce::new(with_file(alloc)?, at, false);
    let mut text = lines();
    let (_, told) = print_actions(alloc, device, &actions()?, Behind::GoesOn, &mut text);
    Ok((told, text))
}

#[test]
fn a_fault_ends_them(rt: HostRuntime) -> Result<(), Fail> {
    for at in 1..=400 {
        let (told, text) = acted(rt.alloc(), at)?;
        match told {
            Err(failure) => {
                assert_eq!(rt; failure, Failure::DeviceFault);
                assert!(rt; ALL.starts_with(text_of(&text)), "{at}");
            }
            Ok(answer) => {
                assert_eq!(rt; answer, FileAnswer::Refused);
                assert_eq!(rt; text_of(&text), ALL);
                return Ok(());
            }
        }
    }
    Err(DeviceFault)?
}
