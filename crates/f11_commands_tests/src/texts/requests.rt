//! Rights, tasks, and the names of refusals.
use bitflags::Flags;
use f11_fixtures::SYSTEM;
use f11_store::{Lun, Refusal, Task, Uic, allowed};
use std::test::Fail;

#[test]
fn rights_are_a_mask(rt: HostRuntime) {
    let owner = Uic {
        group: 0o200,
        member: 1,
    };
    for (group, word, bits) in [
        (0o201, 0o160000, 1),
        (0o200, 0o177760, 0),
        (0o201, 0o157777, 2),
        (0o201, 0o137777, 4),
        (0o201, 0o77777, 8),
        (0o200, 0o360, 15),
    ] {
        let caller = Uic { group, member: 1 };
        assert_eq!(rt; allowed(caller, owner, word).bits(), bits, "{word:o}");
    }
    assert_eq!(rt; allowed(SYSTEM, owner, 0o177760).bits(), 15);
}

#[test]
fn limits_of_tasks_and_luns(rt: HostRuntime) -> Result<(), Fail> {
    for number in [0, 7] {
        assert_eq!(rt; Task::new(number).ok_or("task")?.number(), number);
    }
    for number in [0, 3] {
        assert_eq!(rt; Lun::new(number).ok_or("lun")?.number(), number);
    }
    for (task, lun) in [(8, 4), (255, 255)] {
        assert!(rt; Task::new(task).is_none() && Lun::new(lun).is_none());
    }
    Ok(())
}

#[test]
fn refusals_are_printed(rt: HostRuntime) -> Result<(), Fail> {
    assert_eq!(rt; Refusal::VolumeFailed.number(), 1);
    assert_eq!(rt; Refusal::Damaged.number(), 20);
    assert_eq!(rt; Refusal::NoRun.number(), 22);
    let text = format!(in rt.alloc(); "no {}", Refusal::NoSuchFile)?;
    assert_eq!(rt; text.as_str(), "no NoSuchFile");
    let text = format!(in rt.alloc(); "no {}", Refusal::NotEmpty)?;
    assert_eq!(rt; text.as_str(), "no NotEmpty");
    Ok(())
}
