//! A volume that tasks share.
use crate::volumes::verified;
use f11_commands::f11_fcp::Volume;
use f11_commands::f11_files::OpenFault;
use f11_dev::{DeviceFault, Memory};
use f11_fixtures::{SEVENS, SYSTEM, volumes};
use f11_store::{Refusal, Reply, Request, Task};
use f11_vfy::{Accepted, Report};
use std::alloc::Global;
use std::test::Fail;

pub type Mounted = Result<Volume<Memory>, OpenFault<Memory>>;

fn mount(alloc: Global, accepted: Accepted<Memory>) -> Mounted {
    Volume::mount(alloc, accepted)
}

/// Mounts an accepted volume, once more where there was no memory.
pub fn mounted(alloc: Global, accepted: Accepted<Memory>) -> Mounted {
    match mount(alloc, accepted) {
        Err(OpenFault::NoMemory(accepted)) => mount(alloc, accepted),
        done => done,
    }
}

/// What is answered to a request of a task.
pub fn ask(volume: &mut Volume<Memory>, task: Task, request: &Request) -> Result<Reply, Refusal> {
    let mut block = SEVENS;
    volume.serve(task, SYSTEM, request, &mut block)
}

/// The same, asked once more where there was no memory and the counts are as before.
fn asked(volume: &mut Volume<Memory>, task: Task, request: &Request) -> Result<Reply, Refusal> {
    let before = ask(volume, task, &Request::Space);
    match ask(volume, task, request) {
        Err(Refusal::NoMemory) if ask(volume, task, &Request::Space) == before => {
            ask(volume, task, request)
        }
        answer => answer,
    }
}

#[test]
fn a_task_adds_slots(rt: HostRuntime) -> Result<(), Fail> {
    let device = volumes::fresh(rt.alloc(), volumes::BLOCKS)?;
    let Ok(Report::Accepted(accepted, _)) = verified(rt.alloc(), device) else {
        return Err(DeviceFault)?;
    };
    let (Ok(mut volume), Some(task)) = (mounted(rt.alloc(), accepted), Task::new(0)) else {
        return Err(DeviceFault)?;
    };
    assert_eq!(rt;
        asked(&mut volume, task, &Request::GrowIndex(2)),
        Ok(Reply::Slots(18))
    );
    let Ok(accepted) = volume.dismount() else {
        return Err(DeviceFault)?;
    };
    let Ok(Report::Accepted(_, _)) = verified(rt.alloc(), accepted.device()) else {
        return Err(DeviceFault)?;
    };
    Ok(())
}
