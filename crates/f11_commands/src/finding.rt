//! A mounted volume, as commands have it: for whom they ask, and files that are found by their names.
ghost use Rattle.std.specs.Prelude.{◌≡◌, ◌+◌, ◌%◌, IfOk, IfErr};
ghost use Rattle.f11_commands.specs.Copying.{directory_name, operator};
ghost use Rattle.f11_commands.specs.Finding.{directory_text, is_found};
ghost use Rattle.f11_making.specs.Asking.{Fails, Grants, told};
ghost use Rattle.f11_making.specs.Volume.{of_volume};
ghost use Rattle.f11_serving.specs.fcp.Serving.{device_in};
ghost use Rattle.f11_store.specs.declared.requests.Reply.TheVariants as reply;
ghost use Rattle.f11_store.specs.declared.requests.Request.TheVariants as request;

use f11_dev::Device;
use f11_making::{Asker, ask};
use f11_rad50::Name;
use f11_serving::f11_fcp::{Failed, Volume};
use f11_store::{FileId, Lun, Refusal, Reply, Request, Task, Uic};

/// The user for whom a command asks, [1,1].
pub const OPERATOR: Uic = Uic {
    group: 1,
    member: 1,
};

/// The directory in which those of users stand.
pub const MASTER_DIRECTORY: FileId = FileId {
    number: 4,
    sequence: 4,
    volume: 0,
};

/// The task for which a command asks.
pub fn first_task() -> Task
    ensures { result ≡ 0 }
{
    Task::new(0).unwrap()
}

/// The lun by which a command accesses a file.
pub fn first_lun() -> Lun
    ensures { result ≡ 0 }
{
    Lun::new(0).unwrap()
}

/// An octal digit's character.
fn octal_digit(value: u8) -> u8
    ensures { result ≡ 48 + value % 8 }
{
    b'0' + value % 8
}

/// How the name of a user's directory is spelled.
fn directory_text(uic: Uic) -> [u8; 12]
    ensures { result ≡ directory_text uic }
{
    [
        octal_digit(uic.group / 64),
        octal_digit(uic.group / 8),
        octal_digit(uic.group),
        octal_digit(uic.member / 64),
        octal_digit(uic.member / 8),
        octal_digit(uic.member),
        b'.',
        b'D',
        b'I',
        b'R',
        b';',
        b'1',
    ]
}

/// The name of a user's directory: group and member in three octal digits each, as `200001.DIR;1`.
pub fn directory_name(uic: Uic) -> Name
    ensures { result ≡ directory_name uic }
{
    let text = directory_text(uic);
    Name::parse(&text).unwrap()
}

/// Finds the file that a directory has under a name.
pub fn find<D: Device>(volume: &mut Volume<D>, dir: FileId, name: &Name) -> Result<FileId, Refusal>
    ensures found { IfOk result (λ id. Grants of_volume operator
        (told (request.Find dir name.now) (reply.Found id)) volume.old volume.new) }
    ensures refused { IfErr result (λ e. Fails of_volume operator is_found
        (request.Find dir name.now) e volume.old volume.new) }
{
    let by = Asker {
        task: first_task(),
        lun: first_lun(),
        uic: OPERATOR,
    };
    match ask(volume, &by, Request::Find(dir, *name))? {
        Reply::Found(id) => Ok(id),
        _ => Err(Refusal::Damaged),
    }
}

/// Gives a volume up, and its device.
pub fn dismount<D: Device>(volume: Volume<D>) -> D
    ensures { result ≡ device_in volume }
{
    match volume.dismount() {
        Ok(accepted) => accepted.device(),
        Err(Failed(device)) => device,
    }
}
