//! The names of directories.
ghost use Rattle.std.specs.Prelude.{◌≡◌};
ghost use Rattle.f11_pip.specs.Directory.{entry_name, owner_in};

use f11_commands::directory_name;
use f11_commands::f11_rad50::Name;
use f11_store::Uic;
use f11_words::Directory;

/// Who has what nobody else is named for, [1,1].
pub const OPERATOR: Uic = Uic {
    group: 1,
    member: 1,
};

/// The name under which the master file directory has a directory.
pub fn name_of(directory: Directory) -> Name
    ensures { result ≡ entry_name directory }
{
    match directory {
        Directory::Of(user) => directory_name(user),
        Directory::Named(name) => name,
    }
}

/// Who owns a directory that is made: the user whose it is, and else [1,1].
pub fn owner_of(directory: Directory) -> Uic
    ensures { result ≡ owner_in directory }
{
    match directory {
        Directory::Of(user) => user,
        Directory::Named(_) => OPERATOR,
    }
}

/// Under which name the master file directory has a directory, and who owns it where it is made.
pub fn place_of(directory: &Directory) -> (Name, Uic)
    ensures name { result.0 ≡ entry_name directory.now }
    ensures owner { result.1 ≡ owner_in directory.now }
{
    match directory {
        Directory::Of(user) => (directory_name(*user), *user),
        Directory::Named(name) => (*name, OPERATOR),
    }
}
