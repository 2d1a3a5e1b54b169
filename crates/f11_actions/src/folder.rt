//! The files of a folder of the host, as `put --all` takes them.
ghost use Rattle.std.specs.Prelude.{◌≡◌, IfErr, IfOk, IsPermutation, IsSorted, string_cmp};
ghost use Rattle.std.specs.Str.{bytes_eq};
ghost use Rattle.f11_actions.specs.Folder.{is_own_text, is_volumes_own, spells_own};

use f11_commands::{Failure, read_name};
use f11_making::is_directory_name;
use f11_rad50::Name;
use std::alloc::Global;

/// Brings the names of what is in a folder into the order in which they are taken, that of their bytes.
pub fn sort_names(names: &mut [String])
    ensures same { IsPermutation names.old names.new }
    ensures sorted { IsSorted string_cmp names.new }
{
    names.sort_unstable();
}

/// Whether two texts are the same.
fn is_text(text: &[u8], other: &[u8]) -> bool
    ensures { result ≡ bytes_eq text.now other.now }
{
    text == other
}

/// Whether a text is the name of one of the volume's own files.
fn is_own_text(text: &[u8]) -> bool
    ensures { result ≡ is_own_text text.now }
{
    is_text(text, b"INDEXF.SYS;1")
        || is_text(text, b"BITMAP.SYS;1")
        || is_text(text, b"BADBLK.SYS;1")
        || is_text(text, b"000000.DIR;1")
        || is_text(text, b"CORIMG.SYS;1")
}

/// Whether a name is that of a directory, or of one of the volume's own files.
fn is_volumes_own(name: &Name) -> bool
    ensures { result ≡ is_volumes_own name.now }
{
    let mut buffer = [0; 19];
    let length = name.spell(&mut buffer);
    is_directory_name(name) || is_own_text(&buffer[..length])
}

/// Whether `put --all` leaves out a file of this name in the folder of the master file directory: it is called as a directory, or as one of the
/// files that each volume has, `INDEXF.SYS;1`, `BITMAP.SYS;1`, `BADBLK.SYS;1`, `000000.DIR;1` and `CORIMG.SYS;1` (Files-11 On-Disk Structure
/// Level 1, "Known Files"). Small letters count as capitals.
///
/// # Errors
///
/// [`Failure::NoMemory`] where there was no memory for the text in upper case.
pub fn is_left_out(alloc: Global, name: &str) -> Result<bool, Failure>
    ensures own { IfOk result (λ is. is ≡ spells_own name.now) }
    ensures failures { IfErr result (λ failure. failure ≡ Failure.NoMemory) }
{
    match read_name(alloc, name)? {
        Some(name) => Ok(is_volumes_own(&name)),
        None => Ok(false),
    }
}
