//! The names that files of the host get on an RT-11 volume.
ghost use Rattle.std.specs.Prelude.{◌≡◌, ◌≤◌, ℕ, IfErr, IfNone, IfOk, IfSome, List, OnOk, length, map, slice_index_or, take, true};
ghost use Rattle.std.specs.Char.{to_ascii_uppercase};
ghost use Rattle.std.specs.List.{filter_map};
ghost use Rattle.std.specs.Str.{str_to_ascii_uppercase};
ghost use Rattle.f11_dev.specs.Looked.{Looked};
ghost use Rattle.rt11_volume.specs.Calls.{FailsToLook, most_transfers};
ghost use Rattle.rt11_volume.specs.Entry.{is_same_name};
ghost use Rattle.rt11_volume.specs.RtName.{RtSpells};
ghost use Rattle.f11_actions.specs.RtNamed.{FailsToFindRtNames, RtThereAre, TellsRtNew, file_name, has_rt_some, rt_candidate, rt_naming};

use f11_bytes::NoMemory;
use f11_commands::Failure;
use f11_dev::Device;
use f11_patterns::{HostNames, HostNaming, fitted_text, host_names};
use rt11_volume::{LookFault, RtEntry, RtName, RtSurvey, survey};
use std::alloc::Global;

/// The most characters of a name on RT-11.
const WIDTH: usize = 6;

/// The most bytes of a name's text: six, a dot and three.
const LONGEST: usize = 10;

/// The name of a file's entry, where its words are one.
fn file_name(entry: &RtEntry) -> Option<RtName>
    ensures { result ≡ file_name entry.now }
{
    if entry.is_file() { entry.name } else { None }
}

/// The names of the files that have these entries.
fn names_in(alloc: Global, entries: &[RtEntry]) -> Result<Vec<RtName>, NoMemory>
    ensures { IfOk result (λ names. names.items ≡ filter_map file_name entries.now) }
{
    let mut names = Vec::new(alloc);
    for entry in entries {
        match file_name(entry) {
            Some(name) => names.push(name)?,
            None => {}
        }
    }
    Ok(names)
}

/// The names of the files of an RT-11 volume, and none where its directory can't be read.
fn names_there<D: Device>(alloc: Global, device: &mut D) -> Result<Vec<RtName>, LookFault>
    ensures there { IfOk result (λ names. RtThereAre names.items
        (D.disk device.old) (D.disk device.new)) }
    ensures looked { OnOk result (Looked (D.disk device.old) (D.disk device.new)
        most_transfers 0) }
    ensures failed { IfErr result (λ fault. FailsToLook fault
        (D.disk device.old) (D.disk device.new)) }
{
    match survey(alloc, device)? {
        RtSurvey::Read(_, entries) => match names_in(alloc, entries.as_slice()) {
            Ok(names) => Ok(names),
            Err(_) => Err(LookFault::NoMemory),
        },
        RtSurvey::Unreadable(_, _) => Ok(Vec::new(alloc)),
    }
}

/// Puts bytes into the front of others, small letters as capitals.
fn put_capitals(into: &mut [u8], bytes: &[u8])
    requires { length bytes.now ≤ length into.old }
    ensures front { take (length bytes.now) into.new ≡ map to_ascii_uppercase bytes.now }
{
    for i in 0..bytes.len() {
        into[i] = bytes[i].to_ascii_uppercase();
    }
}

/// The name that a part is, small letters taken as capitals; nothing where it is none.
fn name_of(part: &[u8]) -> Option<RtName>
    ensures name { IfSome result (λ name. RtSpells (str_to_ascii_uppercase part.now) name) }
    ensures none { IfNone result ((name : List ℕ)
        → ¬ RtSpells (str_to_ascii_uppercase part.now) name) }
{
    if part.len() > LONGEST {
        return None;
    }
    let mut capitals = [0; LONGEST];
    put_capitals(&mut capitals, part);
    match RtName::parse(&capitals[..part.len()]) {
        Ok(name) => Some(name),
        Err(_) => None,
    }
}

/// The candidate of a number.
fn candidate(part: &[u8], number: usize) -> RtName
    requires some { has_rt_some part.now ≡ true }
    requires few { number ≤ 999999 }
    ensures { result ≡ rt_candidate part.now number }
{
    let text = fitted_text(part, WIDTH, number);
    RtName::parse(text.as_slice()).unwrap()
}

/// Whether two names are the same.
fn is_same(one: &RtName, other: &RtName) -> bool
    ensures { result ≡ is_same_name one.now other.now }
{
    let [a, b, kind] = one.words();
    let [c, d, other_kind] = other.words();
    a == c && (b == d && kind == other_kind)
}

/// The first character of a text, and a dot where it has none.
fn first_of(text: &[u8]) -> u8
    ensures { result ≡ slice_index_or text.now 0 46 }
{
    text.get(0).copied().unwrap_or(b'.')
}

/// Whether something of a part stays for a name.
fn has_some(part: &[u8]) -> bool
    ensures { result ≡ has_rt_some part.now }
{
    let text = fitted_text(part, WIDTH, 0);
    first_of(text.as_slice()) != b'.'
}

/// Names of RT-11.
struct RtNaming;

impl HostNaming<RtName> for RtNaming {
    ghost naming = { rt_naming };

    fn own_name(&self, _there: &[RtName], part: &[u8]) -> Option<RtName> {
        name_of(part)
    }

    fn has_some(&self, part: &[u8]) -> bool {
        has_some(part)
    }

    fn candidate(&self, part: &[u8], number: usize) -> RtName {
        candidate(part, number)
    }

    fn are_alike(&self, name: &RtName, one: &RtName) -> bool {
        is_same(name, one)
    }
}

/// The names that files of the host with these paths get on the RT-11 volume on a device, by the last parts of their paths, small letters as
/// capitals. One whose last part is no name gets `None`, or, where names are fitted, the first candidate for it ([`fitted_text`], with up to six
/// characters in its name) which is none of the names that files of the volume's directory have, that the other paths are, and that fitted ones before
/// it got; and `None` where no character of its name stays, or none of a million candidates is free. Where the directory can't be read no names are there. It serves any volume, faulty or not, reads its
/// directory, at most 62 blocks, and writes nothing. Steps: at most as many as there are paths, times as many as there are names then, and for a
/// fitted one times as many as there are candidates before it.
///
/// # Errors
///
/// [`Failure::DeviceFault`] where a transfer failed, and [`Failure::NoMemory`] where there was no memory.
pub fn new_rt_names<D: Device>(
    alloc: Global,
    device: &mut D,
    paths: &[&str],
    fitting: HostNames,
) -> Result<Vec<Option<RtName>>, Failure>
    ensures names { IfOk result (λ names.
        TellsRtNew fitting (map (λ path. path.now) paths.now) names.items
        (D.disk device.old) (D.disk device.new)) }
    ensures failed { IfErr result (λ failure.
        FailsToFindRtNames failure (D.disk device.old) (D.disk device.new)) }
{
    let there = match names_there(alloc, device) {
        Ok(there) => there,
        Err(LookFault::DeviceFault) => return Err(Failure::DeviceFault),
        Err(LookFault::NoMemory) => return Err(Failure::NoMemory),
    };
    match host_names(alloc, &RtNaming, there, paths, fitting) {
        Ok(names) => Ok(names),
        Err(_) => Err(Failure::NoMemory),
    }
}
