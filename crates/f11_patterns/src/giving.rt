//! The names that files of the host get on a kind of volume: their own, and fitted ones for those that have none there.
ghost use Rattle.std.specs.Prelude.{◌≡◌, ◌≤◌, ◌++◌, ◌∷◌, [], IfOk, OnOk, map, true};
ghost use Rattle.std.specs.List.{list_any};
ghost use Rattle.f11_patterns.specs.Giving.{GetInTurn, GetNames, Naming, first_candidate, fitted_among, own_or_fitted, with_name, with_names};
ghost use Rattle.f11_patterns.specs.Turns.{GetsIn};

use crate::names::{HostNames, last_part};
use f11_bytes::NoMemory;
use std::alloc::Global;

/// How many candidates of a fitted name are looked at, from number 0 on: those of six digits at most.
const CANDIDATES: usize = 1_000_000;

/// The names of a kind of volume, as files of the host get them.
pub trait HostNaming<N> {
    /// Which name the last part of a path is, or that it is none, and how one that is none is fitted.
    ghost naming: { Naming N };

    /// The name that a part is beside those that are there, or that a file gets which is put beside them by it.
    fn own_name(&self, there: &[N], part: &[u8]) -> Option<N>
        ensures own { naming.IsNamed there.now result part.now };

    /// Whether something of a part stays for a fitted name.
    fn has_some(&self, part: &[u8]) -> bool
        ensures some { result ≡ naming.has_some part.now };

    /// The candidate of a number.
    fn candidate(&self, part: &[u8], number: usize) -> N
        requires some { naming.has_some part.now ≡ true }
        requires few { number ≤ 999999 }
        ensures candidate { result ≡ naming.candidate part.now number };

    /// Whether a name counts as the same as one that is there.
    fn are_alike(&self, name: &N, one: &N) -> bool
        ensures alike { result ≡ naming.are_alike name.now one.now };
}

/// Which names are given.
#[derive(Clone, Copy)]
enum Turn {
    /// Their own, to all files that have one.
    Own,
    /// Fitted ones, to the others.
    Fitted,
}

/// Whether a name counts as the same as one of those that are there.
fn is_there<N: Copy, K: HostNaming<N>>(kind: &K, there: &[N], name: &N) -> bool
    ensures { result ≡ list_any (K.naming.are_alike name.now) there.now }
{
    there.iter().any(|one| kind.are_alike(name, one))
}

/// The first candidate that is free.
fn first_candidate<N: Copy, K: HostNaming<N>>(kind: &K, there: &[N], part: &[u8]) -> Option<N>
    requires some { K.naming.has_some part.now ≡ true }
    ensures { result ≡ first_candidate K.naming there.now part.now }
{
    for number in 0..CANDIDATES {
        let name = kind.candidate(part, number);
        if !is_there(kind, there, &name) {
            return Some(name);
        }
    }
    None
}

/// The fitted name of a part beside those that are there.
fn fitted_among<N: Copy, K: HostNaming<N>>(kind: &K, there: &[N], part: &[u8]) -> Option<N>
    ensures { result ≡ fitted_among K.naming there.now part.now }
{
    if !kind.has_some(part) {
        return None;
    }
    first_candidate(kind, there, part)
}

/// The name that a file gets in a turn, beside those that are there.
fn name_in<N: Copy, K: HostNaming<N>>(kind: &K, turn: Turn, there: &[N], path: &str) -> Option<N>
    ensures gets { GetsIn turn K.naming there.now path.now result }
{
    let part = last_part(path.as_bytes());
    let own = kind.own_name(there, part);
    match turn {
        Turn::Own => own,
        Turn::Fitted => match own {
            Some(_) => None,
            None => fitted_among(kind, there, part),
        },
    }
}

/// Adds a name to those that are there, if it is one.
fn keep<N: Copy>(there: &mut Vec<N>, name: &Option<N>) -> Result<(), NoMemory>
    ensures { OnOk result (there.new.items ≡ with_name there.old.items name.now) }
{
    if let Some(name) = name {
        there.push(*name)?;
    }
    Ok(())
}

/// Adds it to those that files get.
fn give<N: Copy>(names: &mut Vec<Option<N>>, name: Option<N>) -> Result<(), NoMemory>
    ensures { OnOk result (names.new.items ≡ names.old.items ++ name ∷ []) }
{
    match names.push(name) {
        Ok(()) => Ok(()),
        Err(_) => Err(NoMemory),
    }
}

/// The names that files get in a turn, one behind another, which are added to those that are there.
fn in_turn<N: Copy, K: HostNaming<N>>(
    alloc: Global,
    kind: &K,
    turn: Turn,
    there: &mut Vec<N>,
    paths: &[&str],
) -> Result<Vec<Option<N>>, NoMemory>
    ensures names { IfOk result (λ names. GetInTurn (GetsIn turn K.naming) there.old.items
        (map (λ path. path.now) paths.now) names.items) }
    ensures there { IfOk result (λ names.
        there.new.items ≡ with_names there.old.items names.items) }
{
    let mut names = Vec::new(alloc);
    for path in paths {
        let name = name_in(kind, turn, there, path);
        keep(there, &name)?;
        give(&mut names, name)?;
    }
    Ok(names)
}

/// Each one's own name, and the fitted one where it has none.
fn own_or_fitted<N: Copy>(
    alloc: Global,
    owns: &[Option<N>],
    fits: &[Option<N>],
) -> Result<Vec<Option<N>>, NoMemory>
    ensures { IfOk result (λ names. names.items ≡ own_or_fitted owns.now fits.now) }
{
    let mut names = Vec::new(alloc);
    for at in 0..owns.len().min(fits.len()) {
        give(&mut names, owns[at].or(fits[at]))?;
    }
    Ok(names)
}

/// The names that files of the host with these paths get beside those that are there, by the last parts of their paths. First each gets its own, if
/// the part is one: one behind another, beside those that are there and those that the ones before it got. The others get `None`, or, where names are
/// fitted, one behind another the first candidate that counts as none of all those and of the fitted ones before it; and `None` where no character
/// of the part stays, or none of a million candidates is free. Steps: at most as many as there are paths, times as many as there are names then, and
/// for a fitted one times as many as there are candidates before it.
///
/// # Errors
///
/// `NoMemory` where there is no memory for them.
pub fn host_names<N: Copy, K: HostNaming<N>>(
    alloc: Global,
    kind: &K,
    there: Vec<N>,
    paths: &[&str],
    fitting: HostNames,
) -> Result<Vec<Option<N>>, NoMemory>
    ensures names { IfOk result (λ names. GetNames K.naming fitting there.items
        (map (λ path. path.now) paths.now) names.items) }
{
    let mut all = there;
    let owns = in_turn(alloc, kind, Turn::Own, &mut all, paths)?;
    match fitting {
        HostNames::AsTheyAre => Ok(owns),
        HostNames::Fitted => {
            let fits = in_turn(alloc, kind, Turn::Fitted, &mut all, paths)?;
            own_or_fitted(alloc, &owns, &fits)
        }
    }
}
