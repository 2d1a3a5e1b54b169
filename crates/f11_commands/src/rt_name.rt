//! The names of files of an RT-11 volume among a command's words.
ghost use Rattle.std.specs.Prelude.{◌≡◌, ◌≤◌, List, ℕ, Some, IfSome, length, map, take};
ghost use Rattle.std.specs.Char.{to_ascii_uppercase};
ghost use Rattle.rt11_volume.specs.RtName.{RtSpells};

use rt11_volume::RtName;

/// The most bytes of a name: six, a dot and three.
const LONGEST: usize = 10;

/// The name that a text spells, small letters taken as capitals; nothing where it spells none.
pub fn read_rt_name(text: &str) -> Option<RtName>
    ensures name { IfSome result (λ words. RtSpells (map to_ascii_uppercase text.now) words) }
    ensures every { (words : List ℕ) → RtSpells (map to_ascii_uppercase text.now) words
        → result ≡ Some words }
{
    let bytes = text.as_bytes();
    if bytes.len() > LONGEST {
        return None;
    }
    let mut capitals = [0; LONGEST];
    put_capitals(&mut capitals, bytes);
    match RtName::parse(&capitals[..bytes.len()]) {
        Ok(name) => Some(name),
        Err(_) => None,
    }
}

/// Puts bytes into the front of others, small letters as capitals.
fn put_capitals(into: &mut [u8], bytes: &[u8])
    requires { length bytes.now ≤ length into.old }
    ensures front { take (length bytes.now) into.new ≡ map to_ascii_uppercase bytes.now }
{
    for i in 0..bytes.len() {
        into[i] = bytes[i].to_ascii_uppercase();
    }
}
