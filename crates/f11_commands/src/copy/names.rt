//! The names of a copy.
ghost use Rattle.std.specs.Prelude.{◌≡◌, ◌*◌, List, ℕ, Some, IfSome};
ghost use Rattle.f11_rad50.specs.Name.{Spells};
ghost use Rattle.rt11_volume.specs.RtName.{RtSpells};

use f11_rad50::Name;
use rt11_volume::RtName;

/// The names that two texts spell, of a file on a Files-11 volume and of one on an RT-11 volume; nothing where one of them spells none.
pub fn read_names(name: &str, rt_name: &str) -> Option<(Name, RtName)>
    ensures names { IfSome result (λ names. Spells name.now names.0 × RtSpells rt_name.now names.1) }
    ensures every { (words rt_words : List ℕ) → Spells name.now words → RtSpells rt_name.now rt_words
        → result ≡ Some (words, rt_words) }
{
    let name = match Name::parse(name.as_bytes()) {
        Ok(name) => name,
        Err(_) => return None,
    };
    match RtName::parse(rt_name.as_bytes()) {
        Ok(rt_name) => Some((name, rt_name)),
        Err(_) => None,
    }
}
