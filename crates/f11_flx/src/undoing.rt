//! What a copy undoes.
ghost use Rattle.f11_making.specs.Asking.{who_asks};
ghost use Rattle.f11_flx.specs.Making.{Undoing};

use crate::refusal::FlxRefusal;
use crate::to_rt::is_lethal;
use f11_making::{Asked, Asker, ask};
use f11_store::Request;

/// Asks what undoes something after a refusal that is no device fault or `Damaged`: what is answered then.
pub fn undo<S: Asked>(
    service: &mut S,
    by: &Asker,
    request: Request,
    refusal: FlxRefusal,
) -> FlxRefusal
    ensures { Undoing S.service (who_asks by.now.task by.now.uic) request refusal result
        service.old service.new }
{
    if is_lethal(&refusal) {
        return refusal;
    }
    match ask(service, by, request) {
        Ok(_) => refusal,
        Err(other) => {
            let other = FlxRefusal::Files(other);
            if is_lethal(&other) { other } else { refusal }
        }
    }
}
