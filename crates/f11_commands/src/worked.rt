//! Worked values, the contract of a function that does nothing.
ghost use Rattle.f11_commands.specs.PutSlots.{SlotsAreWorked};

/// How many slots `put` asks for.
pub fn slots()
    ensures { SlotsAreWorked }
{}
