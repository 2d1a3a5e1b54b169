//! Laws of headers that are written, each the contract of a function that does nothing.

ghost use Rattle.f11_header.specs.Laws as laws;

/// What stays where a header's fields or its areas are written, and that the right check word makes it valid.
pub fn writing()
    ensures seal { laws.CheckWordMakesValid }
    ensures fields { laws.FieldsKeepHeader }
    ensures map_area { laws.MapAreaKeepsHeader }
    ensures has_map_area { laws.HeaderHasMapArea }
{}
