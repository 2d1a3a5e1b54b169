//! Laws of texts, each the contract of a function that does nothing: they show that the definitions say what is meant.
ghost use Rattle.rt11_text.specs.Laws as laws;

/// What becomes of a text on its way to an RT-11 volume and back, and of one with all kinds of bytes.
pub fn laws()
    ensures back { laws.ThereAndBack }
    ensures worked { laws.TextWorks }
{}
