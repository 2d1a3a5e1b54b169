//! What a fault and a note of the verifier of Files-11 volumes say.
use f11_findings::Finding;
use std::fmt;

/// What a fault says.
#[derive(Clone, Copy)]
pub(crate) struct FaultText(pub(crate) Finding);

impl fmt::Display for FaultText {
    ghost use Rattle.std.specs.Prelude.{Some};
    ghost use Rattle.f11_commands.specs.Report.{fault_text};

    ghost output = { λ fault. Some (fault_text fault.0) };

    #[tactic(auto, unfolding(crate::specs::Report::fault_text))]
    fn fmt<W: fmt::Write>(&self, f: &mut fmt::Formatter<W>) -> fmt::Result {
        let Finding { code, a, b } = self.0;
        match code {
            1 => write!(f, "F1 no home block"),
            2 => write!(f, "F2 index file misplaced"),
            3 => write!(f, "F3 header {a} of the first four bad"),
            4 => write!(f, "F4 storage bitmap file bad"),
            5 => write!(f, "F5 control block wrong"),
            6 => write!(f, "F6 index bit {a} past the slots"),
            7 => write!(f, "F7 header {a} bad"),
            8 => write!(f, "F8 header {a} pointer {b} outside the volume"),
            9 => write!(f, "F9 block {a} named twice"),
            10 => write!(f, "F10 block {a} named and free"),
            11 => write!(f, "F11 header {a} links wrongly"),
            12 => write!(f, "F12 header {a} linked twice"),
            13 => write!(f, "F13 header {a} links past 256"),
            _ => write!(f, "F14 header {a} links to another volume"),
        }
    }
}

/// What a note says.
#[derive(Clone, Copy)]
pub(crate) struct NoteText(pub(crate) Finding);

impl fmt::Display for NoteText {
    ghost use Rattle.std.specs.Prelude.{Some};
    ghost use Rattle.f11_commands.specs.Report.{note_text};

    ghost output = { λ note. Some (note_text note.0) };

    #[tactic(auto, unfolding(crate::specs::Report::note_text))]
    fn fmt<W: fmt::Write>(&self, f: &mut fmt::Formatter<W>) -> fmt::Result {
        let Finding { code, a, b } = self.0;
        match code {
            1 => write!(f, "N1 blocks {a} to {b} lost"),
            2 => write!(f, "N2 header {a} dead"),
            3 => write!(f, "N3 header {a} orphan"),
            4 => write!(f, "N4 file {a} marked for delete"),
            5 => write!(f, "N5 file {a} improperly closed"),
            6 => write!(f, "N6 file {a} in no directory"),
            7 => write!(f, "N7 directory {a} record {b} names no file"),
            8 => write!(f, "N8 directory {a} record {b} repeats a name"),
            9 => write!(f, "N9 directory {a} record {b} has no name"),
            _ => write!(f, "N10 file {a} not contiguous"),
        }
    }
}
