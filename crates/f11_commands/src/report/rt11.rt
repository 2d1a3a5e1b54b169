//! What a fault and a note of the verifier of RT-11 volumes say.
use f11_findings::Finding;
use std::fmt;

/// What a fault says.
#[derive(Clone, Copy)]
pub(crate) struct FaultText(pub(crate) Finding);

impl fmt::Display for FaultText {
    ghost use Rattle.std.specs.Prelude.{Some};
    ghost use Rattle.f11_commands.specs.RtReport.{rt_fault_text};

    ghost output = { λ fault. Some (rt_fault_text fault.0) };

    #[tactic(auto, unfolding(crate::specs::RtReport::rt_fault_text))]
    fn fmt<W: fmt::Write>(&self, f: &mut fmt::Formatter<W>) -> fmt::Result {
        let Finding { code, a, b } = self.0;
        match code {
            1 => write!(f, "R1 directory size wrong"),
            2 => write!(f, "R2 segment {a} links outside"),
            3 => write!(f, "R3 segment {a} links back"),
            4 => write!(f, "R4 segment {a} extra bytes wrong"),
            5 => write!(f, "R5 segment {a} has no end"),
            6 => write!(f, "R6 segment {a} entry {b} status"),
            7 => write!(f, "R7 segment {a} entry {b} past the device"),
            8 => write!(f, "R8 segment {a} begins too early"),
            _ => write!(f, "R9 highest segment wrong"),
        }
    }
}

/// What a note says.
#[derive(Clone, Copy)]
pub(crate) struct NoteText(pub(crate) Finding);

impl fmt::Display for NoteText {
    ghost use Rattle.std.specs.Prelude.{Some};
    ghost use Rattle.f11_commands.specs.RtReport.{rt_note_text};

    ghost output = { λ note. Some (rt_note_text note.0) };

    #[tactic(auto, unfolding(crate::specs::RtReport::rt_note_text))]
    fn fmt<W: fmt::Write>(&self, f: &mut fmt::Formatter<W>) -> fmt::Result {
        let Finding { code, a, b } = self.0;
        match code {
            1 => write!(f, "Q1 segment {a} entry {b} tentative"),
            2 => write!(f, "Q2 segment {a} entry {b} has no name"),
            3 => write!(f, "Q3 segment {a} entry {b} repeats a name"),
            _ => write!(f, "Q4 segment {a} begins late"),
        }
    }
}
