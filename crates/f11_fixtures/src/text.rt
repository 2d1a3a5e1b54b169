//! Lines that are written, and findings.
use f11_findings::{Finding, Findings};
use std::io::Cursor;

/// Room for some lines.
pub type Lines = Cursor<[u8; 300]>;

/// Room for lines, with none in it.
pub fn lines() -> Lines {
    Cursor::new([0; 300])
}

/// What was written.
pub fn text_of(lines: &Lines) -> &[u8] {
    lines
        .get_ref()
        .get(..lines.position() as usize)
        .unwrap_or(&[])
}

/// Whether these are the findings, each a code and two numbers.
pub fn are_found(findings: &Findings, wanted: &[(u8, u32, u32)]) -> bool {
    for (i, (code, a, b)) in wanted.iter().enumerate() {
        let finding = Finding {
            code: *code,
            a: *a,
            b: *b,
        };
        if findings.get(i) != Some(finding) {
            return false;
        }
    }
    findings.len() == wanted.len()
}
