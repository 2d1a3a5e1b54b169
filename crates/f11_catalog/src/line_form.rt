//! How much the line of a file tells.

/// How much the line of a file tells.
#[derive(Clone, Copy, Debug, PartialEq, Eq)]
pub enum LineForm {
    /// Its length, end, owner, protection word in octal, and marks.
    Short,
    /// Also its dates, and how its records are kept; the protection word by what each class is granted.
    Long,
}
