//! Where the fields of a file header stand (Files-11 On-Disk Structure Level 1, "File Header"), in bytes.

/// H.IDOF, a byte: the word at which the ident area begins.
pub const IDENT_OFFSET: usize = 0;

/// H.MPOF, a byte: the word at which the map area begins.
pub const MAP_OFFSET: usize = 1;

/// H.FNUM, a word: the file number.
pub const NUMBER: usize = 2;

/// H.FSEQ, a word: the file sequence number.
pub const SEQUENCE: usize = 4;

/// H.FLEV, a word: the structure level.
pub const LEVEL: usize = 6;

/// H.FOWN, two bytes: the owner's member, then the group.
pub const OWNER: usize = 8;

/// H.FPRO, a word: the protection.
pub const PROTECTION: usize = 10;

/// H.UCHA and H.SCHA, two bytes: the characteristics.
pub const CHARACTERISTICS: usize = 12;

/// H.UFAT, 32 bytes: the user attributes.
pub const ATTRIBUTES: usize = 14;

/// H.CKSM, a word: the sum of the words before it.
pub const CHECK_WORD: usize = 510;

/// The bytes of an ident area.
pub const IDENT_BYTES: usize = 46;
