//! The fields of a home block, by their byte (Files-11 On-Disk Structure Level 1, "Home Block").

/// H.IBSZ, a word: how many blocks the index file's bitmap has.
pub const INDEX_BLOCKS: usize = 0;

/// H.IBLB, two words, the high one first: the LBN of that bitmap.
pub const INDEX_LBN: usize = 2;

/// H.FMAX, a word: how many files the volume may have.
pub const MAX_FILES: usize = 6;

/// H.SBCL, a word: the storage bitmap's cluster factor.
pub const CLUSTER: usize = 8;

/// H.DVTY, a word: the disk's type.
pub const DEVICE_TYPE: usize = 10;

/// H.VLEV, a word: the structure level.
pub const LEVEL: usize = 12;

/// H.VNAM, 12 bytes: the volume's label.
pub const LABEL: usize = 14;

/// H.VOWN, a word: the volume's owner, the member in its low byte.
pub const OWNER: usize = 30;

/// H.VPRO, a word: the volume's protection.
pub const PROTECTION: usize = 32;

/// H.VCHA, a word: the volume's characteristics.
pub const CHARACTERISTICS: usize = 34;

/// H.DFPR, a word: the protection that a file has where none is given.
pub const FILE_PROTECTION: usize = 36;

/// H.WISZ, a byte: how many pointers a window has where no number is given.
pub const WINDOW_POINTERS: usize = 44;

/// H.FIEX, a byte: by how many blocks a file is extended where no number is given.
pub const EXTENSION: usize = 45;

/// H.LRUC, a byte: how many directories are kept at hand.
pub const DIRECTORIES: usize = 46;

/// H.CHK1, a word: the sum of the words before it.
pub const FIRST_SUM: usize = 58;

/// H.VDAT, 14 bytes: when the volume was made.
pub const DATE: usize = 60;

/// H.INDN, 12 bytes: the volume's label, with spaces to its end.
pub const SPACED_LABEL: usize = 472;

/// H.INDO, 12 bytes: the volume's owner in text.
pub const OWNER_TEXT: usize = 484;

/// H.INDF, 12 bytes: the name of the format, [`FORMAT_NAME`].
pub const FORMAT: usize = 496;

/// H.CHK2, a word: the sum of the words before it.
pub const SECOND_SUM: usize = 510;

/// The name of the format.
pub const FORMAT_NAME: &[u8; 12] = b"DECFILE11A  ";
