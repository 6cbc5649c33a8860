// The fixed sizes of a station and of what it is given. Contracts name them as specs/Limits.antt does.

/// Bytes of a text.
pub const LONGEST_TEXT: usize = 40;

/// Bytes of a finished text, which may have one check character more.
pub const LONGEST_FINISHED: usize = LONGEST_TEXT + 1;

/// Bytes of a job.
pub const LONGEST_JOB: usize = 60_000;

/// Bytes of one command with its ESC, LF and NUL.
pub const LONGEST_COMMAND: usize = 255;

/// Bytes of a form.
pub const LONGEST_FORM: usize = 1024;

/// Bytes of all forms of a store.
pub const LARGEST_TOTAL: usize = LAST_FORM as usize * LONGEST_FORM;

/// The last number of a form; the first is 1.
pub const LAST_FORM: u8 = 20;

/// Text fields of a label, numbered from 1.
pub const TEXT_FIELDS: usize = 16;

/// Bar fields of a label, numbered from 1.
pub const BAR_FIELDS: usize = 8;

/// Links of one field.
pub const MOST_LINKS: usize = 4;

/// The last number of a link string; the first is 1.
pub const LAST_LINK: u8 = 8;

/// Bytes of a finished tag's line.
pub const LONGEST_LINE: usize = 1354;

/// The tags after which a printer is not loaded again.
pub const LAST_TAG: u64 = 1_000_000_000;

/// Tags of a roll.
pub const LARGEST_ROLL: u64 = 1_000_000;

/// Rows of a picture.
pub const PICTURE_ROWS: usize = 400;

/// Bytes of a row of a picture, with eight dots each.
pub const ROW_BYTES: usize = 54;

/// Bytes of a picture.
pub const PICTURE_BYTES: usize = PICTURE_ROWS * ROW_BYTES;

/// Drawings of a label.
pub const MOST_DRAWINGS: usize = 24;
