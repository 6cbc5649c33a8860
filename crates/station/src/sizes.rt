// The fixed sizes of a station, each once.

/// The bytes of a status answer; a command asks the answer buffer for so many.
pub const ANSWER_BYTES: usize = 13;

/// The bytes that a command and a print ask of the work buffer.
pub const WORK_BYTES: usize = 1400;

/// Labels that may be ordered since a station was made.
pub const MOST_ORDERED: u64 = 100_000_000;
