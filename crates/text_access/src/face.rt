// What both programs know of the library's face for other languages (include/ptb.h): its sizes, and how it accepts.

// What a call gives when it accepts; a refusal's number is 1 or above.
pub const ACCEPTED: u64 = 0;

// The numbers that a call's answer has room for.
pub const ANSWER_VALUES: usize = 4;

// The words of a table, one for each slot.
pub const TABLE_WORDS: usize = 512;

// The bytes of a page, and so of a table's image.
pub const PAGE_BYTES: usize = 4096;
