// A script, line by line: a line's bytes, and the values that the words after a command stand for.
// Leans on text_words for the words and a number, on std's Read for a line. No function needs anything of its caller, and each
// ends on any bytes; only safety is proved.
#![tactic(auto)]

mod line;
mod values;

pub use line::{LINE_BYTES, LineText, MOST_LINES, read_line};
pub use values::{LineValues, MOST_VALUES, ValuesError, values_of};
