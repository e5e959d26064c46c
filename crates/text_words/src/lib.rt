// The words of a line, the lines of a text, and the number that a word says: decimal, or hexadecimal after 0x; underscores part
// digits. No function needs anything of its caller, and each ends on any bytes; of words and lines only safety is proved.
#![tactic(auto)]

mod line;
mod number;

pub use line::{Words, line_of};
pub use number::{NumberError, digit_of, number_of, with_digit};
