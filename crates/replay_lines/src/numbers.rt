// The numbers of one part of a line, of the call or of the reply. All are hexadecimal, in small letters.
use crate::reply::UNWRITTEN;

// The most numbers that a part of a line has.
pub const NUMBERS: usize = 6;

// The base of a number.
const HEXADECIMAL: u64 = 16;

// Why a line is no line of the list.
#[derive(Clone, Copy, Debug, PartialEq, Eq)]
pub enum Fault {
    // It begins with no kind's letter.
    NoKind,
    // It has a byte that stands for nothing, or a digit before the first number.
    NoDigit,
    // It has a number above 2^64 - 1, or a digit after a dash.
    TooLarge,
    // A part of it has too few numbers for its kind, or too many.
    WrongCount,
    // It has no equals sign, and so no reply.
    NoReply,
    // Not all of its bytes were kept.
    TooLong,
}

// The numbers that were read of a part of a line: `count` of them, zeroes after these. An array with its count, since nothing is allocated.
#[derive(Clone, Copy, Debug, Default, PartialEq, Eq)]
pub struct Numbers {
    pub values: [u64; NUMBERS],
    count: usize,
}

// A number with one more digit, or the list's own fault: other than in a script, a capital and an underscore are no digits.
fn append(number: u64, byte: u8) -> Result<u64, Fault> {
    let digit = text_words::digit_of(byte)
        .filter(|_| !byte.is_ascii_uppercase())
        .ok_or(Fault::NoDigit)?;
    text_words::with_digit(HEXADECIMAL, number, digit).ok_or(Fault::TooLarge)
}

impl Numbers {
    // A number begins.
    pub(crate) fn begin(&mut self, value: u64) -> Result<(), Fault> {
        let place = self.values.get_mut(self.count).ok_or(Fault::WrongCount)?;
        *place = value;
        self.count += 1;
        Ok(())
    }

    // The last number has one more digit.
    fn go_on(&mut self, byte: u8) -> Result<(), Fault> {
        let last = self.count.checked_sub(1).ok_or(Fault::NoDigit)?;
        let number = self.values.get_mut(last).ok_or(Fault::WrongCount)?;
        *number = append(*number, byte)?;
        Ok(())
    }

    // One more byte of the part: a blank begins a number, a dash one that the call does not write, any other is a digit.
    fn step(&mut self, byte: u8) -> Result<(), Fault> {
        match byte {
            b' ' => self.begin(0),
            b'-' => self.begin(UNWRITTEN),
            _ => self.go_on(byte),
        }
    }

    // Reads a part of a line that has so many numbers. What was read before a fault stays.
    pub(crate) fn read(&mut self, part: &[u8], wanted: usize) -> Result<(), Fault> {
        for &byte in part {
            self.step(byte)?;
        }
        if self.count == wanted {
            Ok(())
        } else {
            Err(Fault::WrongCount)
        }
    }
}
