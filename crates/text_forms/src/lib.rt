// How a number is written: an address, the values of an answer. No function needs anything of its caller, and each fails only where
// a write fails; only safety is proved.
#![tactic(auto)]

use std::fmt;
use text_access::face::ANSWER_VALUES;

// An address: twelve hexadecimal digits are its 48 bits.
#[derive(Clone, Copy, Debug, PartialEq, Eq)]
pub struct Address(pub u64);

impl fmt::Display for Address {
    fn fmt<W: fmt::Write>(&self, f: &mut fmt::Formatter<W>) -> fmt::Result {
        write!(f, "{:#014x}", self.0)
    }
}

// The values of an answer, each in hexadecimal after a blank.
#[derive(Clone, Copy, Debug, PartialEq, Eq)]
pub struct AnswerValues(pub [u64; ANSWER_VALUES]);

impl fmt::Display for AnswerValues {
    fn fmt<W: fmt::Write>(&self, f: &mut fmt::Formatter<W>) -> fmt::Result {
        for value in &self.0 {
            write!(f, " {value:#x}")?;
        }
        Ok(())
    }
}
