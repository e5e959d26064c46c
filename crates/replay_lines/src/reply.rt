// What comes back of a call.
ghost use Rattle.std.specs.Prelude.{◌≡◌, Some, slice_get};

use crate::numbers::NUMBERS;
use std::fmt;
use text_access::face::ANSWER_VALUES;

// What stands in an answer and in a list before a call.
pub const UNWRITTEN: u64 = 0x5555_5555_5555_5555;

// What stands in each place of a reply where no call was made, and is printed; no refusal has this number.
const NONE: u64 = 99;

// In place of a reply where no call was made.
pub const NO_CALL: Reply = Reply {
    number: NONE,
    values: [NONE; ANSWER_VALUES],
    sum: NONE,
};

// What comes back of a call, or what a line says that comes: the number that the call returns, its answer, and the sum of what it
// left. The number stays one, 0 or the refusal's: what is held to the list is the library's face for other languages.
#[derive(Clone, Copy, Debug, Default, PartialEq, Eq)]
pub struct Reply {
    pub number: u64,
    pub values: [u64; ANSWER_VALUES],
    pub sum: u64,
}

impl From<[u64; NUMBERS]> for Reply {
    ghost from_gives = { λ numbers reply.
        (slice_get numbers 0 ≡ Some reply.number) × (slice_get numbers 1 ≡ slice_get reply.values 0)
        × (slice_get numbers 2 ≡ slice_get reply.values 1) × (slice_get numbers 3 ≡ slice_get reply.values 2)
        × (slice_get numbers 4 ≡ slice_get reply.values 3) × (slice_get numbers 5 ≡ Some reply.sum) };

    // The numbers of a line after its equals sign, in their order.
    fn from([number, first, second, third, fourth, sum]: [u64; NUMBERS]) -> Reply {
        Reply {
            number,
            values: [first, second, third, fourth],
            sum,
        }
    }
}

impl fmt::Display for Reply {
    // The numbers as a line has them, but each after a blank, and none as a dash.
    fn fmt<W: fmt::Write>(&self, f: &mut fmt::Formatter<W>) -> fmt::Result {
        let Reply {
            number,
            values,
            sum,
        } = *self;
        let [first, second, third, fourth] = values;
        write!(
            f,
            "{number:x} {first:x} {second:x} {third:x} {fourth:x} {sum:x}"
        )
    }
}
