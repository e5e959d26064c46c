// What the calls are lent from a make or lend line on.
ghost use Rattle.std.specs.Prelude.{◌≡◌, Some, slice_get};

use crate::numbers::NUMBERS;

// The three numbers of a handle, as the library's face for other languages takes them.
#[derive(Clone, Copy, Debug, Default, PartialEq, Eq)]
pub struct Handle {
    pub base: u64,
    pub level: u64,
    pub range: u64,
}

// How many words and ledger numbers a call is lent, and its handle. Before the first line nothing is lent.
#[derive(Clone, Copy, Debug, Default, PartialEq, Eq)]
pub struct Lent {
    pub words: usize,
    pub ledger_numbers: usize,
    pub handle: Handle,
}

impl From<[u64; NUMBERS]> for Lent {
    ghost from_gives = { λ numbers lent.
        (slice_get numbers 0 ≡ Some lent.words) × (slice_get numbers 1 ≡ Some lent.ledger_numbers)
        × (slice_get numbers 2 ≡ Some lent.handle.base) × (slice_get numbers 3 ≡ Some lent.handle.level)
        × (slice_get numbers 4 ≡ Some lent.handle.range) };

    // What the numbers of a make or lend line say.
    fn from([words, ledger_numbers, base, level, range, _]: [u64; NUMBERS]) -> Lent {
        Lent {
            words: words as usize,
            ledger_numbers: ledger_numbers as usize,
            handle: Handle { base, level, range },
        }
    }
}
