// What the list can lend to its calls, and how much of it is lent.
use crate::calls::Loan;
use replay_lines::{Entry, Kind, Lent, Reply, UNWRITTEN};
use text_access::face::{ANSWER_VALUES, TABLE_WORDS};

// The tables, and so the ledger numbers, that a call can be lent.
const TABLES: usize = 12;

// The words that a call can be lent.
const WORDS: usize = TABLES * TABLE_WORDS;

// The numbers of a list that a call can be lent.
const LIST_NUMBERS: usize = 2048;

// The words and the ledger that the calls share, and what is lent of them.
#[derive(Drop)]
pub struct Memory {
    words: [u64; WORDS],
    ledger: [u32; TABLES],
    lent: Lent,
}

impl Memory {
    // Zeroes, of which nothing is lent.
    pub fn new() -> Memory {
        Memory {
            words: [0; WORDS],
            ledger: [0; TABLES],
            lent: Lent::default(),
        }
    }

    // Does what a line of the list says, on the first words, ledger numbers and numbers of a list, as many as are lent. What comes
    // back; None where there are fewer, or no such place.
    pub fn replay(&mut self, entry: &Entry) -> Option<Reply> {
        if let Kind::Make | Kind::Lend = entry.kind {
            self.lent = Lent::from(entry.numbers);
        }
        let mut numbers = [UNWRITTEN; LIST_NUMBERS];
        let mut values = [UNWRITTEN; ANSWER_VALUES];
        let list = numbers.get_mut(..entry.room())?;
        let mut loan = Loan {
            words: self.words.get_mut(..self.lent.words)?,
            ledger: self.ledger.get_mut(..self.lent.ledger_numbers)?,
            handle: self.lent.handle,
        };
        let number = loan.run(entry, list, &mut values)?;
        Some(Reply {
            number,
            values,
            sum: loan.sum(list),
        })
    }
}
