// The calls by their outside names, on what the list lends them. They are made through ptb, the library's face for other languages,
// and so each takes its handle as three numbers and gives a number, 0 or its refusal's: it is that face that the list tests.
use replay_lines::{Entry, Handle, Kind, NUMBERS};
use text_access::face::{ACCEPTED, ANSWER_VALUES, PAGE_BYTES};

// The bytes that a page image can be lent: one more than a page has.
const IMAGE_BYTES: usize = PAGE_BYTES + 1;

// What stands in a page before a call.
const UNWRITTEN_BYTE: u8 = 0x55;

// The place in the list that takes the sum of a page.
const PAGE_SUM: usize = 0;

// What a call is lent of the pool, and its handle.
#[derive(Drop)]
pub struct Loan<'a> {
    pub words: &'a mut [u64],
    pub ledger: &'a mut [u32],
    pub handle: Handle,
}

// What is answered to a write by another hand: nothing where there is no such place.
fn done(written: bool) -> Option<u64> {
    written.then_some(ACCEPTED)
}

impl Loan<'_> {
    // What a line does: a call, a write by another hand, or nothing where it only lends. The number that comes back; None where no
    // call can be made.
    pub fn run(
        &mut self,
        entry: &Entry,
        list: &mut [u64],
        answer: &mut [u64; ANSWER_VALUES],
    ) -> Option<u64> {
        let numbers = entry.numbers;
        match entry.kind {
            Kind::Make => Some(self.make(answer)),
            Kind::Lend => Some(ACCEPTED),
            Kind::Word => self.write_word(numbers),
            Kind::Number => self.write_number(numbers),
            Kind::Map => Some(self.map(numbers, answer)),
            Kind::Modify => Some(self.modify(numbers, list, answer)),
            Kind::Compact => Some(self.compact(answer)),
            Kind::LookUp => Some(self.look_up(numbers, answer)),
            Kind::List => Some(self.list(numbers, list, answer)),
            Kind::Page => self.image(numbers, list, answer),
            Kind::Check => Some(self.check(answer)),
        }
    }

    // The sum of all that a call leaves: the list that it was lent, and the rest of what it was lent.
    pub fn sum(&self, list: &[u64]) -> u64 {
        replay_sum::left(list, self.words, self.ledger)
    }

    // The call make.
    fn make(&mut self, answer: &mut [u64; ANSWER_VALUES]) -> u64 {
        let Handle { base, level, range } = self.handle;
        ptb::ptb_make(self.words, self.ledger, base, level, range, answer)
    }

    // Writes a word of the pool.
    fn write_word(&mut self, [place, word, ..]: [u64; NUMBERS]) -> Option<u64> {
        done(text_access::put(self.words, place as usize, word))
    }

    // Writes a number of the ledger, if it is one.
    fn write_number(&mut self, [place, number, ..]: [u64; NUMBERS]) -> Option<u64> {
        let number = u32::try_from(number).ok()?;
        done(text_access::put(self.ledger, place as usize, number))
    }

    // The call map.
    fn map(
        &mut self,
        [start, end, frame, flags, constraints, _]: [u64; NUMBERS],
        answer: &mut [u64; ANSWER_VALUES],
    ) -> u64 {
        let Handle { base, level, range } = self.handle;
        ptb::ptb_map(
            self.words,
            self.ledger,
            base,
            level,
            range,
            start,
            end,
            frame,
            flags,
            constraints,
            answer,
        )
    }

    // The call modify. Its first number is the length of the list, which was lent so long.
    fn modify(
        &mut self,
        [_, start, end, set, clear, live]: [u64; NUMBERS],
        list: &mut [u64],
        answer: &mut [u64; ANSWER_VALUES],
    ) -> u64 {
        let Handle { base, level, range } = self.handle;
        ptb::ptb_modify(
            self.words,
            self.ledger,
            base,
            level,
            range,
            start,
            end,
            set,
            clear,
            live,
            list,
            answer,
        )
    }

    // The call compact.
    fn compact(&mut self, answer: &mut [u64; ANSWER_VALUES]) -> u64 {
        let Handle { base, level, range } = self.handle;
        ptb::ptb_compact(self.words, self.ledger, base, level, range, answer)
    }

    // The call look up.
    fn look_up(&self, [address, ..]: [u64; NUMBERS], answer: &mut [u64; ANSWER_VALUES]) -> u64 {
        let Handle { base, level, range } = self.handle;
        ptb::ptb_look_up(self.words, self.ledger, base, level, range, address, answer)
    }

    // The call list. Its first number is the length of the list, which was lent so long.
    fn list(
        &self,
        [_, start, end, ..]: [u64; NUMBERS],
        list: &mut [u64],
        answer: &mut [u64; ANSWER_VALUES],
    ) -> u64 {
        let Handle { base, level, range } = self.handle;
        ptb::ptb_list(
            self.words,
            self.ledger,
            base,
            level,
            range,
            start,
            end,
            list,
            answer,
        )
    }

    // The call check.
    fn check(&self, answer: &mut [u64; ANSWER_VALUES]) -> u64 {
        let Handle { base, level, range } = self.handle;
        ptb::ptb_check(self.words, self.ledger, base, level, range, answer)
    }

    // The call page image, with as much of the page as the line says. The sum of the page goes to the list.
    fn image(
        &self,
        [length, table, ..]: [u64; NUMBERS],
        list: &mut [u64],
        answer: &mut [u64; ANSWER_VALUES],
    ) -> Option<u64> {
        let Handle { base, level, range } = self.handle;
        let mut bytes = [UNWRITTEN_BYTE; IMAGE_BYTES];
        let page = bytes.get_mut(..length as usize)?;
        let number = ptb::ptb_image(
            self.words,
            self.ledger,
            base,
            level,
            range,
            table,
            page,
            answer,
        );
        text_access::put(list, PAGE_SUM, replay_sum::page(page));
        Some(number)
    }
}
