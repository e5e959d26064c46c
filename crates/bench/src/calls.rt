// The library's calls, on the pool that is lent: each answer is said in words and handed back.
// No function needs anything of its caller.
use crate::room::Pool;
use address::{PhysicalAddress, VirtualAddress};
use bench_report::LIST_NUMBERS;
use bench_session::{Accepted, Answer, say_answer};
use map::Constraints;
use modify::Modified;
use std::io;
use text_access::face::PAGE_BYTES;
use text_script::MOST_VALUES;

// The page numbers that a live modify is lent room for.
const PAGE_NUMBERS: usize = 512;

// The values of a command by their place, 0 where none is given.
type Arguments = [u64; MOST_VALUES];

// Says an answer and hands it back.
fn told(out: &impl Print, answer: Answer) -> io::Result<Answer> {
    say_answer(out, answer)?;
    Ok(answer)
}

impl<'a> Pool<'a> {
    // `make TABLES BASE LEVEL RANGE`: a pool of as many tables.
    pub fn make(&mut self, out: &impl Print) -> io::Result<Answer> {
        let done = make::make(self.words, self.ledger, self.handle);
        told(out, done.map(|()| Accepted::Done))
    }

    // `check`: whether the pool is sound.
    pub fn check(&self, out: &impl Print) -> io::Result<Answer> {
        let done = checker::check(self.words, self.ledger, self.handle);
        told(out, done.map(|()| Accepted::Done))
    }

    // `map START END FRAME FLAGS [noblocks]`; `unmap START END` is a map with frame and flags 0.
    pub fn map(&mut self, out: &impl Print, arguments: Arguments) -> io::Result<Answer> {
        let [start, end, frame, flags, constraints, _] = arguments;
        let tables = map::map(
            self.words,
            self.ledger,
            self.handle,
            VirtualAddress(start),
            VirtualAddress(end),
            PhysicalAddress(frame),
            flags,
            Constraints(constraints),
        );
        told(out, tables.map(Accepted::InUse))
    }

    // `compact`: the tables that hold nothing are freed.
    pub fn compact(&mut self, out: &impl Print) -> io::Result<Answer> {
        let tables = compact::compact(self.words, self.ledger, self.handle);
        told(out, tables.map(Accepted::InUse))
    }

    // `modify START END SET CLEAR`, and `live` with the same values, which answers with the page numbers of the entries that it
    // changed too.
    pub fn modify(
        &mut self,
        out: &impl Print,
        arguments: Arguments,
        live: bool,
    ) -> io::Result<Answer> {
        let [start, end, set, clear, ..] = arguments;
        let mut list = [0; PAGE_NUMBERS];
        let modified = modify::modify(
            self.words,
            self.ledger,
            self.handle,
            VirtualAddress(start),
            VirtualAddress(end),
            set,
            clear,
            live,
            &mut list,
        );
        let answer = told(out, modified.map(Accepted::Modified))?;
        if let Ok(Accepted::Modified(Modified::Live(_, numbers))) = answer {
            bench_report::say_page_numbers(out, &list, numbers)?;
        }
        Ok(answer)
    }

    // `look ADDRESS`: the entry at which a walk ends.
    pub fn look(&self, out: &impl Print, arguments: Arguments) -> io::Result<Answer> {
        let [address, ..] = arguments;
        let looked = look_up::look_up(
            self.words,
            self.ledger,
            self.handle,
            VirtualAddress(address),
        );
        told(out, looked.map(Accepted::Looked))
    }

    // `list START END`: the entries of a region.
    pub fn list(&self, out: &impl Print, arguments: Arguments) -> io::Result<Answer> {
        let [start, end, ..] = arguments;
        let mut list = [0; LIST_NUMBERS];
        let listed = list::list(
            self.words,
            self.ledger,
            self.handle,
            VirtualAddress(start),
            VirtualAddress(end),
            &mut list,
        );
        let answer = told(out, listed.map(Accepted::Listed))?;
        if let Ok(Accepted::Listed(entries)) = answer {
            bench_report::say_lines(out, &list, entries)?;
        }
        Ok(answer)
    }

    // `image TABLE`: a table as the bytes of a page.
    pub fn image(&self, out: &impl Print, arguments: Arguments) -> io::Result<Answer> {
        let [table, ..] = arguments;
        let mut page = [0; PAGE_BYTES];
        let done = image::page_image(
            self.words,
            self.ledger,
            self.handle,
            table as usize,
            &mut page,
        );
        let answer = told(out, done.map(|()| Accepted::Done))?;
        if answer.is_ok() {
            bench_report::say_page(out, &page)?;
        }
        Ok(answer)
    }
}
