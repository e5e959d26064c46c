// What a call answered.
use bench_report::LookedAt;
use look_up::Looked;
use modify::Modified;
use pool::Refusal;
use ptb_answer::Values;
use std::{fmt, io};
use text_access::face::ANSWER_VALUES;

// What an accepted call answered.
#[derive(Clone, Copy)]
pub enum Accepted {
    // Nothing more: make, check and page image.
    Done,
    // The tables in use: map and compact.
    InUse(usize),
    // The tables in use and, live, how many page numbers are listed: modify.
    Modified(Modified),
    // How many entries are listed: list.
    Listed(usize),
    // The entry at which the walk ends: look up.
    Looked(Looked),
}

// What a call answered.
pub type Answer = Result<Accepted, Refusal>;

impl Accepted {
    // The values of the answer, as the library's face for other languages orders them; zeroes after them.
    pub(crate) fn values(self) -> [u64; ANSWER_VALUES] {
        let mut values = [0; ANSWER_VALUES];
        match self {
            Accepted::Done => {}
            Accepted::InUse(count) | Accepted::Listed(count) => count.put(&mut values),
            Accepted::Modified(modified) => modified.put(&mut values),
            Accepted::Looked(looked) => looked.put(&mut values),
        }
        values
    }
}

impl fmt::Display for Accepted {
    fn fmt<W: fmt::Write>(&self, f: &mut fmt::Formatter<W>) -> fmt::Result {
        match *self {
            Accepted::Done => f.write_str("accepted"),
            Accepted::InUse(tables)
            | Accepted::Modified(Modified::Tables(tables) | Modified::Live(tables, _)) => write!(
                f,
                "accepted: tables in use {tables}"
            ),
            Accepted::Listed(entries) => write!(f, "accepted: entries {entries}"),
            Accepted::Looked(looked) => write!(f, "accepted, {}", LookedAt(looked)),
        }
    }
}

// Says what a call answered.
pub fn say_answer(out: &impl Print, answer: Answer) -> io::Result<()> {
    match answer {
        Ok(accepted) => println!(out; "  {accepted}"),
        Err(refusal) => println!(out; "  {refusal}"),
    }
}
