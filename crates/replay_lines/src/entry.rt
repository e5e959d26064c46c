// A line of the list: a letter, the call's numbers, each after a blank, and after an equals sign the reply's: its number, four
// values, the sum. A dash stands for a value that the call does not write.
ghost use Rattle.std.specs.Prelude.{◌≡◌, slice_get};
ghost use Rattle.replay_lines.specs.declared.kind.Kind.TheVariants.{Modify, List, Page};

use crate::kind::Kind;
use crate::numbers::{Fault, NUMBERS, Numbers};
use crate::reply::Reply;

// How much of the list a page image is lent: one number, for its sum.
const PAGE_ROOM: usize = 1;

// What parts a line's call from its reply.
const EQUALS: u8 = b'=';

// A line of the list: what it does, the numbers of that, and the reply that it says.
#[derive(Clone, Copy, Debug, PartialEq, Eq)]
pub struct Entry {
    pub kind: Kind,
    pub numbers: [u64; NUMBERS],
    pub said: Reply,
}

impl Entry {
    // How many numbers of a list the line is lent.
    pub fn room(&self) -> usize
        ensures modify { self.now.kind ≡ Modify → slice_get self.now.numbers 0 ≡ Some result }
        ensures list { self.now.kind ≡ List → slice_get self.now.numbers 0 ≡ Some result }
        ensures page { self.now.kind ≡ Page → result ≡ 1 }
    {
        match self.kind {
            Kind::Modify | Kind::List => self.numbers[0] as usize,
            Kind::Page => PAGE_ROOM,
            _ => 0,
        }
    }
}

// Why a line is no line of the list, and as much of its reply as was read, zeroes where none was.
#[derive(Clone, Copy, Debug, PartialEq, Eq)]
pub struct NoEntry {
    pub fault: Fault,
    pub said: Reply,
}

impl From<Fault> for NoEntry {
    ghost from_gives = { λ fault other. other.fault ≡ fault };

    // Of a line whose reply was not come to.
    fn from(fault: Fault) -> NoEntry {
        NoEntry {
            fault,
            said: Reply::default(),
        }
    }
}

// The text before and after the first equals sign.
fn parts_of(text: &[u8]) -> Result<(&[u8], &[u8]), Fault> {
    let place = text
        .iter()
        .position(|byte| *byte == EQUALS)
        .ok_or(Fault::NoReply)?;
    Ok((&text[..place], &text[place + 1..]))
}

impl TryFrom<&[u8]> for Entry {
    type Error = NoEntry;

    // The line that some bytes are.
    fn try_from(text: &[u8]) -> Result<Entry, NoEntry> {
        let (&letter, numbers) = text.split_first().ok_or(Fault::NoKind)?;
        let kind = Kind::try_from(letter)?;
        let (call, reply) = parts_of(numbers)?;
        let mut asked = Numbers::default();
        asked.read(call, kind.asks_for())?;
        let mut told = Numbers::default();
        told.begin(0)?;
        let read = told.read(reply, NUMBERS);
        let said = Reply::from(told.values);
        match read {
            Ok(()) => Ok(Entry {
                kind,
                numbers: asked.values,
                said,
            }),
            Err(fault) => Err(NoEntry { fault, said }),
        }
    }
}
