// A stored list of calls with their replies: its lines, what each lends and asks, and the tallies of what agrees.
// Leans on text_script for a line, on text_words for a digit more, on text_access for the sizes of a reply.
// No function needs anything of its caller, and each fails only where a read fails. How a whole line is read is held to the tests.
#![tactic(auto)]

mod entry;
mod kind;
mod lent;
mod numbers;
mod reply;
mod tallies;

pub use entry::{Entry, NoEntry};
pub use kind::Kind;
pub use lent::{Handle, Lent};
pub use numbers::{Fault, NUMBERS};
pub use reply::{NO_CALL, Reply, UNWRITTEN};
use std::io;
use std::io::Read;
pub use tallies::{Difference, Tallies};
use text_script::{LINE_BYTES, LineText};

// What a comment begins with.
const COMMENT: u8 = b'#';

// A line of the input.
#[derive(Clone, Copy, Debug, PartialEq, Eq)]
pub enum Line {
    // A line that is passed over.
    Comment,
    // A line of the list.
    Entry(Entry),
    // A line that is neither.
    Other(NoEntry),
}

impl From<LineText<'_>> for Line {
    // The line that the bytes are that were kept; where there are more, it is none of the list.
    fn from(text: LineText<'_>) -> Line {
        let (LineText::Whole(kept) | LineText::Cut(kept)) = text;
        if kept.first() == Some(&COMMENT) {
            return Line::Comment;
        }
        match (Entry::try_from(kept), text) {
            (Err(other), _) => Line::Other(other),
            (Ok(entry), LineText::Whole(_)) => Line::Entry(entry),
            (Ok(entry), LineText::Cut(_)) => Line::Other(NoEntry {
                fault: Fault::TooLong,
                said: entry.said,
            }),
        }
    }
}

// The next line of the input, None at its end.
pub fn next(input: &mut impl Read) -> io::Result<Option<Line>> {
    let mut text = [0u8; LINE_BYTES];
    Ok(text_script::read_line(input, &mut text)?.map(Line::from))
}

#[cfg(test)]
mod tests {
    use super::*;

    // What is kept of a reply is what stands before the fault, a dash as UNWRITTEN.
    #[test]
    fn keeps_of_a_bad_reply_what_was_read(rt: HostRuntime) {
        let mut input = b"c=1 2-3 4\n\r\nu A=0\n# c\nm 1 2=0\nx=1\nc=1 2 3 4 5 6".as_slice();
        let bad = [
            (Fault::TooLarge, Reply::from([1, 2, UNWRITTEN, 0, 0, 0])),
            (Fault::NoKind, Reply::default()),
            (Fault::NoDigit, Reply::default()),
        ];
        for (fault, said) in bad {
            let line = next(&mut input).ok().flatten();
            assert_eq!(rt; line, Some(Line::Other(NoEntry { fault, said })));
        }
        assert_eq!(rt; next(&mut input).ok().flatten(), Some(Line::Comment));
        let other = |fault: Fault| Some(Line::Other(NoEntry::from(fault)));
        assert_eq!(rt; next(&mut input).ok().flatten(), other(Fault::WrongCount));
        assert_eq!(rt; next(&mut input).ok().flatten(), other(Fault::NoKind));
        let entry = Entry {
            kind: Kind::Compact,
            numbers: [0; NUMBERS],
            said: Reply::from([1, 2, 3, 4, 5, 6]),
        };
        assert_eq!(rt; next(&mut input).ok().flatten(), Some(Line::Entry(entry)));
        assert_eq!(rt; next(&mut input).ok().flatten(), None);
    }
}
