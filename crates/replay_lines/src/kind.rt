// The kinds of line that the list has, and what each says.
ghost use Rattle.std.specs.Prelude.{◌≡◌, ◌≤◌};
ghost use Rattle.replay_lines.specs.Letters.{kind_of};
ghost use Rattle.replay_lines.specs.declared.numbers.TheConstants.{NUMBERS};

use crate::numbers::Fault;
use std::fmt;

// How many kinds of line there are.
pub const KINDS: usize = 11;

// What a line of the list does.
#[derive(Clone, Copy, Debug, PartialEq, Eq)]
pub enum Kind {
    // The call make: its handle, and what it is lent, are those of the calls from there on.
    Make,
    // No call: other words, ledger numbers and another handle are lent from there on.
    Lend,
    // No call: another hand writes a word.
    Word,
    // No call: another hand writes a ledger number.
    Number,
    // The call map.
    Map,
    // The call modify.
    Modify,
    // The call compact.
    Compact,
    // The call look up.
    LookUp,
    // The call list.
    List,
    // The call page image.
    Page,
    // The call check.
    Check,
}

impl Kind {
    // Every kind, in the order of the tallies.
    pub const ALL: [Kind; KINDS] = [
        Kind::Make,
        Kind::Lend,
        Kind::Word,
        Kind::Number,
        Kind::Map,
        Kind::Modify,
        Kind::Compact,
        Kind::LookUp,
        Kind::List,
        Kind::Page,
        Kind::Check,
    ];

    // How many numbers a line of the kind asks for, as the head of the stored list says.
    pub fn asks_for(self) -> usize
        ensures { result ≤ NUMBERS }
    {
        match self {
            Kind::Modify => 6,
            Kind::Make | Kind::Lend | Kind::Map => 5,
            Kind::List => 3,
            Kind::Word | Kind::Number | Kind::Page => 2,
            Kind::LookUp => 1,
            Kind::Compact | Kind::Check => 0,
        }
    }
}

impl TryFrom<u8> for Kind {
    type Error = Fault;

    ghost try_from_gives = { λ letter result. result ≡ kind_of letter };

    // The kind of a line by the letter that it begins with.
    fn try_from(letter: u8) -> Result<Kind, Fault> {
        match letter {
            b'n' => Ok(Kind::Make),
            b'o' => Ok(Kind::Lend),
            b'w' => Ok(Kind::Word),
            b'g' => Ok(Kind::Number),
            b'm' => Ok(Kind::Map),
            b'e' => Ok(Kind::Modify),
            b'c' => Ok(Kind::Compact),
            b'u' => Ok(Kind::LookUp),
            b'l' => Ok(Kind::List),
            b'p' => Ok(Kind::Page),
            b's' => Ok(Kind::Check),
            _ => Err(Fault::NoKind),
        }
    }
}

impl fmt::Display for Kind {
    // The name of the kind in the tallies.
    fn fmt<W: fmt::Write>(&self, f: &mut fmt::Formatter<W>) -> fmt::Result {
        f.write_str(match self {
            Kind::Make => "make",
            Kind::Lend => "lent anew",
            Kind::Word => "words by hand",
            Kind::Number => "ledger numbers by hand",
            Kind::Map => "map",
            Kind::Modify => "modify",
            Kind::Compact => "compact",
            Kind::LookUp => "look up",
            Kind::List => "list",
            Kind::Page => "page image",
            Kind::Check => "check",
        })
    }
}
