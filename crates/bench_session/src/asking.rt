// What a line asks, or why it asks nothing.
use crate::commands::Command;
use bench_view::MOST_TABLES;
use std::{fmt, io};
use text_script::{LINE_BYTES, LineText, LineValues, MOST_VALUES, ValuesError, values_of};
use text_words::{NumberError, Words};

// What a line asks: a command, with its values.
#[derive(Clone, Copy, Debug)]
pub struct Ask {
    pub command: Command,
    pub values: LineValues,
}

impl Ask {
    // The values by their place, 0 where the line has none.
    pub fn arguments(&self) -> [u64; MOST_VALUES] {
        self.values.map(|value| value.unwrap_or(0))
    }
}

// Why a line asks nothing that can be done.
#[derive(Clone, Copy, Debug)]
pub enum Unclear<'a> {
    // The line has more bytes than are kept.
    LineTooLong,
    // The first word is no command.
    NoCommand(&'a [u8]),
    // The command takes more values, or fewer.
    WrongCount(Command),
    // A word stands for no value.
    NoValue(&'a [u8], NumberError),
    // Make asks for more tables than there is room for.
    NoRoom,
    // No make was accepted yet.
    NoPool,
}

// Says a reason and the bytes that it is about, as they stand.
fn say_about<T: fmt::Display + Drop>(out: &impl Print, reason: T, about: &[u8]) -> io::Result<()> {
    print!(out; "{reason}: ")?;
    out.write_all(about)?;
    out.println("")
}

impl<'a> Unclear<'a> {
    // Says why, by the line's number.
    pub(crate) fn say(self, out: &impl Print, number: u64) -> io::Result<()> {
        print!(out; "  line {number}: ")?;
        match self {
            Unclear::LineTooLong => println!(out; "a line has at most {LINE_BYTES} bytes"),
            Unclear::NoCommand(word) => say_about(out, "no such command", word),
            Unclear::WrongCount(command) => say_about(
                out,
                "too few or too many values",
                command.usage(),
            ),
            Unclear::NoValue(word, why) => say_about(out, why, word),
            Unclear::NoRoom => println!(out; "there is room for {MOST_TABLES} tables at most"),
            Unclear::NoPool => out.println("there is no pool yet: make comes first"),
        }
    }
}

// What a line asks, if it has a word.
pub fn asked(line: LineText<'_>) -> Result<Option<Ask>, Unclear<'_>> {
    let LineText::Whole(text) = line else {
        return Err(Unclear::LineTooLong);
    };
    let mut words = Words::of(text);
    let Some(name) = words.next() else {
        return Ok(None);
    };
    let command = Command::named(name).ok_or(Unclear::NoCommand(name))?;
    let values = values_of(words).map_err(|error| match error {
        ValuesError::TooMany => Unclear::WrongCount(command),
        ValuesError::NoValue(word, why) => Unclear::NoValue(word, why),
    })?;
    if command.takes(values.iter().flatten().count()) {
        Ok(Some(Ask { command, values }))
    } else {
        Err(Unclear::WrongCount(command))
    }
}
