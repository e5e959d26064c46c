// What the words after a command stand for.
use text_words::{NumberError, Words, number_of};

// The most values that a line has after its command.
pub const MOST_VALUES: usize = 6;

// The values of a line by their place; None where the line has no more words.
pub type LineValues = [Option<u64>; MOST_VALUES];

// Why the words after a command stand for no values.
#[derive(Clone, Copy, Debug)]
pub enum ValuesError<'a> {
    // There are more words than a line has values.
    TooMany,
    // A word stands for no value.
    NoValue(&'a [u8], NumberError),
}

// What a word stands for: a number, or a name that means one.
fn value_of(word: &[u8]) -> Result<u64, NumberError> {
    match word {
        b"lower" | b"hole" | b"accepted" => Ok(0),
        b"upper" | b"block" | b"refused" | b"noblocks" => Ok(1),
        b"page" => Ok(2),
        _ => number_of(word),
    }
}

// The values that all words stand for.
pub fn values_of(words: Words<'_>) -> Result<LineValues, ValuesError<'_>> {
    let mut values = [None; MOST_VALUES];
    for (place, word) in words.enumerate() {
        if MOST_VALUES <= place {
            return Err(ValuesError::TooMany);
        }
        let value = value_of(word).map_err(|why| ValuesError::NoValue(word, why))?;
        values[place] = Some(value);
    }
    Ok(values)
}
