// The lines of a text, and the words of a line.
ghost use Rattle.std.specs.Prelude.{length};
ghost use Rattle.std.specs.Iterator.{at_most};

// A line of a text, counted from 0; an empty one past the last that a newline ends, for which no caller asks.
pub fn line_of(text: &[u8], number: usize) -> &[u8] {
    text.split_inclusive(|&byte| byte == b'\n')
        .nth(number)
        .and_then(|line| line.strip_suffix(b"\n"))
        .unwrap_or(&[])
}

// Whether a byte parts words.
fn is_blank(byte: u8) -> bool {
    byte <= b' '
}

// The words of a line that are left, up to its comment, which begins with a #.
#[derive(Clone, Copy)]
pub struct Words<'a> {
    rest: &'a [u8],
}

impl<'a> Words<'a> {
    // All words of a line.
    pub fn of(line: &'a [u8]) -> Self {
        Self {
            rest: line.split(|&byte| byte == b'#').next().unwrap_or(&[]),
        }
    }
}

impl<'a> Iterator for Words<'a> {
    type Item = &'a [u8];

    ghost remaining = { λ s. at_most (length s.rest.now) };

    // The next word; the blank that ends it goes with it.
    fn next(&mut self) -> Option<&'a [u8]> {
        let start = self.rest.iter().position(|&byte| !is_blank(byte))?;
        let from = &self.rest[start..];
        let end = from
            .iter()
            .position(|&byte| is_blank(byte))
            .unwrap_or(from.len());
        self.rest = from.get(end + 1..).unwrap_or(&[]);
        Some(&from[..end])
    }
}
