// Reading a line, a byte at a time, so that a typed line is answered at once.
use std::io;
use std::io::Read;

// The bytes of a line that are kept.
pub const LINE_BYTES: usize = 256;

// The bytes after which a line is taken as ended, whatever follows.
const LONGEST: usize = 0x1_0000_0000;

// The lines after which a program takes its input as ended, whatever follows.
pub const MOST_LINES: u64 = 0xFFFF_FFFF;

// The bytes of a line that were kept.
#[derive(Clone, Copy, Debug)]
pub enum LineText<'a> {
    // All of them.
    Whole(&'a [u8]),
    // Its first LINE_BYTES bytes: it has more.
    Cut(&'a [u8]),
}

// Reads the next line into a text, without its end: how many bytes it has, those that are not kept too, or None at the end of the
// input. A carriage return is passed over.
fn length_of_line(input: &mut impl Read, text: &mut [u8; LINE_BYTES]) -> io::Result<Option<usize>> {
    let mut one = [0u8; 1];
    let mut length = 0;
    for _ in 0..LONGEST {
        if input.read(&mut one)? == 0 {
            return Ok((length != 0).then_some(length));
        }
        match one[0] {
            b'\n' => return Ok(Some(length)),
            b'\r' => {}
            byte => {
                text_access::put(text, length, byte);
                length += 1;
            }
        }
    }
    Ok(Some(length))
}

// The next line without its end, or None at the end of the input.
pub fn read_line<'a>(
    input: &mut impl Read,
    text: &'a mut [u8; LINE_BYTES],
) -> io::Result<Option<LineText<'a>>> {
    let Some(length) = length_of_line(input, text)? else {
        return Ok(None);
    };
    Ok(Some(match text.get(..length) {
        Some(kept) => LineText::Whole(kept),
        None => LineText::Cut(text),
    }))
}
