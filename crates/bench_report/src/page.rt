// A page image: a row for each word that is not zero, its eight bytes.
use std::array::from_fn;
use std::{fmt, io};
use text_access::face::PAGE_BYTES;
use text_access::item_at;

// The bytes of a row: those of a word.
const ROW_BYTES: usize = 8;

// A row: where it stands in the page, and its bytes.
#[derive(Clone, Copy)]
struct Row {
    at: usize,
    bytes: [u8; ROW_BYTES],
}

impl fmt::Display for Row {
    fn fmt<W: fmt::Write>(&self, f: &mut fmt::Formatter<W>) -> fmt::Result {
        write!(f, "  byte {:#05x}", self.at)?;
        for byte in &self.bytes {
            write!(f, " {byte:02x}")?;
        }
        Ok(())
    }
}

// The rows of a page that are not zero; bytes past its end are zero.
pub fn say_page(out: &impl Print, page: &[u8]) -> io::Result<()> {
    for at in (0..PAGE_BYTES).step_by(ROW_BYTES) {
        let bytes = from_fn(|place| item_at(page, at + place));
        if bytes != [0; ROW_BYTES] {
            out.println(Row { at, bytes })?;
        }
    }
    Ok(())
}
