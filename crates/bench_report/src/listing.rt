// What stands in a list that a call filled: its entries, or the page numbers of those that a live modify changed.
use crate::entry_row::EntryRow;
use std::io;
use text_access::item_at;

// The lines that a list has room for.
const MOST_LINES: usize = 768;

// The numbers of a line: where the entry starts and ends, its word and its level.
const LINE_NUMBERS: usize = 4;

// The numbers that a list has room for.
pub const LIST_NUMBERS: usize = MOST_LINES * LINE_NUMBERS;

// The entry of a line: zeroes past the end of the list, and where no list has room for the line.
fn row_at(list: &[u64], line: usize) -> EntryRow {
    if MOST_LINES <= line {
        return EntryRow {
            entries: 1,
            ..EntryRow::default()
        };
    }
    let at = line * LINE_NUMBERS;
    EntryRow {
        start: item_at(list, at),
        end: item_at(list, at + 1),
        word: item_at(list, at + 2),
        level: item_at(list, at + 3),
        entries: 1,
    }
}

// The row of two that follow each other, if they can share a line: they are empty entries of one level.
fn shared(run: EntryRow, next: EntryRow) -> Option<EntryRow> {
    (run.word == 0 && next.word == 0 && run.level == next.level).then_some(EntryRow {
        end: next.end,
        entries: run.entries.saturating_add(next.entries),
        ..run
    })
}

// The first lines of a list, as many as the call counted, whose count no clause here bounds by the list; empty entries of one level that
// follow each other share a line.
pub fn say_lines(out: &impl Print, list: &[u64], count: usize) -> io::Result<()> {
    if count == 0 {
        return Ok(());
    }
    let mut run = row_at(list, 0);
    for line in 1..count {
        let next = row_at(list, line);
        run = match shared(run, next) {
            Some(longer) => longer,
            None => {
                out.println(run)?;
                next
            }
        };
    }
    out.println(run)
}

// The first page numbers of a list, a line each, as many as the call counted: the list is lent to the call whole.
pub fn say_page_numbers(out: &impl Print, list: &[u64], count: usize) -> io::Result<()> {
    for number in list.iter().take(count) {
        println!(out; "  page number {number:#x}")?;
    }
    Ok(())
}
