// What stands in the words and the ledger of a pool, in words that a person reads; and what is put there by hand.
// Leans on text_access for the sizes. No function needs anything of its caller; of what only says, safety alone is proved.
#![tactic(auto)]

ghost use Rattle.std.specs.Prelude.{◌≡◌, ◌+◌, ◌*◌, ◌<◌, ◌^◌, ◌↔◌, length, slice_set, IsOk, IfOk, OnOk, OnErr};

use std::{fmt, io};
use text_access::face::TABLE_WORDS;

// The tables that the bench has room for.
pub const MOST_TABLES: u64 = 8;

// The slots of a table.
const SLOTS: u64 = TABLE_WORDS as u64;

// A ledger number modulo this says the table's level, divided by this the slot that refers to the table.
const LEDGER_STEP: u32 = 8;

// How far above the level the ledger number of a table in use is, modulo LEDGER_STEP.
const LEVEL_MARK: u32 = 4;

// Why nothing is shown or written.
#[derive(Clone, Copy, Debug, PartialEq, Eq)]
pub enum Missing {
    // The pool has no such word.
    Word,
    // The ledger has no such table.
    Table,
    // The number has more than 32 bits.
    Bits,
}

impl fmt::Display for Missing {
    fn fmt<W: fmt::Write>(&self, f: &mut fmt::Formatter<W>) -> fmt::Result {
        f.write_str(match self {
            Missing::Word => "  there is no such word",
            Missing::Table => "  there is no such table",
            Missing::Bits => "  a ledger number has 32 bits",
        })
    }
}

// A word, by its table and slot.
#[derive(Clone, Copy, Debug, PartialEq, Eq)]
pub struct WordRow {
    pub table: u64,
    pub slot: u64,
    pub word: u64,
}

impl fmt::Display for WordRow {
    fn fmt<W: fmt::Write>(&self, f: &mut fmt::Formatter<W>) -> fmt::Result {
        write!(
            f,
            "  table {} word {}: {:#x}",
            self.table, self.slot, self.word
        )
    }
}

// A table's ledger number: the table's level, and the slot that refers to it.
#[derive(Clone, Copy, Debug, PartialEq, Eq)]
pub struct LedgerRow {
    pub table: u64,
    pub number: u32,
}

impl fmt::Display for LedgerRow {
    fn fmt<W: fmt::Write>(&self, f: &mut fmt::Formatter<W>) -> fmt::Result {
        let number = self.number;
        write!(f, "  table {}: {number}, ", self.table)?;
        if number == 0 {
            return f.write_str("free");
        }
        write!(
            f,
            "level {}, ",
            (number % LEDGER_STEP + LEVEL_MARK) % LEDGER_STEP
        )?;
        if number < LEDGER_STEP {
            return f.write_str("the root");
        }
        let slot = u64::from(number / LEDGER_STEP - 1);
        write!(f, "under table {} slot {}", slot / SLOTS, slot % SLOTS)
    }
}

// Where a word stands in a pool.
fn place_of(words: &[u64], table: u64, slot: u64) -> Result<usize, Missing>
    ensures there { IsOk result ↔ (table < 8) × (slot < 512) × (512 * table + slot < length words.now) }
    ensures place { IfOk result (λ place. place ≡ 512 * table + slot) }
{
    if MOST_TABLES <= table || SLOTS <= slot {
        return Err(Missing::Word);
    }
    let place = (SLOTS * table + slot) as usize;
    if place < words.len() {
        Ok(place)
    } else {
        Err(Missing::Word)
    }
}

// The word at a table's slot.
fn word_at(words: &[u64], table: u64, slot: u64) -> Result<WordRow, Missing> {
    let place = place_of(words, table, slot)?;
    Ok(WordRow {
        table,
        slot,
        word: words[place],
    })
}

// What is shown or written, or why nothing is, as a line of its own.
pub fn say<T: fmt::Display + Drop>(out: &impl Print, shown: Result<T, Missing>) -> io::Result<()> {
    match shown {
        Ok(row) => out.println(row),
        Err(missing) => out.println(missing),
    }
}

// Some words of a table, from the first on: nothing where no table has the first one; else the last line says that there is no
// such word, where one is asked for past the table or the pool.
pub fn say_words(
    out: &impl Print,
    words: &[u64],
    table: u64,
    first: u64,
    count: u64,
) -> io::Result<()> {
    if SLOTS <= first {
        return Ok(());
    }
    for slot in first..first + count.min(SLOTS) {
        let row = word_at(words, table, slot);
        say(out, row)?;
        if row.is_err() {
            break;
        }
    }
    Ok(())
}

// How many words of the pool are not zero.
pub fn say_words_not_zero(out: &impl Print, words: &[u64]) -> io::Result<()> {
    let count = words.iter().filter(|&&word| word != 0).count();
    println!(out; "  words not zero: {count}")
}

// Writes a word by hand.
pub fn put(words: &mut [u64], table: u64, slot: u64, word: u64) -> Result<WordRow, Missing>
    ensures there { IsOk result ↔ (table < 8) × (slot < 512) × (512 * table + slot < length words.old) }
    ensures written { OnOk result (words.new ≡ slice_set words.old (512 * table + slot) word) }
    ensures kept { OnErr result (words.new ≡ words.old) }
{
    let place = place_of(words, table, slot)?;
    words[place] = word;
    Ok(WordRow { table, slot, word })
}

// The ledger, a line for each table.
pub fn say_ledger(out: &impl Print, ledger: &[u32]) -> io::Result<()> {
    for (table, &number) in (0..).zip(ledger) {
        out.println(LedgerRow { table, number })?;
    }
    Ok(())
}

// Enters a ledger number by hand.
pub fn enter(ledger: &mut [u32], table: u64, number: u64) -> Result<LedgerRow, Missing>
    ensures there { IsOk result ↔ (table < length ledger.old) × (number < 2 ^ 32) }
    ensures written { OnOk result (ledger.new ≡ slice_set ledger.old table number) }
    ensures kept { OnErr result (ledger.new ≡ ledger.old) }
{
    if ledger.len() <= table as usize {
        return Err(Missing::Table);
    }
    let number = u32::try_from(number).map_err(|_| Missing::Bits)?;
    ledger[table as usize] = number;
    Ok(LedgerRow { table, number })
}
