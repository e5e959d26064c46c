// What a word says at its level: address, flags, kind, and the table that it refers to. Port of Descriptor of descriptor.rs (aarch64-paging
// 0.12.3).
#![tactic(auto)]

ghost use Rattle.std.specs.Prelude.{◌≡◌, ◌%◌, ◌^◌};
ghost use Rattle.entry.specs.Word.{flags_of, kind_of, link_of, only};
ghost use Rattle.entry.specs.Sub.{sub_of};

use address::PhysicalAddress;

// The flags that a caller may give to an El1Attributes table: bits 0, 2 to 11 and 50 to 63.
pub const EL1_FLAGS: u64 = 0xFFFC_0000_0000_0FFD;

// Bits 12 to 47: the address of a table, a block or a page.
pub const ADDRESS_BITS: u64 = 0x0000_FFFF_FFFF_F000;

// What an entry is.
#[derive(Clone, Copy)]
pub enum Kind {
    Table,
    Block,
    Page,
    Hole,
}

// Where an entry leads: to a table of the pool, to a table that the pool doesn't have, or nowhere.
#[derive(Clone, Copy)]
pub enum Sub {
    Table(usize),
    Outside,
    Leaf,
}

// The rest of a word.
pub fn flags(word: u64) -> u64
    ensures { result ≡ flags_of word }
{
    word & !ADDRESS_BITS
}

// Whether the flags are all from the set.
pub fn are_from(flags: u64, set: u64) -> bool
    ensures { result ≡ only set flags }
{
    flags & set == flags
}

// What a word is at its level, by its two low bits. Past the last level every table is a table of pages.
pub fn kind_of(level: usize, word: u64) -> Kind
    ensures { result ≡ kind_of level word }
{
    let low = word % 4;
    match level {
        0 => match low {
            3 => Kind::Table,
            _ => Kind::Hole,
        },
        1 | 2 => match low {
            3 => Kind::Table,
            1 => Kind::Block,
            _ => Kind::Hole,
        },
        _ => match low {
            3 => Kind::Page,
            _ => Kind::Hole,
        },
    }
}

// The word that refers to a table of the pool: its address + 3.
#[tactic(auto, unfolding(crate::specs::Word::link_of))]
pub fn link(base: PhysicalAddress, table: usize) -> u64
    ensures { result ≡ link_of base.0 table % 2 ^ 64 }
{
    let offset = (table as u64) % 0x10_0000_0000_0000 * 4096;
    base.0.wrapping_add(offset).wrapping_add(3)
}

// The table that a word at this level leads to, in a pool of so many tables.
pub fn subtable(base: PhysicalAddress, tables: usize, level: usize, word: u64) -> Sub
    ensures { result ≡ sub_of base.0 tables level word }
{
    if address::LEAF_LEVEL <= level {
        return Sub::Leaf;
    }
    if word % 4 != 3 {
        return Sub::Leaf;
    }
    let at = word & ADDRESS_BITS;
    if at < base.0 {
        return Sub::Outside;
    }
    let table = ((at - base.0) / 4096) as usize;
    if table < tables {
        Sub::Table(table)
    } else {
        Sub::Outside
    }
}
