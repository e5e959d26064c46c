// An entry's flags, and a line of a list. The names of flags are those of El1Attributes (descriptor.rs, aarch64-paging 0.12.3).
use entry::Kind;
use std::fmt;
use text_forms::Address;

// Bits 2 to 4 of the flags.
const ATTRIBUTE_INDEX: u64 = 7 << 2;

// Bits 8 and 9 of the flags.
const SHAREABILITY: u64 = 3 << 8;

// What flags are called: a name stands where the bits of the mask are these.
const NAMES: [(u64, u64, &str); 31] = [
    (1 << 0, 1 << 0, "VALID"),
    (1 << 1, 1 << 1, "TABLE_OR_PAGE"),
    (ATTRIBUTE_INDEX, 1 << 2, "ATTRIBUTE_INDEX_1"),
    (ATTRIBUTE_INDEX, 2 << 2, "ATTRIBUTE_INDEX_2"),
    (ATTRIBUTE_INDEX, 3 << 2, "ATTRIBUTE_INDEX_3"),
    (ATTRIBUTE_INDEX, 4 << 2, "ATTRIBUTE_INDEX_4"),
    (ATTRIBUTE_INDEX, 5 << 2, "ATTRIBUTE_INDEX_5"),
    (ATTRIBUTE_INDEX, 6 << 2, "ATTRIBUTE_INDEX_6"),
    (ATTRIBUTE_INDEX, 7 << 2, "ATTRIBUTE_INDEX_7"),
    (1 << 5, 1 << 5, "NS"),
    (1 << 6, 1 << 6, "USER"),
    (1 << 7, 1 << 7, "READ_ONLY"),
    (SHAREABILITY, 1 << 8, "0x100"),
    (SHAREABILITY, 2 << 8, "OUTER_SHAREABLE"),
    (SHAREABILITY, 3 << 8, "INNER_SHAREABLE"),
    (1 << 10, 1 << 10, "ACCESSED"),
    (1 << 11, 1 << 11, "NON_GLOBAL"),
    (1 << 50, 1 << 50, "GP"),
    (1 << 51, 1 << 51, "DBM"),
    (1 << 52, 1 << 52, "CONTIGUOUS_OR_PROTECTED"),
    (1 << 53, 1 << 53, "PXN"),
    (1 << 54, 1 << 54, "UXN"),
    (1 << 55, 1 << 55, "SWFLAG_0"),
    (1 << 56, 1 << 56, "SWFLAG_1"),
    (1 << 57, 1 << 57, "SWFLAG_2"),
    (1 << 58, 1 << 58, "SWFLAG_3"),
    (1 << 59, 1 << 59, "PXN_TABLE"),
    (1 << 60, 1 << 60, "XN_TABLE"),
    (1 << 61, 1 << 61, "AP_TABLE_NO_EL0"),
    (1 << 62, 1 << 62, "AP_TABLE_NO_WRITE"),
    (1 << 63, 1 << 63, "NS_TABLE"),
];

// Bits 12 to 49 of the flags: those without a name.
const UNNAMED_BITS: u64 = 0x0003_FFFF_FFFF_F000;

// Bit 1 of a word: with bit 0 it says the kind, so it is no flag.
const KIND_BIT: u64 = 1 << 1;

// The flags of an entry: those that have a name by it, then the bits without one, each after a blank.
#[derive(Clone, Copy, Debug, PartialEq, Eq)]
pub struct Flags(pub u64);

impl fmt::Display for Flags {
    fn fmt<W: fmt::Write>(&self, f: &mut fmt::Formatter<W>) -> fmt::Result {
        if self.0 == 0 {
            return f.write_str(" none");
        }
        for (mask, bits, name) in NAMES {
            if self.0 & mask == bits {
                write!(f, " {name}")?;
            }
        }
        match self.0 & UNNAMED_BITS {
            0 => Ok(()),
            unnamed => write!(f, " {unnamed:#x}"),
        }
    }
}

// A line of a list: the region of an entry, or of some entries that are alike, their level and their word.
#[derive(Clone, Copy, Debug, Default, PartialEq, Eq)]
pub struct EntryRow {
    pub start: u64,
    pub end: u64,
    pub level: u64,
    pub word: u64,
    pub entries: usize,
}

impl fmt::Display for EntryRow {
    fn fmt<W: fmt::Write>(&self, f: &mut fmt::Formatter<W>) -> fmt::Result {
        let word = self.word;
        let frame = Address(word & entry::ADDRESS_BITS);
        let flags = Flags(entry::flags(word) & !KIND_BIT);
        write!(
            f,
            "  {}..{}  level {}  ",
            Address(self.start),
            Address(self.end),
            self.level
        )?;
        match entry::kind_of(self.level as usize, word) {
            Kind::Hole if frame.0 == 0 => write!(f, "hole   -              {flags}")?,
            Kind::Hole => write!(f, "hole   -              {flags}, word {word:#x}")?,
            Kind::Block => write!(f, "block  {frame} {flags}")?,
            Kind::Page => write!(f, "page   {frame} {flags}")?,
            Kind::Table => write!(f, "table  {frame} {flags}")?,
        }
        if 1 < self.entries {
            write!(f, ", entries alike: {}", self.entries)?;
        }
        Ok(())
    }
}
