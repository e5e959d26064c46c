// The pool: 512 words for each table, and a ledger number for each table (document 01, "Pool and ledger").
#![tactic(auto)]

ghost use Rattle.std.specs.Prelude.{◌≡◌, Some};
ghost use Rattle.pool.specs.Refuse.{number};
ghost use Rattle.pool.specs.Words.{meaning, refusal_text};

mod lent;

use address::{PhysicalAddress, VirtualAddress};
pub use lent::{Pool, PoolMut};
use region::MemoryRegion;
use std::error::Error;
use std::fmt;

// Which end of the address space a root spans.
#[derive(Clone, Copy)]
pub enum VaRange {
    Lower,
    Upper,
}

// What a caller keeps between calls: where the tables stand, the root's level, and its range. Any numbers may stand in it: refusal 1 is
// given of those that make no pool.
#[derive(Clone, Copy)]
pub struct Handle {
    pub base: PhysicalAddress,
    pub level: usize,
    pub range: VaRange,
}

// The refusal slip, with what each carries.
#[derive(Clone, Copy, Debug, PartialEq, Eq)]
pub enum Refusal {
    Shape,
    End(u64),
    InvalidFlags(u64),
    FlagSet(u64),
    RegionBackwards(MemoryRegion),
    AddressRange(VirtualAddress),
    Frame(PhysicalAddress),
    Unsound,
    WantOfRoom(u64, u64),
    HouseRule(u64),
    Short(u64),
}

impl Refusal {
    // Its number on the slip.
    pub fn number(self) -> u64
        ensures { result ≡ number self }
    {
        match self {
            Refusal::Shape => 1,
            Refusal::End(_) => 2,
            Refusal::InvalidFlags(_) => 3,
            Refusal::FlagSet(_) => 4,
            Refusal::RegionBackwards(_) => 5,
            Refusal::AddressRange(_) => 6,
            Refusal::Frame(_) => 7,
            Refusal::Unsound => 8,
            Refusal::WantOfRoom(_, _) => 9,
            Refusal::HouseRule(_) => 10,
            Refusal::Short(_) => 11,
        }
    }

    // When it is given.
    fn meaning(self) -> &'static str
        ensures { result.now ≡ meaning self }
    {
        match self {
            Refusal::Shape => {
                "n is 0 or above 4096, lengths disagree, base not a multiple of 4096 or its end above 2^48, root level above 3, \
                 or table number not below n"
            }
            Refusal::End(_) => "end is 0 or above 2^64 - 4096",
            Refusal::InvalidFlags(_) => "a flag argument has bit 1",
            Refusal::FlagSet(_) =>
                "a flag outside the set, bit 0 to set, or a bit both set and cleared",
            Refusal::RegionBackwards(_) => "rounded end below rounded start",
            Refusal::AddressRange(_) => "an address outside the root's span",
            Refusal::Frame(_) => "frame not a multiple of 4096, or frame + length above 2^48",
            Refusal::Unsound => "pool not sound",
            Refusal::WantOfRoom(_, _) => "more new tables needed than are free",
            Refusal::HouseRule(_) => "live house rule broken",
            Refusal::Short(_) => "list shorter than needed, or page image not 4096 bytes",
        }
    }
}

// Its number, when it is given, and what it carries.
impl fmt::Display for Refusal {
    ghost output = { λ r. Some (refusal_text r) };

    fn fmt<W: fmt::Write>(&self, f: &mut fmt::Formatter<W>) -> fmt::Result {
        write!(f, "refused {}: {}", self.number(), self.meaning())?;
        match *self {
            Refusal::Shape | Refusal::Unsound => Ok(()),
            Refusal::End(end) => write!(f, " (end 0x{end:x})"),
            Refusal::InvalidFlags(flags) => write!(f, " (flags 0x{flags:x})"),
            Refusal::FlagSet(flags) => write!(f, " (flags 0x{flags:x})"),
            Refusal::RegionBackwards(region) => write!(
                f,
                " (start 0x{:x}, end 0x{:x})",
                region.start.0, region.end.0
            ),
            Refusal::AddressRange(address) => write!(f, " (address 0x{:x})", address.0),
            Refusal::Frame(frame) => write!(f, " (frame 0x{:x})", frame.0),
            Refusal::WantOfRoom(needed, free) => write!(f, " (needed {needed}, free {free})"),
            Refusal::HouseRule(word) => write!(f, " (word 0x{word:x})"),
            Refusal::Short(needed) => write!(f, " (needed {needed})"),
        }
    }
}

impl Error for Refusal {}
