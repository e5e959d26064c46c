// A map, the tests of its five rules, which of them fits a chunk, and the word that they write: map_range of paging.rs (aarch64-paging
// 0.12.3).
#![tactic(auto)]

ghost use Rattle.std.specs.Prelude.{◌≡◌, ◌%◌, ◌^◌, ◌<◌};
ghost use Rattle.entry.specs.Word.{leaf_word, Plain};
ghost use Rattle.map_rules.specs.Rules.{chunk_map, rule2, blockable, rule_of};
ghost use Rattle.map_rules.specs.Fit.{Fit};

use address::PhysicalAddress;
use region::MemoryRegion;

// What to put down: the region, the frame of its first page, the flags, and whether blocks are allowed. Any may be asked for: `Fit` says of
// one that was verified that it fits.
#[derive(Clone, Copy)]
pub struct Map {
    pub region: MemoryRegion,
    pub frame: PhysicalAddress,
    pub flags: u64,
    pub blocks: bool,
}

// What is done with one chunk.
#[derive(Clone, Copy)]
pub enum Rule {
    Write(u64),
    Keep,
    Drop(u64),
    Down,
}

// The map of one chunk, with its frame.
pub fn chunk_of(map: Map, region: MemoryRegion, frame: PhysicalAddress) -> Map
    ensures { result ≡ chunk_map map region frame.0 }
{
    Map {
        region,
        frame,
        ..map
    }
}

// A page or block with these flags, or the flags alone where they are not VALID.
pub fn leaf_word(level: usize, frame: PhysicalAddress, flags: u64) -> u64
    requires { (frame.0 % 4096 ≡ 0) × (frame.0 < 2 ^ 48) × Plain flags }
    ensures { result ≡ leaf_word level frame.0 flags }
{
    if flags % 2 != 1 {
        return flags;
    }
    if address::LEAF_LEVEL <= level {
        return frame.0 + flags + 2;
    }
    frame.0 + flags
}

// Rule 2: the entry maps the chunk already.
pub fn is_already_mapped(level: usize, map: Map, word: u64) -> bool
    ensures { result ≡ rule2 level map word }
{
    if word % 4 == 3 {
        return false;
    }
    if entry::flags(word) != map.flags {
        return false;
    }
    let offset = map.region.start.0 & (address::granularity_at_level(level) - 1);
    if map.frame.0 < offset {
        return false;
    }
    map.frame.0 - offset == word & entry::ADDRESS_BITS
}

// Rule 3's last three tests: frame aligned to the entry, blocks allowed, level above 0.
pub fn is_blockable(level: usize, map: Map) -> bool
    ensures { result ≡ blockable level map }
{
    if map.frame.0 & (address::granularity_at_level(level) - 1) != 0 {
        return false;
    }
    if !map.blocks {
        return false;
    }
    0 < level
}

// The first rule that fits.
pub fn rule_of(level: usize, map: Map, word: u64) -> Rule
    requires { Fit map × (map.region.start.0 < map.region.end.0) }
    ensures { result ≡ rule_of level map word }
{
    if address::LEAF_LEVEL <= level { // rule 1
        return Rule::Write(leaf_word(level, map.frame, map.flags));
    }
    if is_already_mapped(level, map, word) {
        return Rule::Keep;
    }
    let region = map.region;
    if !region.is_block(level) {
        return Rule::Down;
    }
    if word % 4 == 3 {
        if map.flags % 2 != 1 {
            return Rule::Drop(map.flags);
        }
        return Rule::Down;
    }
    if is_blockable(level, map) {
        return Rule::Write(leaf_word(level, map.frame, map.flags));
    }
    Rule::Down
}
