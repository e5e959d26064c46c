// The entry of a level that holds an address: its last address and its slot; where a chunk ends that begins there.
#![tactic(auto)]

ghost use Rattle.std.specs.Prelude.{◌≡◌, ◌/◌};
ghost use Rattle.laws.specs.Size.{size_at};
ghost use Rattle.address_slot.specs.Slot.{entry_last, entry_index, chunk_end};

// The last address of the entry at this level that holds the address: no sum can pass 2^64.
pub fn entry_last(level: usize, va: u64) -> u64
    ensures { result ≡ entry_last level va }
{
    va | (address::granularity_at_level(level) - 1)
}

// The number of the entry at this level that holds the address.
pub fn entry_number(level: usize, va: u64) -> u64
    ensures { result ≡ va / size_at level }
{
    match level {
        0 => va / 0x80_0000_0000,
        1 => va / 0x4000_0000,
        2 => va / 0x20_0000,
        _ => va / 4096,
    }
}

// The slot of the entry at this level that holds the address.
pub fn entry_index(level: usize, va: u64) -> usize
    ensures { result ≡ entry_index level va }
{
    (entry_number(level, va) % 512) as usize
}

// Where the chunk that begins at start ends: with its entry, or with the region.
pub fn chunk_end(level: usize, start: u64, end: u64) -> u64
    ensures { result ≡ chunk_end level start end }
{
    if end == 0 {
        return 0;
    }
    let last = entry_last(level, start);
    if end - 1 <= last { end } else { last + 1 }
}
