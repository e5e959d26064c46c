// Regions of virtual addresses and their chunks: MemoryRegion and ChunkedIterator of paging.rs (aarch64-paging 0.12.3).
#![tactic(auto)]

ghost use Rattle.std.specs.Prelude.{◌≡◌, ◌-◌};
ghost use Rattle.std.specs.Iterator.{item_count};
ghost use Rattle.region.specs.Region.{rounded, whole, parted, next_chunk};
ghost use Rattle.region.specs.Chunks.{met, chunks_of};

use address::VirtualAddress;

// The addresses from start up to end, which is not among them. Any two may be asked for: what a call needs of them is found, and then
// stands in contracts.
#[derive(Clone, Copy, Debug, PartialEq, Eq)]
pub struct MemoryRegion {
    pub start: VirtualAddress,
    pub end: VirtualAddress,
}

// What remains of a region that is being cut at the entries of a level.
#[derive(Clone, Copy)]
pub struct ChunkedIterator {
    pub range: MemoryRegion,
    pub level: usize,
}

impl MemoryRegion {
    // The pages that the two numbers touch: the start rounded down, the end rounded up.
    pub fn new(start: u64, end: u64) -> MemoryRegion
        ensures { result ≡ rounded start end }
    {
        MemoryRegion {
            start: VirtualAddress(address::align_down(start, address::PAGE_SIZE)),
            end: VirtualAddress(address::align_up(end, address::PAGE_SIZE)),
        }
    }

    // The bytes of the region; none where it runs backwards.
    pub fn len(self) -> u64
        ensures { result ≡ self.end.0 - self.start.0 }
    {
        if self.end.0 < self.start.0 {
            return 0;
        }
        self.end.0 - self.start.0
    }

    // Whether both ends are multiples of the entry's size at this level.
    pub fn is_block(self, level: usize) -> bool
        ensures { result ≡ whole level self }
    {
        (self.start.0 | self.end.0) & (address::granularity_at_level(level) - 1) == 0
    }

    // The entries of this level that the region meets.
    pub fn entries_met(self, level: usize) -> u64
        ensures { result ≡ met level self.start.0 self.end.0 }
    {
        if self.end.0 <= self.start.0 {
            return 0;
        }
        address_slot::entry_number(level, self.end.0 - 1)
            - address_slot::entry_number(level, self.start.0)
            + 1
    }

    // The chunks of the region at this level.
    pub fn split(self, level: usize) -> ChunkedIterator
        ensures { result ≡ record { range = self; level = level } }
    {
        ChunkedIterator { range: self, level }
    }
}

impl Iterator for ChunkedIterator {
    type Item = MemoryRegion;

    ghost next_gives = { λ before chunk after. parted chunk after ≡ next_chunk before };

    ghost remaining = { item_count chunks_of };

    // The chunk at the start: up to the end of its entry, or of the region.
    fn next(&mut self) -> Option<MemoryRegion> {
        let start = self.range.start;
        let end = self.range.end;
        if end.0 <= start.0 {
            return None;
        }
        let stop = VirtualAddress(address_slot::chunk_end(self.level, start.0, end.0));
        self.range.start = stop;
        Some(MemoryRegion { start, end: stop })
    }
}
