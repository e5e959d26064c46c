// Numbers: addresses of two kinds that can't be exchanged, rounding, and the sizes of entries by level.
// Port of the helper functions of paging.rs (aarch64-paging 0.12.3) and of the two address types of descriptor.rs.
#![tactic(auto)]

ghost use Rattle.std.specs.Prelude.{◌≡◌, ◌/◌, ◌%◌, ◌^◌, eqb};
ghost use Rattle.laws.specs.Size.{size_at, down};
ghost use Rattle.address.specs.Address.{align_up};

// An address that a walk translates.
#[derive(Clone, Copy, Debug, PartialEq, Eq)]
pub struct VirtualAddress(pub u64);

// An address that a walk answers with, or at which a table stands.
#[derive(Clone, Copy, Debug, PartialEq, Eq)]
pub struct PhysicalAddress(pub u64);

// The bytes of a page.
pub const PAGE_SIZE: u64 = 4096;

// The level at which every entry is a page.
pub const LEAF_LEVEL: usize = 3;

// The bytes that one entry of a table at this level spans; a page past the last level.
pub fn granularity_at_level(level: usize) -> u64
    ensures { result ≡ size_at level }
{
    match level {
        0 => 0x80_0000_0000,
        1 => 0x4000_0000,
        2 => 0x20_0000,
        _ => PAGE_SIZE,
    }
}

// The multiple of the alignment at or below the value; 0 where the alignment is 0.
pub fn align_down(value: u64, alignment: u64) -> u64
    ensures { result ≡ down value alignment }
{
    if alignment == 0 {
        return 0;
    }
    value / alignment * alignment
}

// The multiple of the alignment at or above the value, and 0 where there is none below 2^64 (the Rust wraps to 0 there).
pub fn align_up(value: u64, alignment: u64) -> u64
    ensures { result ≡ align_up value alignment }
{
    if alignment == 0 {
        return 0;
    }
    let rest = value % alignment;
    if rest == 0 {
        return value;
    }
    let below = value - rest;
    if 0xFFFF_FFFF_FFFF_FFFF - below < alignment {
        return 0;
    }
    below + alignment
}

// Whether the value is a multiple of the alignment; of 0 only 0 is.
pub fn is_aligned(value: u64, alignment: u64) -> bool
    ensures { result ≡ eqb (value % alignment) 0 }
{
    if alignment == 0 {
        return value == 0;
    }
    value % alignment == 0
}

// The number that an invalidation by address takes: the page's, in 44 bits.
pub fn tlbi_address(va: VirtualAddress) -> u64
    ensures { result ≡ va.0 / 4096 % 2 ^ 44 }
{
    va.0 / PAGE_SIZE % 0x1000_0000_0000
}
