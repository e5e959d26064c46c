// A handle: one of three numbers; what every call asks of it and of what is lent, refusal 1; the flags that may stand in its tables.
#![tactic(auto)]

ghost use Rattle.std.specs.Prelude.{◌≡◌};
ghost use Rattle.pool.specs.State.{st};
ghost use Rattle.pool.specs.Refuse.{shaped};
ghost use Rattle.pool.specs.Sound.{flag_set};
ghost use Rattle.pool_handle.specs.Handle.{range_of, root_level, handle_of};

use address::PhysicalAddress;
use pool::{Handle, VaRange};

// The tables that a pool may have.
pub const MAX_TABLES: usize = 4096;

// Whether refusal 1 is not met: the bound on n comes before 512·n is formed.
pub fn is_shaped(words: &[u64], ledger: &[u32], handle: Handle) -> bool
    ensures { result ≡ shaped handle (st words.now ledger.now) }
{
    let n = ledger.len();
    if n < 1 {
        return false;
    }
    if MAX_TABLES < n {
        return false;
    }
    if words.len() != 512 * n {
        return false;
    }
    if handle.base.0 % 4096 != 0 {
        return false;
    }
    if 0x1_0000_0000_0000 < handle.base.0 {
        return false;
    }
    if 0x1_0000_0000_0000 - handle.base.0 < 4096 * (n as u64) {
        return false;
    }
    handle.level <= address::LEAF_LEVEL
}

// The flags that may stand in the tables of this handle.
pub fn flag_set(handle: Handle) -> u64
    ensures { result ≡ flag_set handle }
{
    entry::EL1_FLAGS
}

// The number of the upper range, the highest there is; 0 is lower. The C names take range and level as numbers.
const UPPER: u64 = 1;

// A level past those that a root may have.
const NO_LEVEL: usize = 4;

// 0 is lower; for a number that names no range it does not matter.
fn range_of(range: u64) -> VaRange
    ensures { result ≡ range_of range }
{
    if range == 0 {
        VaRange::Lower
    } else {
        VaRange::Upper
    }
}

// The level as given; a number that names no range has none, so that every call refuses its handle by 1.
fn root_level(level: u64, range: u64) -> usize
    ensures { result ≡ root_level level range }
{
    if UPPER < range {
        return NO_LEVEL;
    }
    level as usize
}

// The handle of three numbers.
pub fn handle_of(base: u64, level: u64, range: u64) -> Handle
    ensures { result ≡ handle_of base level range }
{
    Handle {
        base: PhysicalAddress(base),
        level: root_level(level, range),
        range: range_of(range),
    }
}
