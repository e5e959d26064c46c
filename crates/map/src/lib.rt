// The call that puts down a map: map_range of paging.rs (aarch64-paging 0.12.3), on a pool of tables.
#![tactic(auto)]

ghost use Rattle.std.specs.Prelude.{◌≡◌};
ghost use Rattle.pool.specs.State.{st};
ghost use Rattle.pool.specs.Refuse.{out};
ghost use Rattle.map_spec.specs.Call.{map_call};

use address::{PhysicalAddress, VirtualAddress};
use map_rules::Map;
use pool::{Handle, PoolMut, Refusal};
use region::MemoryRegion;

// The crate's two constraints; only the first is read.
#[derive(Clone, Copy)]
pub struct Constraints(pub u64);

// Puts a map down: each page of the region to its frame, ascending, with these flags. Answers with the tables in use.
// Words, ledger and handle come one by one, as they are lent: the pool is made of them once it is shaped.
pub fn map(
    words: &mut [u64],
    ledger: &mut [u32],
    handle: Handle,
    start: VirtualAddress,
    end: VirtualAddress,
    frame: PhysicalAddress,
    flags: u64,
    constraints: Constraints,
) -> Result<usize, Refusal>
    ensures { out result (st words.new ledger.new)
        ≡ map_call handle start.0 end.0 frame.0 flags constraints.0 (st words.old ledger.old) }
{
    if !pool_handle::is_shaped(words, ledger, handle) {
        return Err(Refusal::Shape);
    }
    let asked = Map {
        region: MemoryRegion::new(start.0, end.0),
        frame,
        flags,
        blocks: constraints.0 % 2 == 0,
    };
    map_verify::verify_map(handle, end.0, asked)?;
    let mut pool = PoolMut {
        words,
        ledger,
        handle,
    };
    map_room::map_sound(&mut pool, asked)
}
