// The call list: the region and the pool looked at, then a line for each entry that the region meets, if there is room.
#![tactic(auto)]

ghost use Rattle.std.specs.Prelude.{◌≡◌, ◌*◌, ◌-◌, ◌^◌, ◌≤◌, length};
ghost use Rattle.pool.specs.State.{st};
ghost use Rattle.list_lines.specs.Lines.{lines_from};
ghost use Rattle.list.specs.Call.{verify_ends, listing, list_lines, list_call};

use address::VirtualAddress;
use pool::{Handle, Pool, Refusal};
use region::MemoryRegion;

// Whether the region that the two numbers touch can be asked for.
fn verify_ends(handle: Handle, start: u64, end: u64) -> Result<(), Refusal>
    ensures { result ≡ verify_ends handle start end }
{
    if !region_verify::end_fits(end) {
        return Err(Refusal::End(end));
    }
    region_verify::verify_region(handle, MemoryRegion::new(start, end))
}

// The lines of the region down from the root, if the list has room for them.
fn list_lines(
    words: &[u64],
    tables: usize,
    handle: Handle,
    region: MemoryRegion,
    list: &mut [u64],
) -> Result<usize, Refusal>
    requires { (length words.now ≡ 512 * tables) × (1 ≤ tables) × (handle.level ≤ 3) × (region.end.0 - region.start.0 ≤ 2 ^ 48) }
    ensures { listing result list.new
        ≡ list_lines (lines_from handle.base.0 tables words.now (3 - handle.level) 0 region) list.old }
{
    let count = list_lines::count_lines(words, tables, handle, 0, handle.level, region);
    if list.len() / 4 < count {
        return Err(Refusal::Short(4 * (count as u64)));
    }
    list_lines::visit_range(words, tables, handle, 0, handle.level, region, list, 0);
    Ok(count)
}

// Lists the entries that the region meets: start, end, word and level of each. Answers with the count of its lines.
// Words, ledger and handle come one by one, as they are lent: the pool is made of them once it is shaped.
pub fn list(
    words: &[u64],
    ledger: &[u32],
    handle: Handle,
    start: VirtualAddress,
    end: VirtualAddress,
    list: &mut [u64],
) -> Result<usize, Refusal>
    ensures { listing result list.new
        ≡ list_call handle (st words.now ledger.now) start.0 end.0 list.old }
{
    if !pool_handle::is_shaped(words, ledger, handle) {
        return Err(Refusal::Shape);
    }
    verify_ends(handle, start.0, end.0)?;
    let pool = Pool {
        words,
        ledger,
        handle,
    };
    if !checker::is_sound(&pool) {
        return Err(Refusal::Unsound);
    }
    list_lines(
        words,
        ledger.len(),
        handle,
        MemoryRegion::new(start.0, end.0),
        list,
    )
}
