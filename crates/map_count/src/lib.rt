// Refusal 9's count: the new tables that a map needs. Only entries that exist are visited.
#![tactic(auto)]

ghost use Rattle.std.specs.Prelude.{◌≡◌, ◌*◌, ◌-◌, ◌≤◌, ◌<◌, length};
ghost use Rattle.pool.specs.Lent.{read_state};
ghost use Rattle.map_rules.specs.Fit.{Fit};
ghost use Rattle.map_count_spec.specs.Closed.{closed};
ghost use Rattle.map_count.specs.Laws.{over};

use entry::Sub;
use map_rules::{Map, Rule};
use pool::Pool;

// The new tables for every chunk of the map in table k of level 2: one for each entry that is no table and is split. Apart from `count_new`
// for speed: no table is looked into there (docs/PERFORMANCE.md).
#[tactic(auto, unfolding(address_slot::specs::Slot::entry_index))]
fn count_last(pool: &Pool<'_>, k: usize, map: Map) -> u64
    requires { (k < length pool.now.ledger.now) × Fit map }
    ensures { result ≡ closed 1 pool.now.handle (read_state pool.now) k map }
{
    let mut frame = map.frame;
    let mut count = 0;
    for region in map.region.split(2) {
        let i = address_slot::entry_index(2, region.start.0);
        let chunk = map_rules::chunk_of(map, region, frame);
        frame.0 += region.end.0 - region.start.0;
        let word = pool.words[512 * k + i];
        let Sub::Leaf = entry::subtable(pool.handle.base, pool.ledger.len(), 2, word) else {
            continue;
        };
        let Rule::Down = map_rules::rule_of(2, chunk, word) else {
            continue;
        };
        count += 1;
    }
    count
}

// The new tables for every chunk of the map in table k: only entries that exist are visited.
#[tactic(auto, unfolding(address_slot::specs::Slot::entry_index))]
fn count_new(pool: &Pool<'_>, k: usize, level: usize, map: Map) -> u64
    requires { (k < length pool.now.ledger.now) × (level ≤ 3) × Fit map }
    ensures { result ≡ closed (3 - level) pool.now.handle (read_state pool.now) k map }
{
    if address::LEAF_LEVEL <= level {
        return 0;
    }
    if level == 2 {
        return count_last(pool, k, map);
    }
    let mut frame = map.frame;
    let mut count = 0;
    for region in map.region.split(level) {
        let i = address_slot::entry_index(level, region.start.0);
        let first = frame;
        // Not len(): its test of a region that runs backwards makes a twentieth more instructions of a refused map.
        frame.0 += region.end.0 - region.start.0;
        let word = pool.words[512 * k + i];
        match entry::subtable(pool.handle.base, pool.ledger.len(), level, word) {
            Sub::Table(j) => {
                let chunk = map_rules::chunk_of(map, region, first);
                let Rule::Down = map_rules::rule_of(level, chunk, word) else {
                    continue;
                };
                count += count_new(pool, j, level + 1, chunk);
            }
            Sub::Leaf => count += map_count_leaf::count_entry(level, map, region, first, word),
            Sub::Outside => {}
        }
    }
    count
}

// The new tables for a map in the root where they are more than are free, else 0, a count that any pool has room for: a number and no
// Option, since map_room's test of it is refused by edits when turned. The tables are looked into only where the entries met are more.
#[tactic(auto, using(crate::specs::Laws::over_none, crate::specs::Laws::over_some))]
pub fn count_over(pool: &Pool<'_>, map: Map, free: u64) -> u64
    requires { (0 < length pool.now.ledger.now) × (pool.now.handle.level ≤ 3) × Fit map }
    ensures { result ≡ over free (closed (3 - pool.now.handle.level) pool.now.handle (read_state pool.now) 0 map) }
{
    if map_count_leaf::count_most(pool.handle.level, map.region) <= free {
        return 0;
    }
    let needed = count_new(pool, 0, pool.handle.level, map);
    if needed <= free {
        return 0;
    }
    needed
}
