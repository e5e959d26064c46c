// Putting a map down in one table and the tables below it: map_range of PageTableWithLevel.
#![tactic(auto)]

ghost use Rattle.std.specs.Prelude.{false, ◌≡◌, ◌-◌, ◌≤◌, ◌<◌, length};
ghost use Rattle.pool.specs.Lent.{lent, KeepsLent};
ghost use Rattle.pool.specs.Refuse.{Shaped};
ghost use Rattle.map_put.specs.Put.{map_range};
ghost use Rattle.map_rules.specs.Fit.{Fit};

use map_rules::{Map, Rule};
use pool::PoolMut;

// Every chunk of the map in table k, ascending. Whether a table was taken or freed.
pub fn map_range(pool: &mut PoolMut<'_>, k: usize, level: usize, map: Map) -> bool
    requires { Shaped pool.old.handle (lent pool.old) × (k < length pool.old.ledger.now) × (level ≤ 3) × Fit map }
    ensures keeps { KeepsLent pool.old pool.new }
    ensures leaves { (lent pool.new
        ≡ map_range (3 - level) pool.old.handle k map (lent pool.old))
        × (result ≡ false → pool.new.ledger.now ≡ pool.old.ledger.now) }
{
    let mut frame = map.frame;
    let mut changed = false;
    for region in map.region.split(level) {
        let i = address_slot::entry_index(level, region.start.0);
        let chunk = map_rules::chunk_of(map, region, frame);
        // Not len(): its test of a region that runs backwards makes 18 % more instructions of a page.
        frame.0 += region.end.0 - region.start.0;
        let word = pool.words[512 * k + i];
        let rule = map_rules::rule_of(level, chunk, word);
        let Rule::Down = rule else {
            changed = map_put::put_entry(pool, k, level, i, rule, changed);
            continue;
        };
        let under = map_split::descend(pool, k, level, i);
        let Some(j) = under else {
            continue;
        };
        let below = map_range(pool, j, level + 1, chunk);
        changed = map_put::ledger_changed(changed, word, below);
    }
    changed
}
