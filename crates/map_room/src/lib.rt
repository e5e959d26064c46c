// A map whose numbers were verified: refusals 8 and 9, then the map.
#![tactic(auto)]

ghost use Rattle.std.specs.Prelude.{◌≡◌, Ok};
ghost use Rattle.pool.specs.Lent.{lent, KeepsLent};
ghost use Rattle.pool.specs.Number.{used};
ghost use Rattle.pool.specs.Refuse.{Shaped, out};
ghost use Rattle.map_rules.specs.Fit.{Fit};
ghost use Rattle.map_spec.specs.Call.{put_down, map_sound};

use map_rules::Map;
use pool::{PoolMut, Refusal};

// The map, from the lowest table over its region, and the tables in use afterwards: counted again only where one was taken or freed.
fn put_down(pool: &mut PoolMut<'_>, map: Map, before: usize) -> usize
    requires { Shaped pool.old.handle (lent pool.old) × Fit map × (before ≡ used pool.old.ledger.now) }
    ensures keeps { KeepsLent pool.old pool.new }
    ensures leaves { out (Ok result) (lent pool.new)
        ≡ put_down pool.old.handle map (lent pool.old) }
{
    let place = map_start::lowest_table(&pool.read(), map);
    if map_range::map_range(pool, place.table, place.level, map) {
        return pool_ledger::count_used(pool.read().ledger);
    }
    before
}

// Refusals 8 and 9, then the map.
#[tactic(auto, using(crate::proofs::Room::full))]
pub fn map_sound(pool: &mut PoolMut<'_>, map: Map) -> Result<usize, Refusal>
    requires { Shaped pool.old.handle (lent pool.old) × Fit map }
    ensures keeps { KeepsLent pool.old pool.new }
    ensures leaves { out result (lent pool.new)
        ≡ map_sound pool.old.handle map (lent pool.old) }
{
    let found = checker::count_sound(&pool.read());
    let Some(used) = found else {
        return Err(Refusal::Unsound);
    };
    let free = (pool.ledger.len() - used) as u64;
    let needed = map_count::count_over(&pool.read(), map, free);
    if free < needed {
        return Err(Refusal::WantOfRoom(needed, free));
    }
    Ok(put_down(pool, map, used))
}
