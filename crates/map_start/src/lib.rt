// Where a map begins: a table that holds all of its region, as low as links lead. What stands above it is left as it is.
#![tactic(auto)]

ghost use Rattle.std.specs.Prelude.{◌<◌, length};
ghost use Rattle.pool.specs.Lent.{read_state};
ghost use Rattle.pool.specs.Refuse.{Shaped};
ghost use Rattle.map_rules.specs.Fit.{Fit};
ghost use Rattle.map_start.specs.Start.{LeadsTo, Serves};

use entry::Sub;
use map_rules::{Map, Rule};
use pool::Pool;

// A table, and its level.
#[derive(Clone, Copy)]
pub struct Place {
    pub table: usize,
    pub level: usize,
}

// The table below table k, where the region lies in one entry and the map goes down by its link.
#[tactic(auto, unfolding(address_slot::specs::Slot::entry_index))]
fn next_table(pool: &Pool<'_>, k: usize, level: usize, map: Map) -> Option<usize>
    requires { Shaped pool.now.handle (read_state pool.now) × (k < length pool.now.ledger.now) × (level < 3) × Fit map }
    ensures { LeadsTo pool.now.handle k level map (read_state pool.now) result }
{
    let start = map.region.start.0;
    let end = map.region.end.0;
    if end <= start {
        return None;
    }
    let stop = address_slot::chunk_end(level, start, end);
    if stop != end {
        return None;
    }
    let i = address_slot::entry_index(level, start);
    let word = pool.words[512 * k + i];
    let kind = entry::subtable(pool.handle.base, pool.ledger.len(), level, word);
    let Sub::Table(j) = kind else {
        return None;
    };
    let rule = map_rules::rule_of(level, map, word);
    let Rule::Down = rule else {
        return None;
    };
    Some(j)
}

// A table from which the map does what it does from the root, as low as links and rule 5 lead.
pub fn lowest_table(pool: &Pool<'_>, map: Map) -> Place
    requires { Shaped pool.now.handle (read_state pool.now) × Fit map }
    ensures { Serves pool.now.handle map (read_state pool.now) result.table result.level }
{
    let mut table = 0;
    for level in pool.handle.level..address::LEAF_LEVEL {
        let next = next_table(pool, table, level, map);
        let Some(below) = next else {
            return Place { table, level };
        };
        table = below;
    }
    Place {
        table,
        level: address::LEAF_LEVEL,
    }
}
