// An entry that is no table becomes one: split_entry of paging.rs (aarch64-paging 0.12.3). Map and modify go down by it.
#![tactic(auto)]

ghost use Rattle.std.specs.Prelude.{◌≡◌, ◌+◌, ◌*◌, ◌%◌, ◌<◌, length, get_or};
ghost use Rattle.pool.specs.Lent.{lent, KeepsLent};
ghost use Rattle.pool.specs.Refuse.{Shaped};
ghost use Rattle.pool_table.specs.Table.{taken};
ghost use Rattle.map_split.specs.Split.{split_entry, below};

use address::PhysicalAddress;
use entry::Sub;
use pool::PoolMut;

// A new table for an entry that is no table, filled with the old entry.
#[tactic(auto, using(crate::proofs::Fill::split_hole))]
pub fn split_entry(pool: &mut PoolMut<'_>, k: usize, level: usize, i: usize) -> Option<usize>
    requires { Shaped pool.old.handle (lent pool.old) × (level < 3) × (k < length pool.old.ledger.now) × (i < 512)
        × (get_or pool.old.words.now (512 * k + i) 0 % 4 ≡ 3 → ⊥) }
    ensures keeps { KeepsLent pool.old pool.new }
    ensures leaves { taken result (lent pool.new)
        ≡ split_entry pool.old.handle k level i (lent pool.old) }
{
    let word = pool.words[512 * k + i];
    let flags = entry::flags(word);
    if word % 2 != 1 {
        return pool_take::take_table(pool, k, level + 1, i, flags, 0);
    }
    let address = (word & entry::ADDRESS_BITS) & !(address::granularity_at_level(level) - 1);
    let first = map_rules::leaf_word(level + 1, PhysicalAddress(address), flags);
    let step = address::granularity_at_level(level + 1);
    pool_take::take_table(pool, k, level + 1, i, first, step)
}

// The table below a slot: the one that is there, or a new one.
pub fn descend(pool: &mut PoolMut<'_>, k: usize, level: usize, i: usize) -> Option<usize>
    requires { Shaped pool.old.handle (lent pool.old) × (level < 3) × (k < length pool.old.ledger.now) × (i < 512) }
    ensures keeps { KeepsLent pool.old pool.new }
    ensures leaves { taken result (lent pool.new)
        ≡ below pool.old.handle k level i (lent pool.old) }
{
    let word = pool.words[512 * k + i];
    let kind = entry::subtable(pool.handle.base, pool.ledger.len(), level, word);
    let Sub::Table(j) = kind else {
        let Sub::Leaf = kind else {
            return None;
        };
        return split_entry(pool, k, level, i);
    };
    Some(j)
}
