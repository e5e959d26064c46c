// Tables freed: one, whose words, lent as a part of the pool from its middle, are made 0; and one with all that hangs from it.
#![tactic(auto)]

ghost use Rattle.std.specs.Prelude.{◌≡◌, ◌*◌, ◌<◌, ◌-◌, ◌≤◌, length};
ghost use Rattle.pool.specs.Lent.{lent, KeepsLent};
ghost use Rattle.pool_table.specs.Table.{clear, free_tree};

use entry::Sub;
use pool::PoolMut;

// Table k zero, and free.
pub fn clear_table(pool: &mut PoolMut<'_>, k: usize)
    requires { k < length pool.old.ledger.now }
    ensures keeps { KeepsLent pool.old pool.new }
    ensures leaves { lent pool.new ≡ clear k (lent pool.old) }
{
    let a = 512 * k;
    let e = a + 512;
    pool_zero::zero(&mut pool.words[a..e]);
    pool.ledger[k] = 0;
}

// Frees table k, at this level, and every table below it.
#[tactic(auto, using(crate::specs::Table::free_last))]
pub fn free(pool: &mut PoolMut<'_>, k: usize, level: usize)
    requires { (k < length pool.old.ledger.now) × (level ≤ 3) }
    ensures keeps { KeepsLent pool.old pool.new }
    ensures leaves { lent pool.new ≡ free_tree (3 - level) pool.old.handle k (lent pool.old) }
{
    if address::LEAF_LEVEL <= level {
        clear_table(pool, k);
        return;
    }
    for i in 0..512 {
        let word = pool.words[512 * k + i];
        let kind = entry::subtable(pool.handle.base, pool.ledger.len(), level, word);
        let Sub::Table(j) = kind else {
            continue;
        };
        free(pool, j, level + 1);
    }
    clear_table(pool, k);
}
