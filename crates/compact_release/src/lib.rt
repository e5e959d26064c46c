// A table that is empty freed, and the slot that refers to it zeroed.
#![tactic(auto)]

ghost use Rattle.std.specs.Prelude.{◌≡◌, ◌*◌, ◌<◌, length};
ghost use Rattle.pool.specs.Lent.{lent, KeepsLent};
ghost use Rattle.compact_spec.specs.Compact.{all_zero, release_empty};

use pool::PoolMut;

// Whether a table's words are all zero.
fn is_empty(table: &[u64]) -> bool
    ensures { result ≡ all_zero table.now }
{
    table.iter().all(|word| *word == 0)
}

// Frees table j if it is empty, and zeroes slot i of table k, which refers to it.
pub fn release_empty(pool: &mut PoolMut<'_>, k: usize, i: usize, j: usize)
    requires { (k < length pool.old.ledger.now) × (i < 512) × (j < length pool.old.ledger.now) }
    ensures keeps { KeepsLent pool.old pool.new }
    ensures leaves { lent pool.new ≡ release_empty k i j (lent pool.old) }
{
    let a = 512 * j;
    let e = a + 512;
    if !is_empty(&pool.read().words[a..e]) {
        return;
    }
    pool.words[512 * k + i] = 0;
    pool_table::clear_table(pool, j);
}
