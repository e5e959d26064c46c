// Compacting a pool: compact_subtables of paging.rs (aarch64-paging 0.12.3), on a pool of tables.
#![tactic(auto)]

ghost use Rattle.std.specs.Prelude.{◌≡◌, ◌*◌, ◌-◌, ◌≤◌, ◌<◌, length};
ghost use Rattle.pool.specs.State.{st};
ghost use Rattle.pool.specs.Lent.{lent, KeepsLent};
ghost use Rattle.pool.specs.Refuse.{out};
ghost use Rattle.compact_spec.specs.Compact.{compact_table};
ghost use Rattle.compact_spec.specs.Call.{compact_call};

use entry::Sub;
use pool::{Handle, PoolMut, Refusal};

// Compacts what hangs from table k, at this level: each entry's subtree first, and then its table is freed if it is empty.
#[tactic(auto, using(compact_spec::specs::Compact::compact_last))]
pub fn compact_subtables(pool: &mut PoolMut<'_>, k: usize, level: usize)
    requires { (k < length pool.old.ledger.now) × (level ≤ 3) }
    ensures keeps { KeepsLent pool.old pool.new }
    ensures leaves { lent pool.new ≡ compact_table (3 - level) pool.old.handle k (lent pool.old) }
{
    if address::LEAF_LEVEL <= level {
        return;
    }
    for i in 0..512 {
        let kind = entry::subtable(
            pool.handle.base,
            pool.ledger.len(),
            level,
            pool.words[512 * k + i],
        );
        let Sub::Table(j) = kind else {
            continue;
        };
        compact_subtables(pool, j, level + 1);
        compact_release::release_empty(pool, k, i, j);
    }
}

// Compacts the pool: no table but the root stays that is all zero. Words, ledger and handle
// come one by one, as they are lent: the pool is made of them once it is shaped.
pub fn compact(words: &mut [u64], ledger: &mut [u32], handle: Handle) -> Result<usize, Refusal>
    ensures { out result (st words.new ledger.new) ≡ compact_call handle (st words.old ledger.old) }
{
    if !pool_handle::is_shaped(words, ledger, handle) {
        return Err(Refusal::Shape);
    }
    let mut pool = PoolMut {
        words,
        ledger,
        handle,
    };
    if !checker::is_sound(&pool.read()) {
        return Err(Refusal::Unsound);
    }
    compact_subtables(&mut pool, 0, handle.level);
    Ok(pool_ledger::count_used(pool.read().ledger))
}
