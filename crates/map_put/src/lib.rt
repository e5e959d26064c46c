// What a rule that goes no lower does: a word is written, a subtree freed. Parts of map_range of PageTableWithLevel.
#![tactic(auto)]

ghost use Rattle.std.specs.Prelude.{false, ◌≡◌, ◌*◌, ◌%◌, ◌<◌, length};
ghost use Rattle.pool.specs.Lent.{lent, KeepsLent};
ghost use Rattle.pool.specs.Refuse.{Shaped};
ghost use Rattle.map_put.specs.Put.{drop_entry, by_rule};
ghost use Rattle.map_put.specs.Laws.{Stays};

use entry::Sub;
use map_rules::Rule;
use pool::PoolMut;

// The subtree that a word referred to is freed.
fn drop_entry(pool: &mut PoolMut<'_>, level: usize, word: u64)
    requires { (level < 3) }
    ensures keeps { KeepsLent pool.old pool.new }
    ensures leaves { lent pool.new
        ≡ drop_entry pool.old.handle level word (lent pool.old) }
{
    let kind = entry::subtable(pool.handle.base, pool.ledger.len(), level, word);
    let Sub::Table(j) = kind else {
        return;
    };
    pool_table::free(pool, j, level + 1);
}

// A rule that goes no lower, carried out on slot i of table k. Whether a table was taken or freed, now or before.
pub fn put_entry(
    pool: &mut PoolMut<'_>,
    k: usize,
    level: usize,
    i: usize,
    rule: Rule,
    changed: bool,
) -> bool
    requires { Shaped pool.old.handle (lent pool.old) × (k < length pool.old.ledger.now) × (i < 512) × Stays level rule }
    ensures keeps { KeepsLent pool.old pool.new }
    ensures leaves { (lent pool.new
        ≡ by_rule (λ j t. t) pool.old.handle k level i rule (lent pool.old))
        × (result ≡ false → (changed ≡ false) × (pool.new.ledger.now ≡ pool.old.ledger.now)) }
{
    match rule {
        Rule::Write(x) => {
            pool.words[512 * k + i] = x;
            changed
        }
        Rule::Drop(x) => {
            let word = pool.words[512 * k + i];
            pool.words[512 * k + i] = x;
            drop_entry(pool, level, word);
            true
        }
        Rule::Keep => changed,
        Rule::Down => changed,
    }
}

// Whether a table was taken or freed: before, for a word that was none, or in the tables below.
pub fn ledger_changed(before: bool, word: u64, below: bool) -> bool
    ensures { result ≡ false → (before ≡ false) × (word % 4 ≡ 3) × (below ≡ false) }
{
    if before {
        return true;
    }
    if word % 4 != 3 {
        return true;
    }
    below
}
