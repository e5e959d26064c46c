// A table taken for a slot: its words, lent as a part of the pool from its middle, are filled.
#![tactic(auto)]

ghost use Rattle.std.specs.Prelude.{◌≡◌, ◌+◌, ◌*◌, ◌≤◌, ◌<◌, ◌^◌, length};
ghost use Rattle.pool.specs.Lent.{lent, KeepsLent};
ghost use Rattle.pool.specs.Refuse.{Shaped};
ghost use Rattle.pool_table.specs.Table.{rising, taken, take_table};

use pool::PoolMut;

// A table's words, from the first on, each one step above the one before.
fn fill(table: &mut [u64], first: u64, step: u64)
    requires { (length table.old ≡ 512) × (first + 511 * step < 2 ^ 64) }
    ensures { table.new ≡ rising 512 first step }
{
    let mut word = first;
    // A running sum, and not first + step * i: a product for each word takes three times as long.
    for i in 0..512 {
        table[i] = word;
        word = word.wrapping_add(step);
    }
}

// The lowest free table for slot i of table p: filled, entered, and only then linked.
pub fn take_table(
    pool: &mut PoolMut<'_>,
    p: usize,
    level: usize,
    i: usize,
    first: u64,
    step: u64,
) -> Option<usize>
    requires { Shaped pool.old.handle (lent pool.old) × (level ≤ 3) × (p < length pool.old.ledger.now) × (i < 512)
        × (first + 511 * step < 2 ^ 64) }
    ensures keeps { KeepsLent pool.old pool.new }
    ensures leaves { taken result (lent pool.new) ≡ take_table pool.old.handle p level i (rising 512 first step) (lent pool.old) }
{
    let j = pool_ledger::lowest_free(pool.read().ledger)?;
    let a = 512 * j;
    let e = a + 512;
    fill(&mut pool.words[a..e], first, step);
    pool.ledger[j] = (4 + level + 8 * (512 * p + i + 1)) as u32;
    pool.words[512 * p + i] = entry::link(pool.handle.base, j);
    Some(j)
}
