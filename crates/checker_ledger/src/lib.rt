// Whether a table's ledger number is right: a table in use hangs from the slot that its number names.
#![tactic(auto)]

ghost use Rattle.std.specs.Prelude.{◌≡◌, ◌<◌, length};
ghost use Rattle.pool.specs.Lent.{read_state};
ghost use Rattle.pool.specs.Refuse.{Shaped};
ghost use Rattle.pool.specs.Sound.{hangsb, tableb};

use pool::Pool;

// Whether table k's number names a slot of a used table one level higher, and that slot refers to it.
pub fn hangs(pool: &Pool<'_>, k: usize) -> bool
    requires { Shaped pool.now.handle (read_state pool.now) × (k < length pool.now.ledger.now) }
    ensures { result ≡ hangsb pool.now.handle.base.0 (read_state pool.now) k }
{
    let number = pool.ledger[k] as usize;
    if number % 8 < 4 {
        return false;
    }
    if number < 8 {
        return false;
    }
    let at = number / 8 - 1;
    let parent = at / 512;
    if pool.ledger.len() <= parent {
        return false;
    }
    let above = pool.ledger[parent] as usize;
    if above == 0 {
        return false;
    }
    if number % 4 != above % 4 + 1 {
        return false;
    }
    pool.words[at] == entry::link(pool.handle.base, k)
}

// Whether the ledger's number of table k is right: the root's at 0; any other is 0 or hangs.
pub fn table_holds(pool: &Pool<'_>, k: usize) -> bool
    requires { Shaped pool.now.handle (read_state pool.now) × (k < length pool.now.ledger.now) }
    ensures { result ≡ tableb pool.now.handle (read_state pool.now) k }
{
    if k == 0 {
        return pool.ledger[0] as usize == 4 + pool.handle.level;
    }
    if pool.ledger[k] == 0 {
        return true;
    }
    hangs(pool, k)
}
