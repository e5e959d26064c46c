// The pool check: it accepts exactly the sound pools, whoever wrote the words, in one pass over them.
#![tactic(auto)]

ghost use Rattle.std.specs.Prelude.{◌≡◌};
ghost use Rattle.pool.specs.State.{st};
ghost use Rattle.pool.specs.Lent.{read_state};
ghost use Rattle.pool.specs.Refuse.{Shaped};
ghost use Rattle.pool.specs.Sound.{soundb};
ghost use Rattle.checker.specs.Call.{sound_count, check_call};

use pool::{Handle, Pool, Refusal};

// The tables in use, if the pool is sound: where every used table hangs, as many links as used tables but the root leave no other link.
pub fn count_sound(pool: &Pool<'_>) -> Option<usize>
    requires { Shaped pool.now.handle (read_state pool.now) }
    ensures { result ≡ sound_count pool.now.handle (read_state pool.now) }
{
    let links = checker_pass::scan_tables(pool)?;
    let used = pool_ledger::count_used(pool.ledger);
    if links + 1 != used {
        return None;
    }
    Some(used)
}

// Whether the pool is sound.
#[tactic(auto, unfolding(crate::specs::Call::sound_count))]
pub fn is_sound(pool: &Pool<'_>) -> bool
    requires { Shaped pool.now.handle (read_state pool.now) }
    ensures { result ≡ soundb pool.now.handle (read_state pool.now) }
{
    count_sound(pool).is_some()
}

// The pool check.
#[tactic(auto, unfolding(crate::specs::Call::check_call))]
pub fn check(words: &[u64], ledger: &[u32], handle: Handle) -> Result<(), Refusal>
    ensures { result ≡ check_call handle (st words.now ledger.now) }
{
    if !pool_handle::is_shaped(words, ledger, handle) {
        return Err(Refusal::Shape);
    }
    let pool = Pool {
        words,
        ledger,
        handle,
    };
    if is_sound(&pool) {
        Ok(())
    } else {
        Err(Refusal::Unsound)
    }
}
