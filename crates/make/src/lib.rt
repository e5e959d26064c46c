// Making a pool: refusal 1, then all words and numbers 0 and the root entered.
#![tactic(auto)]

ghost use Rattle.std.specs.Prelude.{◌≡◌};
ghost use Rattle.pool.specs.State.{st};
ghost use Rattle.pool.specs.Refuse.{out};
ghost use Rattle.make.specs.Call.{make_call};

use pool::{Handle, Refusal};

// Zeroes all words and the ledger, then enters the root as table 0.
pub fn make(words: &mut [u64], ledger: &mut [u32], handle: Handle) -> Result<(), Refusal>
    ensures { out result (st words.new ledger.new)
        ≡ make_call handle (st words.old ledger.old) }
{
    if !pool_handle::is_shaped(words, ledger, handle) {
        return Err(Refusal::Shape);
    }
    pool_zero::zero(words);
    pool_zero::zero(ledger);
    ledger[0] = (4 + handle.level) as u32;
    Ok(())
}
