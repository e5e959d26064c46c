// The ledger read: the lowest free table, and how many are in use.
#![tactic(auto)]

ghost use Rattle.std.specs.Prelude.{◌≡◌, ◌^◌, ◌<◌, length};
ghost use Rattle.pool.specs.Number.{lowest_free, used};

// The lowest free table.
#[tactic(auto, using(crate::proofs::Scan::first_free), unfolding(pool::specs::Number::lowest_free))]
pub fn lowest_free(ledger: &[u32]) -> Option<usize>
    ensures { result ≡ lowest_free ledger.now }
{
    let n = ledger.len();
    let mut i = 0;
    // A loop by hand: the scan breaks with its number, a form that docs/DECISIONS.md names.
    loop {
        if n <= i {
            break None;
        }
        if ledger[i] == 0 {
            break Some(i);
        }
        i += 1;
    }
}

// The tables in use. A count as wide as the numbers lets a vector of numbers add to a vector of counts.
#[tactic(auto, using(crate::proofs::Scan::in_use))]
pub fn count_used(ledger: &[u32]) -> usize
    requires { length ledger.now < 2 ^ 32 }
    ensures { result ≡ used ledger.now }
{
    let mut count: u32 = 0;
    for number in ledger {
        if *number != 0 {
            count += 1;
        }
    }
    count as usize
}
