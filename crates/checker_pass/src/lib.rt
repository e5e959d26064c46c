// The pass of the pool check: every table's number, then its words in four runs.
#![tactic(auto)]

ghost use Rattle.std.specs.Prelude.{◌≡◌};
ghost use Rattle.pool.specs.Lent.{read_state};
ghost use Rattle.pool.specs.Refuse.{Shaped};
ghost use Rattle.checker_pass.specs.Pass.{tables_run};

use pool::Pool;

// The links of all tables, if every number is right and every run passes. A table is read in four runs of 128 words; a run that fails ends
// both loops.
pub fn scan_tables(pool: &Pool<'_>) -> Option<usize>
    requires { Shaped pool.now.handle (read_state pool.now) }
    ensures { result ≡ tables_run pool.now.handle (read_state pool.now) }
{
    let n = pool.ledger.len();
    let set = pool_handle::flag_set(pool.handle);
    let mut links = 0;
    let mut k = 0;
    // A labelled loop left with a value, and no `for`: docs/DECISIONS.md names this form.
    'tables: loop {
        if n <= k {
            break 'tables Some(links);
        }
        if !checker_ledger::table_holds(pool, k) {
            break 'tables None;
        }
        let number = pool.ledger[k];
        for r in 0..4 {
            let a = 512 * k + 128 * r;
            let e = a + 128;
            let run = checker_words::scan_run(&pool.words[a..e], set, number);
            let Some(count) = run else {
                break 'tables None;
            };
            links += count;
        }
        k += 1;
    }
}
