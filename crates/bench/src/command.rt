// A command on the pool that it is lent: a call, or what is shown or written by hand.
use crate::room::Pool;
use bench_session::{Answer, Ask, Command};
use std::io;

// Does what a line asks of the pool, and says it. What a call answered; None where the command is no call.
pub fn run(out: &impl Print, ask: &Ask, pool: &mut Pool<'_>) -> io::Result<Option<Answer>> {
    let arguments = ask.arguments();
    let [first, second, third, ..] = arguments;
    let said = match ask.command {
        Command::Check => return pool.check(out).map(Some),
        Command::Look => return pool.look(out, arguments).map(Some),
        Command::List => return pool.list(out, arguments).map(Some),
        Command::Image => return pool.image(out, arguments).map(Some),
        Command::Make => return pool.make(out).map(Some),
        Command::Map | Command::Unmap => return pool.map(out, arguments).map(Some),
        Command::Modify => return pool.modify(out, arguments, false).map(Some),
        Command::Live => return pool.modify(out, arguments, true).map(Some),
        Command::Compact => return pool.compact(out).map(Some),
        // It is about the call before, not about the pool.
        Command::Expect => Ok(()),
        Command::Words if ask.values[0].is_none() => bench_view::say_words_not_zero(
            out, pool.words,
        ),
        Command::Words => bench_view::say_words(out, pool.words, first, second, third),
        Command::Ledger => bench_view::say_ledger(out, pool.ledger),
        Command::Put => bench_view::say(out, bench_view::put(pool.words, first, second, third)),
        Command::Enter => bench_view::say(out, bench_view::enter(pool.ledger, first, second)),
    };
    said.map(|()| None)
}
