// What the bench keeps from line to line: its pool, what the last call answered, and its tallies.
ghost use Rattle.std.specs.Prelude.{◌≡◌, ◌≢◌, ◌≤◌, IsOk, IsErr, IfOk};
ghost use Rattle.bench_session.specs.declared.asking.Unclear.TheVariants.{NoPool};
ghost use Rattle.bench_session.specs.declared.commands.Command.TheVariants.{Make};
ghost use Rattle.bench_view.specs.declared.TheConstants.{MOST_TABLES};

use crate::answers::{Answer, say_answer};
use crate::asking::{Ask, Unclear};
use crate::commands::Command;
use crate::expected::agrees;
use bench_view::MOST_TABLES;
use pool::Handle;
use std::io;
use text_forms::AnswerValues;
use text_script::LineValues;

// The shape of a pool: how many tables it has, no more than there is room for, and its handle.
#[derive(Clone, Copy)]
pub struct PoolShape {
    pub tables: usize,
    pub handle: Handle,
    ghost has_room: { tables ≤ MOST_TABLES },
}

// What the bench keeps.
#[derive(Default, Drop)]
pub struct Bench {
    // The shape of the pool that the last accepted make made.
    made: Option<PoolShape>,
    // What the last call answered.
    last: Option<Answer>,
    // How many answers were as expected.
    held: u64,
    // How many answers were not as expected.
    failed: u64,
    // How many lines were not understood.
    unclear: u64,
}

impl Bench {
    // The shape of the pool that a command works on: make's is the one that it asks for.
    pub fn pool_for(&self, ask: &Ask) -> Result<PoolShape, Unclear<'static>>
        ensures other { ask.now.command ≢ Make → IfOk result (λ shape. self.now.made ≡ Some shape) }
        ensures none { ask.now.command ≢ Make → self.now.made ≡ None → result ≡ Err NoPool }
    {
        if ask.command != Command::Make {
            return self.made.ok_or(Unclear::NoPool);
        }
        let [tables, base, level, range, ..] = ask.arguments();
        if MOST_TABLES < tables {
            return Err(Unclear::NoRoom);
        }
        Ok(PoolShape {
            tables: tables as usize,
            handle: pool_handle::handle_of(base, level, range),
        })
    }

    // Keeps what a call answered, and the shape of the pool if make made it.
    pub fn keep(&mut self, command: Command, shape: PoolShape, answer: Answer)
        ensures answered { self.new.last ≡ Some answer }
        ensures made { command ≡ Make → IsOk answer → self.new.made ≡ Some shape }
        ensures refused { IsErr answer → self.new.made ≡ self.old.made }
        ensures other { command ≢ Make → self.new.made ≡ self.old.made }
    {
        self.last = Some(answer);
        if command == Command::Make && answer.is_ok() {
            self.made = Some(shape);
        }
    }

    // Says whether the last answer is as a line expects, and what it was if it is not.
    pub fn expect(&mut self, out: &impl Print, number: u64, values: &LineValues) -> io::Result<()>
        ensures last { self.new.last ≡ self.old.last }
        ensures made { self.new.made ≡ self.old.made }
    {
        if self.last.is_some_and(|answer| agrees(answer, values)) {
            self.held = self.held.wrapping_add(1);
            return out.println("  as expected");
        }
        self.failed = self.failed.wrapping_add(1);
        println!(out; "  line {number}: NOT AS EXPECTED, the call before answered")?;
        match self.last {
            None => out.println("  nothing: no call came before"),
            Some(Ok(accepted)) => println!(out;
                "  accepted, with{}",
                AnswerValues(accepted.values())
            ),
            Some(refused) => say_answer(out, refused),
        }
    }

    // Says why a line is not understood.
    pub fn complain(
        &mut self,
        out: &impl Print,
        number: u64,
        unclear: Unclear<'_>,
    ) -> io::Result<()>
        ensures last { self.new.last ≡ self.old.last }
        ensures made { self.new.made ≡ self.old.made }
    {
        self.unclear = self.unclear.wrapping_add(1);
        unclear.say(out, number)
    }

    // Says the tallies.
    pub fn close(&self, out: &impl Print) -> io::Result<()> {
        out.println("")?;
        println!(out;
            "answers as expected: {}, not as expected: {}, lines not understood: {}",
            self.held, self.failed, self.unclear
        )
    }
}
