// A bench to type at: it reads a script from standard input, a call a line, and prints each answer in words.
// Leans on the library's crates for the calls, on text_script for the lines, on bench_session for what it keeps, on bench_report
// and bench_view for the words.
#![tactic(auto)]

mod calls;
mod command;
mod room;

use bench_session::{Bench, Command, asked};
use room::Room;
use std::io;
use text_script::{LINE_BYTES, LineText, MOST_LINES};

// What one line of the script does, by its number.
fn turn(
    out: &impl Print,
    bench: &mut Bench,
    room: &mut Room,
    number: u64,
    line: LineText<'_>,
) -> io::Result<()> {
    let ask = match asked(line) {
        Ok(Some(ask)) => ask,
        Ok(None) => return Ok(()),
        Err(unclear) => return bench.complain(out, number, unclear),
    };
    if ask.command == Command::Expect {
        return bench.expect(out, number, &ask.values);
    }
    let shape = match bench.pool_for(&ask) {
        Ok(shape) => shape,
        Err(unclear) => return bench.complain(out, number, unclear),
    };
    if let Some(answer) = command::run(out, &ask, &mut room.lend(shape))? {
        bench.keep(ask.command, shape, answer);
    }
    Ok(())
}

// Line by line to the end of the input.
fn main(rt: HostRuntime) -> io::Result<()> {
    let mut input = rt.reader();
    let mut text = [0; LINE_BYTES];
    let mut room = Room::new();
    let mut bench = Bench::default();
    for number in 1..=MOST_LINES {
        let Some(line) = text_script::read_line(&mut input, &mut text)? else {
            break;
        };
        let (LineText::Whole(kept) | LineText::Cut(kept)) = line;
        rt.write_all(kept)?;
        rt.println("")?;
        turn(&rt, &mut bench, &mut room, number, line)?;
    }
    bench.close(&rt)
}
