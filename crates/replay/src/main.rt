// Replays a list of calls from standard input, with the answers that the published crate and a model of document 01 gave, and
// compares. rust/replay/make.sh makes the list; its head says what a line is. It fails only where a read or a write fails.
#![tactic(auto)]

mod calls;
mod memory;

use crate::memory::Memory;
use replay_lines::{Difference, Line, Tallies};
use std::io;
use std::io::Read;
use text_script::MOST_LINES;

// What a line does, compared with what it says.
fn turn(memory: &mut Memory, tallies: &mut Tallies, line: &Line) -> Option<Difference> {
    match line {
        Line::Comment => None,
        Line::Entry(entry) => tallies.compare(Some(entry.kind), memory.replay(entry), entry.said),
        Line::Other(other) => tallies.compare(None, None, other.said),
    }
}

// Line by line to the end of the input, on a memory of zeroes.
fn lines(input: &mut impl Read, out: &impl Print) -> io::Result<Tallies> {
    let mut memory = Memory::new();
    let mut tallies = Tallies::default();
    for number in 1..=MOST_LINES {
        let Some(line) = replay_lines::next(input)? else {
            break;
        };
        if let Some(difference) = turn(&mut memory, &mut tallies, &line) {
            println!(out; "line {number}: {difference}")?;
        }
    }
    Ok(tallies)
}

// All lines, then the tallies.
fn main(rt: HostRuntime) -> io::Result<()> {
    let tallies = lines(&mut rt.stdin(), &rt)?;
    println!(rt; "replayed: {tallies}")
}
