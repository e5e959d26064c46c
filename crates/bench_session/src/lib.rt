// What the bench keeps from line to line: what a line asks, what a call answered, whether that is as a script expects.
// Leans on text_script for a line's values, on bench_report and bench_view for the words, on ptb_answer for a refusal's number.
// No function needs anything of its caller. What the bench keeps is said by contracts; of what is read and said, safety alone is proved.
#![tactic(auto)]

mod answers;
mod asking;
mod commands;
mod expected;
mod state;

pub use answers::{Accepted, Answer, say_answer};
pub use asking::{Ask, Unclear, asked};
pub use commands::Command;
pub use state::{Bench, PoolShape};
