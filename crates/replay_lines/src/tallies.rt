// How many lines there were of each kind, and how many that differ.
ghost use Rattle.std.specs.Prelude.{◌≡◌, ◌≢◌, ◌+◌, ◌<◌, ◌^◌, IsSome, IfSome, unwrap_or};
ghost use Rattle.replay_lines.specs.declared.reply.TheConstants.{NO_CALL};
ghost use Rattle.replay_lines.specs.declared.tallies.TheConstants.{MOST_SAID};

use crate::kind::{KINDS, Kind};
use crate::reply::{NO_CALL, Reply};
use std::fmt;

// How many of the lines that differ are said.
const MOST_SAID: u64 = 20;

// How many lines there were of each kind, in the order of the kinds, and how many that differ.
#[derive(Clone, Copy, Debug, Default, PartialEq, Eq)]
pub struct Tallies {
    pub lines: [u64; KINDS],
    pub different: u64,
}

// What came of a line that differs, and what the line says.
#[derive(Clone, Copy, Debug, PartialEq, Eq)]
pub struct Difference {
    pub came: Reply,
    pub said: Reply,
}

impl Tallies {
    // Counts a line of a kind; a line of no kind has no tally.
    fn count(&mut self, kind: Option<Kind>)
        ensures { self.new.different ≡ self.old.different }
    {
        if let Some(kind) = kind {
            let tally = &mut self.lines[kind as usize];
            *tally = tally.wrapping_add(1);
        }
    }

    // Counts a line, and holds what came, if a call was made, to what it says; one of no kind differs. How it differs, if not too
    // many did before.
    pub fn compare(
        &mut self,
        kind: Option<Kind>,
        came: Option<Reply>,
        said: Reply,
    ) -> Option<Difference>
        ensures agrees { IsSome kind → unwrap_or came NO_CALL ≡ said → result ≡ None }
        ensures held { IsSome kind → unwrap_or came NO_CALL ≡ said → self.new.different ≡ self.old.different }
        ensures no_kind { kind ≡ None → self.old.different + 1 < 2 ^ 64 → self.new.different ≡ self.old.different + 1 }
        ensures differs { unwrap_or came NO_CALL ≢ said → self.old.different + 1 < 2 ^ 64 → self.new.different ≡ self.old.different + 1 }
        ensures first { kind ≡ None → self.old.different < MOST_SAID → IsSome result }
        ensures told { IfSome result (λ difference. (difference.came ≡ unwrap_or came NO_CALL) × (difference.said ≡ said)) }
    {
        self.count(kind);
        let came = came.unwrap_or(NO_CALL);
        if kind.is_some() && came == said {
            return None;
        }
        self.different = self.different.wrapping_add(1);
        (self.different <= MOST_SAID).then_some(Difference { came, said })
    }
}

impl fmt::Display for Tallies {
    // All tallies in a line.
    fn fmt<W: fmt::Write>(&self, f: &mut fmt::Formatter<W>) -> fmt::Result {
        for (kind, lines) in Kind::ALL.iter().zip(&self.lines) {
            write!(f, "{kind} {lines}, ")?;
        }
        write!(f, "lines that differ {}", self.different)
    }
}

impl fmt::Display for Difference {
    // Both replies.
    fn fmt<W: fmt::Write>(&self, f: &mut fmt::Formatter<W>) -> fmt::Result {
        write!(f, "came {}, the list says {}", self.came, self.said)
    }
}
