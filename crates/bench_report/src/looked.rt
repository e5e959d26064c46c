// What a walk answers: the entry at which it ends.
use crate::entry_row::Flags;
use look_up::Looked;
use std::fmt;

// The entry at which a walk ends, after a comma.
#[derive(Clone, Copy)]
pub struct LookedAt(pub Looked);

impl fmt::Display for LookedAt {
    fn fmt<W: fmt::Write>(&self, f: &mut fmt::Formatter<W>) -> fmt::Result {
        match self.0 {
            Looked::Hole(level, flags) => write!(
                f,
                "at level {level}: hole, flags{}",
                Flags(flags)
            ),
            Looked::Block(level, flags, frame) => write!(
                f,
                "at level {level}: block, frame {:#x}, flags{}",
                frame.0,
                Flags(flags)
            ),
            Looked::Page(level, flags, frame) => write!(
                f,
                "at level {level}: page, frame {:#x}, flags{}",
                frame.0,
                Flags(flags)
            ),
        }
    }
}
