// The values of each answer.
ghost use Rattle.std.specs.Prelude.{◌≡◌, ◌≤◌, [], ◌∷◌, length};
ghost use Rattle.pool.specs.Refuse.{carried};
ghost use Rattle.look_up.specs.Call.{found_values};
ghost use Rattle.ptb_answer.specs.Answer.{over_front, modified_values};

use crate::Values;
use look_up::Looked;
use modify::Modified;
use pool::Refusal;

// Values over the front of `answer`.
#[tactic(auto, using(crate::proofs::Front::front))]
fn put_front(answer: &mut [u64; 4], values: &[u64])
    requires { length values.now ≤ 4 }
    ensures { answer.new ≡ over_front values.now answer.old }
{
    answer[..values.len()].copy_from_slice(values);
}

// A call that has nothing more to say than that it was done.
impl Values for () {
    ghost values = { λ _. [] };

    #[tactic(auto, unfolding(crate::specs::Answer::over_front))]
    fn put(self, answer: &mut [u64; 4]) {}
}

// A call that counts: the tables in use, or the lines of a list.
impl Values for usize {
    ghost values = { λ count. count ∷ [] };

    fn put(self, answer: &mut [u64; 4]) {
        put_front(answer, &[self as u64]);
    }
}

// Look up: the frame of a hole is told as 0.
impl Values for Looked {
    ghost values = { found_values };

    fn put(self, answer: &mut [u64; 4]) {
        match self {
            Looked::Hole(level, flags) => put_front(answer, &[0, level as u64, flags, 0]),
            Looked::Block(level, flags, frame) => put_front(
                answer,
                &[1, level as u64, flags, frame.0],
            ),
            Looked::Page(level, flags, frame) => put_front(
                answer,
                &[2, level as u64, flags, frame.0],
            ),
        }
    }
}

// Modify: the tables in use and, live, the count of numbers.
impl Values for Modified {
    ghost values = { modified_values };

    fn put(self, answer: &mut [u64; 4]) {
        match self {
            Modified::Tables(tables) => put_front(answer, &[tables as u64]),
            Modified::Live(tables, numbers) => put_front(answer, &[tables as u64, numbers as u64]),
        }
    }
}

// A refusal: what it carries.
impl Values for Refusal {
    ghost values = { carried };

    #[tactic(auto, unfolding(crate::specs::Answer::over_front))]
    fn put(self, answer: &mut [u64; 4]) {
        match self {
            Refusal::Shape | Refusal::Unsound => {}
            Refusal::End(end) => put_front(answer, &[end]),
            Refusal::InvalidFlags(flags) => put_front(answer, &[flags]),
            Refusal::FlagSet(flags) => put_front(answer, &[flags]),
            Refusal::RegionBackwards(region) => put_front(answer, &[region.start.0, region.end.0]),
            Refusal::AddressRange(address) => put_front(answer, &[address.0]),
            Refusal::Frame(frame) => put_front(answer, &[frame.0]),
            Refusal::WantOfRoom(needed, free) => put_front(answer, &[needed, free]),
            Refusal::HouseRule(word) => put_front(answer, &[word]),
            Refusal::Short(needed) => put_front(answer, &[needed]),
        }
    }
}
