// What a caller outside sees of an answer: its number is returned, its values go over the front of `answer`.
#![tactic(auto)]

ghost use Rattle.std.specs.Prelude.{◌≡◌, List, ℕ};
ghost use Rattle.ptb_answer.specs.Answer.{slip, over_front, told_by};

mod each;

use pool::Refusal;

// What has values to tell: what a call answers where it is accepted, or a refusal.
pub trait Values: Copy {
    // The values, in their order.
    ghost values: { Self → List ℕ };

    // Writes them over the front of `answer`; the rest of it stays.
    fn put(self, answer: &mut [u64; 4])
        ensures { answer.new ≡ over_front (values self) answer.old };
}

// A call's answer: 0 and its values, or the refusal's number and what it carries.
#[tactic(auto, unfolding(crate::specs::Answer::told_by, crate::specs::Answer::told_refusal, crate::specs::Answer::accepted))]
pub fn tell<V: Values>(told: Result<V, Refusal>, answer: &mut [u64; 4]) -> u64
    ensures { slip result answer.new ≡ told_by V.values told answer.old }
{
    match told {
        Ok(values) => {
            values.put(answer);
            0
        }
        Err(refusal) => {
            refusal.put(answer);
            refusal.number()
        }
    }
}
