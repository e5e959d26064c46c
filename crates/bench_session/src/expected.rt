// Whether what a call answered is what a script expects of it.
use crate::answers::Answer;
use pool::Refusal;
use text_access::face::ANSWER_VALUES;
use text_script::LineValues;

// What the word `accepted` stands for; `refused` stands for another number. A script may write the number itself.
const ACCEPTED: u64 = 0;

// Whether the values that are expected are those that came; a fifth is held to the fourth once more.
fn are_same(expected: &[Option<u64>], came: &[u64; ANSWER_VALUES]) -> bool {
    let came = came.iter().chain(came.last());
    expected
        .iter()
        .flatten()
        .zip(came)
        .all(|(value, other)| value == other)
}

// Whether a refusal is the one that is expected: any one, or one by its number and the values that it carries.
fn is_expected(expected: &[Option<u64>], refusal: Refusal) -> bool {
    let mut carried = [0; ANSWER_VALUES];
    let number = ptb_answer::tell(Err::<(), _>(refusal), &mut carried);
    match expected {
        [Some(first), rest @ ..] => *first == number && are_same(rest, &carried),
        _ => true,
    }
}

// Whether an answer is what a line expects: `accepted` and its values, or `refused`, its number and its values.
pub(crate) fn agrees(answer: Answer, values: &LineValues) -> bool {
    let verdict = values[0] == Some(ACCEPTED);
    let expected = &values[1..];
    match answer {
        Ok(accepted) => verdict && are_same(expected, &accepted.values()),
        Err(refusal) => !verdict && is_expected(expected, refusal),
    }
}
