// An answer, as eight words.
ghost use Rattle.std.specs.Prelude.{◌≡◌, ◌+◌, ◌≤◌, length};
ghost use Rattle.laws.specs.Parts.{store_at};
ghost use Rattle.packed.specs.Answers.{done_words, answer_words};

use crate::types::WORDS;
use peer::Answer;

fn done_words(slot: usize, id: u32, length: usize, cq_data: Option<u64>) -> [u64; WORDS]
    ensures { result ≡ done_words slot id length cq_data }
{
    let present = words::option_bit(cq_data);
    let value = words::option_value(cq_data);
    [
        5,
        slot as u64,
        id as u64,
        length as u64,
        present,
        value,
        0,
        0,
    ]
}

#[tactic(auto, unfolding(crate::specs::Answers::answer_words))]
// The kinds are the numbers of `quagfeather_run`'s words. It is no `From`, since `Answer` is another crate's.
fn answer_words(answer: Answer) -> [u64; WORDS]
    ensures { result ≡ answer_words answer }
{
    match answer {
        Answer::Refused(refusal) => [0, refusal.number() as u64, 0, 0, 0, 0, 0, 0],
        Answer::Posted(slot) => [1, slot as u64, 0, 0, 0, 0, 0, 0],
        Answer::Cancelled(slot) => [2, slot as u64, 0, 0, 0, 0, 0, 0],
        Answer::Stored => [3, 0, 0, 0, 0, 0, 0, 0],
        Answer::Granted(n) => [4, n as u64, 0, 0, 0, 0, 0, 0],
        Answer::Done {
            slot,
            id,
            length,
            cq_data,
        } => done_words(slot, id, length, cq_data),
        Answer::Truncated { slot, id, length } => {
            [6, slot as u64, id as u64, length as u64, 0, 0, 0, 0]
        }
        Answer::Missing { received, first } => [7, received as u64, first as u64, 0, 0, 0, 0, 0],
    }
}

// Puts an answer's words at a place, and answers the place behind them.
pub(crate) fn put_answer(answers: &mut [u64], at: usize, answer: Answer) -> usize
    requires { at + length (answer_words answer) ≤ length answers.old }
    ensures { (result ≡ at + length (answer_words answer)) × (answers.new ≡ store_at answers.old at (answer_words answer)) }
{
    let words = answer_words(answer);
    words::put_words(answers, at, &words);
    at + WORDS
}
