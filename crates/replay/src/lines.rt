// The lines of a replay, put into its text. Each function answers the place behind its line.
ghost use Rattle.std.specs.Prelude.{◌≡◌, ◌+◌, ◌≤◌, length};
ghost use Rattle.laws.specs.Parts.{store_at};
ghost use Rattle.replay.specs.Lines.{answer_line, ending_line};

use crate::types::Ending;
use peer::Answer;

// The line of a call's answer.
// Each is made by hand and not by `Display`: the clause gives every byte of the line, and the text is lent.
#[tactic(auto, unfolding(crate::specs::Lines::answer_line))]
pub(crate) fn put_answer(text: &mut [u8], at: usize, answer: Answer) -> usize
    requires { at + length (answer_line answer) ≤ length text.old }
    ensures { (result ≡ at + length (answer_line answer)) × (text.new ≡ store_at text.old at (answer_line answer)) }
{
    match answer {
        Answer::Refused(refusal) => text::put_line(
            text,
            at,
            b"refused",
            &[refusal.number() as u64],
        ),
        Answer::Posted(slot) => text::put_line(text, at, b"posted", &[slot as u64]),
        Answer::Cancelled(slot) => text::put_line(text, at, b"cancelled", &[slot as u64]),
        Answer::Stored => text::put_line(text, at, b"stored", &[]),
        Answer::Granted(n) => text::put_line(text, at, b"granted", &[n as u64]),
        Answer::Done {
            slot,
            id,
            length,
            cq_data,
        } => text::put_line(text, at, b"done", &[slot as u64, id as u64, length as u64]),
        Answer::Truncated { slot, id, length } => text::put_line(
            text,
            at,
            b"truncated",
            &[slot as u64, id as u64, length as u64],
        ),
        Answer::Missing { received, first } => {
            text::put_line(text, at, b"missing", &[received as u64, first as u64])
        }
    }
}

// The last line, where one is written.
#[tactic(auto, using(laws::proofs::Storing::store_nothing), unfolding(crate::specs::Lines::ending_line))]
pub(crate) fn put_ending(text: &mut [u8], at: usize, taken: usize, ending: Ending) -> usize
    requires { at + length (ending_line taken ending) ≤ length text.old }
    ensures { (result ≡ at + length (ending_line taken ending)) × (text.new ≡ store_at text.old at (ending_line taken ending)) }
{
    match ending {
        Ending::End => text::put_line(text, at, b"end", &[taken as u64]),
        Ending::Stopped => text::put_line(text, at, b"stopped", &[taken as u64]),
        Ending::Bad(place) => text::put_line(text, at, b"bad trace at", &[place as u64]),
        Ending::NotSetUp(refusal) => text::put_line(text, at, b"setup", &[refusal.number() as u64]),
        Ending::NoRoom => at,
    }
}
