// The names of a readdir reply, read at positions. A position is a value, and each step gives the next. A name is a part of the message;
// its text was checked when the message was read, and no step looks at it again. The iterator of document 01 (walker), a struct over
// these functions, is crate `names_iterator`.
#![tactic(auto)]

ghost use Rattle.std.specs.Prelude.{◌≡◌, List, ◌∷◌, ℕ, ℤ, length};
ghost use Rattle.layout.specs.Values.{signed};
ghost use Rattle.layout.specs.Names.{names_among, names_of, opened, step as step_at};
ghost use Rattle.wire.specs.Runs.{Shows};
ghost use Rattle.reply_reader.specs.Answers.{answer_of, values_of};
ghost use Rattle.names.specs.Positions.{opened_by, position_of, step_of, name_of, behind as behind_step, skipped};

use reply_reader::{Reply, ReplyAnswer};
use wire::{Cursor, FIRST_NAME, Refusal, Run};

// Where the next name begins, and how many are left.
#[derive(Clone, Copy)]
pub struct Position {
    pub at: usize,
    pub left: u32,
}

// What a step gives.
#[derive(Clone, Copy)]
pub enum Step {
    // A name, and the position behind it.
    Name { run: Run, next: Position },
    // No name; the position stays.
    End { position: Position },
}

// The start on any message, which is read once. Only an accepted readdir reply that is a success has names.
pub fn open(m: &[u8]) -> Position
    ensures { position_of result ≡ opened m.now }
{
    let answer = reply_reader::read_reply(m);
    open_answer(answer)
}

// The start on the message whose answer this is. The message is not read again. With the reader's answer this is `open`.
pub fn open_answer(answer: ReplyAnswer) -> Position
    ensures { (m : List ℕ) → position_of result ≡ opened_by (answer_of m answer) }
{
    Position {
        at: FIRST_NAME,
        left: count_of(answer),
    }
}

// How many names an answer has.
fn count_of(answer: ReplyAnswer) -> u32
    ensures { (m : List ℕ) → result ≡ length (names_of (answer_of m answer)) }
{
    match answer {
        ReplyAnswer::Success { reply, .. } => count_of_reply(reply),
        ReplyAnswer::Failure { .. } => 0,
        ReplyAnswer::Credentials { .. } => 0,
        ReplyAnswer::UnknownResponse { .. } => 0,
        ReplyAnswer::Refused { .. } => 0,
    }
}

// How many names a success has: none but those of a readdir reply.
fn count_of_reply(reply: Reply) -> u32
    ensures { (m : List ℕ) (z : ℤ) → result ≡ length (names_among (signed z ∷ values_of m reply)) }
{
    if let Reply::Readdir { count } = reply {
        return count;
    }
    0
}

// The next name. Past the last there is none, and the position stays. Every position is taken: at one that was made up the name is
// what stands there, where it lies inside the message.
pub fn step_at(m: &[u8], position: Position) -> Step
    ensures { step_of result ≡ step_at m.now (position_of position) }
{
    let at = position.at;
    let left = position.left;
    if left == 0 {
        return Step::End { position };
    }
    let name = field_reader::bytes_at(
        m,
        Cursor {
            code: Refusal::NONE,
            at,
        },
    );
    let run = name.value;
    let end = name.next;
    let code = end.code;
    if code == Refusal::NONE {
        return Step::Name {
            run,
            next: Position {
                at: end.at,
                left: left - 1,
            },
        };
    }
    Step::End { position }
}

// The position behind a step; at the end it stays.
pub fn behind(step: Step) -> Position
    ensures { position_of result ≡ behind_step (step_of step) }
{
    match step {
        Step::Name { next, .. } => next,
        Step::End { position: end } => end,
    }
}

// The bytes of the name that a step gave, as a part of the message; none where it gave no name.
pub fn name<'a>(m: &'a [u8], step: Step) -> &'a [u8]
    ensures { Shows m.entry (name_of (step_of step)) result }
{
    match step {
        Step::Name { run, .. } => wire::bytes_of(m, run),
        Step::End { .. } => &m[0..0],
    }
}

// The bytes of the next name, as a part of the message; none where there is no name.
pub fn next_name<'a>(m: &'a [u8], position: Position) -> &'a [u8]
    ensures { Shows m.entry (name_of (step_at m.now (position_of position))) result }
{
    let step = step_at(m, position);
    name(m, step)
}

// The position so many names further on. Past the last name it stays, and no more steps are made.
pub fn skip(m: &[u8], position: Position, count: u32) -> Position
    ensures { position_of result ≡ skipped count m.now (position_of position) }
{
    let mut here = position;
    let mut left = count;
    while 0 < left {
        let step = step_at(m, here);
        match step {
            Step::Name { next, .. } => here = next,
            Step::End { position: end } => return end,
        }
        left -= 1;
    }
    here
}
