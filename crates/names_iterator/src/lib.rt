// The names iterator (document 01: walker): a struct that holds the reply and the position of the next name. `next` moves it on; it
// is Copy, and the other methods leave it as it is. Each method takes it apart and leaves the work to functions of crate `names`.
#![tactic(auto)]

ghost use Rattle.std.specs.Prelude.{◌≡◌};
ghost use Rattle.layout.specs.Names.{step as step_at};
ghost use Rattle.wire.specs.Runs.{Shows};
ghost use Rattle.names.specs.Positions.{position_of, step_of, name_of, nth_name};
ghost use Rattle.names_iterator.specs.Iterating.{Opened, step_on, Further, Takes, NthStep};

use names::{Position, Step};

// The iterator: the reply, and where the next name begins.
#[derive(Clone, Copy)]
pub struct Iter<'a> {
    pub reply: &'a [u8],
    pub position: Position,
}

// The iterator on any message, which is read once. Only an accepted readdir reply that is a success has names.
pub fn open<'a>(reply: &'a [u8]) -> Iter<'a>
    ensures { Opened reply.entry result }
{
    Iter {
        reply,
        position: names::open(reply),
    }
}

impl<'a> Iter<'a> {
    // The next name, taken: the iterator is behind it afterwards. Past the last name it says so, and stays there.
    pub fn next(&mut self) -> Step
        ensures { Takes self.old result self.new }
    {
        let reply = self.reply;
        let position = self.position;
        let step = names::step_at(reply, position);
        let behind = names::behind(step);
        self.position = behind;
        step
    }

    // Whether there is a next name, where it lies, and the position behind it. Past the last it says that there is none. The iterator
    // itself stays: `skip(1)` gives the one behind the name.
    pub fn peek(self) -> Step
        ensures { step_of result ≡ step_on self.entry }
    {
        names::step_at(self.reply, self.position)
    }

    // The bytes of the next name, as a part of the reply. An empty name and the end look the same; `peek` tells them apart.
    pub fn next_name(self) -> &'a [u8]
        ensures { Shows self.entry.reply (name_of (step_on self.entry)) result }
    {
        names::next_name(self.reply, self.position)
    }

    // The iterator so many names further on. Past the last it stays.
    pub fn skip(self, count: u32) -> Iter<'a>
        ensures { Further count self.entry result }
    {
        Iter {
            reply: self.reply,
            position: names::skip(self.reply, self.position, count),
        }
    }
}

// `peek` for a caller that keeps the position: one step from there. The struct is made and opened here.
pub fn step_from(reply: &[u8], position: Position) -> Step
    ensures { step_of result ≡ step_at reply.now (position_of position) }
{
    Iter { reply, position }.peek()
}

// A step, and where it leaves the iterator.
#[derive(Clone, Copy)]
pub struct Moved {
    pub step: Step,
    pub position: Position,
}

// The step that `next` gives behind `n` names, and where it leaves the iterator: opened, moved on and asked, for callers that hold no struct.
// The reply is read whole at each call.
pub fn nth_step(reply: &[u8], n: u32) -> Moved
    ensures { NthStep n reply.now result }
{
    let mut it = open(reply).skip(n);
    let step = it.next();
    Moved {
        step,
        position: it.position,
    }
}

// The bytes of a name by its number, counted from 0. An empty name and a number behind the last look the same; the reader's count tells
// them apart. The reply is read whole at each call.
pub fn nth_name<'a>(reply: &'a [u8], n: u32) -> &'a [u8]
    ensures { Shows reply.entry (nth_name n reply.now) result }
{
    open(reply).skip(n).next_name()
}
