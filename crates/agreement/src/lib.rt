// Demand 3 of the running functions: both readers, the parts, the names iterator and the front are run on two messages. Where the second
// agrees with the first in its known part, they are promised to answer the same; where the second is a cut of the first, the refusal of
// the first number or run that is no longer whole.
#![tactic(auto)]

ghost use Rattle.std.specs.Prelude.{◌≡◌};
ghost use Rattle.names.specs.Positions.{nth_name};
ghost use Rattle.request_reader.specs.Answers.{answer_of as request_answer};
ghost use Rattle.reply_reader.specs.Answers.{answer_of as reply_answer};
ghost use Rattle.wire.specs.Runs.{shown};
ghost use Rattle.layout.specs.Table.{request as request_side, reply as reply_side};
ghost use Rattle.agreement.specs.Agreeing.{eq_bytes, same_parts, request_parts, reply_parts, Sees, Agrees};

use front::Fronted;
use names_iterator::Moved;
use reply_reader::ReplyAnswer;
use request_reader::RequestAnswer;

// What is answered about a message: by both readers, by an iterator that is opened on it and moved behind `count` names and the next, and
// by the front.
#[derive(Drop)]
pub struct Seen {
    pub request: RequestAnswer,
    pub reply: ReplyAnswer,
    pub moved: Moved,
    pub fronted: Fronted,
}

// One look at the message `m`, with the lent buffer `out` for the front.
pub fn look(m: &[u8], count: u32, out: &mut [u8]) -> Seen
    ensures { Sees m.now count out.old out.new result }
{
    let request = request_reader::read_request(m);
    let reply = reply_reader::read_reply(m);
    let moved = names_iterator::nth_step(m, count);
    let fronted = front::front(m, out);
    Seen {
        request,
        reply,
        moved,
        fronted,
    }
}

// Both looks; and whether each part, and the name behind `count` names, is shown with the same bytes in both messages.
#[derive(Drop)]
pub struct Looks {
    pub first: Seen,
    pub second: Seen,
    pub same_request_parts: bool,
    pub same_reply_parts: bool,
    pub same_name: bool,
}

// Both messages are looked at. Where `n` has the known part of `m`, whatever stands behind it, all answers are the same; where `n` is a cut of it,
// they are those of the cut.
pub fn look_twice(m: &[u8], n: &[u8], count: u32, out: &mut [u8], other: &mut [u8]) -> Looks
    ensures { Agrees m.now n.now count out.old other.old out.new other.new result }
{
    let first = look(m, count, out);
    let second = look(n, count, other);
    let request = first.request;
    let other_request = second.request;
    let reply = first.reply;
    let other_reply = second.reply;
    Looks {
        first,
        second,
        same_request_parts: same_request_parts(m, request, n, other_request),
        same_reply_parts: same_reply_parts(m, reply, n, other_reply),
        same_name: same_name(m, n, count),
    }
}

// The functions of `request_parts` show the same bytes.
fn same_request_parts(m: &[u8], a: RequestAnswer, n: &[u8], b: RequestAnswer) -> bool
    ensures { result ≡ same_parts request_side request_parts m.now (request_answer a) n.now (request_answer b) }
{
    let path = same(request_parts::path(m, a), request_parts::path(n, b));
    let target = same(request_parts::target(m, a), request_parts::target(n, b));
    let linkpath = same(request_parts::linkpath(m, a), request_parts::linkpath(n, b));
    let old_path = same(request_parts::old_path(m, a), request_parts::old_path(n, b));
    let new_path = same(request_parts::new_path(m, a), request_parts::new_path(n, b));
    let data = same(request_parts::data(m, a), request_parts::data(n, b));
    path & (target & (linkpath & (old_path & (new_path & data))))
}

// The functions of `reply_parts` show the same bytes.
fn same_reply_parts(m: &[u8], a: ReplyAnswer, n: &[u8], b: ReplyAnswer) -> bool
    ensures { result ≡ same_parts reply_side reply_parts m.now (reply_answer m.now a) n.now (reply_answer n.now b) }
{
    let resolved = same(reply_parts::resolved(m, a), reply_parts::resolved(n, b));
    let data = same(reply_parts::data(m, a), reply_parts::data(n, b));
    let creds = same(reply_parts::creds(m, a), reply_parts::creds(n, b));
    resolved & (data & creds)
}

// The iterator shows the same bytes of the name behind `count` names.
fn same_name(m: &[u8], n: &[u8], count: u32) -> bool
    ensures { result ≡ eq_bytes (shown m.now (nth_name count m.now)) (shown n.now (nth_name count n.now)) }
{
    same(
        names_iterator::nth_name(m, count),
        names_iterator::nth_name(n, count),
    )
}

// Both are the same bytes.
fn same(a: &[u8], b: &[u8]) -> bool
    ensures { result ≡ eq_bytes a.now b.now }
{
    if a.len() != b.len() {
        return false;
    }
    let mut i = 0;
    while i < a.len() {
        if a[i] != b[i] {
            return false;
        }
        i += 1;
    }
    true
}
