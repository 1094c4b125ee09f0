// Runs what a host cannot call, on the cases of the ops `s` and `o` of second/FORMAT.md: the parts that an answer shows by their own
// functions, the names iterator as a struct, names collected, a request and a reply written again by one call; and the table of
// outstanding requests in lent records. A line for each case.
#![tactic(auto)]

mod cases;
mod checksum;
mod print;
mod table;

ghost use Rattle.std.specs.Prelude.{◌≡◌};
ghost use Rattle.shown.specs.Ends.{is_past};

use message_writer::Written;
use names::Step;
use readdir_writer::Collected;
use reply_reader::{Reply, ReplyAnswer};
use request_reader::RequestAnswer;

// The ops of a case.
const SHOWN: u8 = b's';

const CALLED: u8 = b'o';

// A body of op `s` is the side, the room of the lent buffer, and the message.
const SIDE_PLACE: usize = 0;

const ROOM_PLACE: usize = 1;

const MESSAGE_PLACE: usize = 5;

// The side of a request; any other one is that of a reply.
const REQUEST: u8 = 0;

// All memory: a case's body, the lent buffer, and the lengths of names.
fn main() {
    let mut body = [0u8; 2048];
    let mut out = [0u8; 1024];
    let mut lengths = [0u32; 16];
    answer_all(&mut body, &mut out, &mut lengths);
}

// A proved loop has to end, and nothing says that the input does. So the turns are counted down from a number that no run uses up.
fn answer_all(body: &mut [u8], out: &mut [u8], lengths: &mut [u32]) {
    let mut turns = u64::MAX;
    while turns > 0 {
        if !answer_next(body, out, lengths) {
            return;
        }
        turns -= 1;
    }
}

// Reads a case whole and answers it; false at the end of the input, and at a case that is not for this program.
fn answer_next(body: &mut [u8], out: &mut [u8], lengths: &mut [u32]) -> bool {
    let head = cases::read_head();
    let len = head.len;
    if (head.op != SHOWN) & (head.op != CALLED) {
        return false;
    }
    if !cases::read_body(cases::part_mut(body, len), len) {
        return false;
    }
    answer(head.op, cases::part(body, len), out, lengths);
    print::put(b"\n");
    true
}

fn answer(op: u8, body: &[u8], out: &mut [u8], lengths: &mut [u32]) {
    if op == CALLED {
        table::answer(body);
        return;
    }
    show(body, out, lengths);
}

fn show(body: &[u8], out: &mut [u8], lengths: &mut [u32]) {
    let room = cases::word_at(body, ROOM_PLACE) as usize;
    let m = cases::rest(body, MESSAGE_PLACE);
    let lent = cases::part_mut(out, room);
    if cases::byte_at(body, SIDE_PLACE) == REQUEST {
        show_request(m, lent);
    } else {
        show_reply(m, lent, lengths);
    }
}

// ---- a request

fn show_request(m: &[u8], out: &mut [u8]) {
    let answer = request_reader::read_request(m);
    print::put(b"request");
    print::put_part(request_parts::path(m, answer));
    print::put_part(request_parts::target(m, answer));
    print::put_part(request_parts::linkpath(m, answer));
    print::put_part(request_parts::old_path(m, answer));
    print::put_part(request_parts::new_path(m, answer));
    print::put_part(request_parts::data(m, answer));
    if let RequestAnswer::Known { id, request, .. } = answer {
        cases::fill(out);
        let written = request_rewriter::write_request(id, request, m, out);
        show_written(written, out);
    }
}

fn show_written(written: Written, out: &[u8]) {
    let len = written.len();
    print::put(b" ");
    match written {
        Written::Stored { .. } => {
            print::put(b"stored ");
            print::put_number(len as u64);
            print::put_hash(cases::part(out, len));
            print::put_hash(cases::rest(out, len));
        }
        Written::Refused { number, place } => {
            print::put_refusal(number, place);
            print::put_hash(out);
        }
    }
}

// ---- a reply

fn show_reply(m: &[u8], out: &mut [u8], lengths: &mut [u32]) {
    let answer = reply_reader::read_reply(m);
    print::put(b"reply");
    print::put_part(reply_parts::resolved(m, answer));
    print::put_part(reply_parts::data(m, answer));
    print::put_part(reply_parts::creds(m, answer));
    let first = names::open_answer(answer);
    show_names(m, first.left);
    if let ReplyAnswer::Success {
        id,
        result,
        reply,
        ..
    } = answer
    {
        show_collected(m, reply, out, lengths);
        cases::fill(out);
        let written = reply_rewriter::write_reply(id, result, reply, m, out);
        show_written(written, out);
    }
}

// The names that the iterator gives, and that it has ended behind them.
fn show_names(m: &[u8], count: u32) {
    let mut number = 0;
    while number < count {
        show_name(m, number);
        number += 1;
    }
    show_end(m, count);
}

// Shows a name: its place by the iterator's step, its length by the step's bytes, and its checksum by its number.
fn show_name(m: &[u8], number: u32) {
    let moved = names_iterator::nth_step(m, number);
    let step = moved.step;
    if let Step::Name { run, .. } = step {
        print::put(b" name=");
        print::put_number(run.start as u64);
        print::put(b":");
        print::put_number(names::name(m, step).len() as u64);
        print::put(b":");
        print::put_number(checksum::of_bytes(names_iterator::nth_name(m, number)));
    }
}

// Behind the last name, and once more behind that, the iterator says that there is none; and a name by its number shows no bytes.
fn show_end(m: &[u8], count: u32) {
    let further = if count < u32::MAX { count + 1 } else { count };
    let name = names_iterator::nth_name(m, count);
    if is_past(m, count) & is_past(m, further) & (name.len() == 0) {
        print::put(b" end");
    }
}

// Whether the iterator has no name of this number.
fn is_past(m: &[u8], number: u32) -> bool
    ensures { result ≡ is_past number m.now }
{
    let moved = names_iterator::nth_step(m, number);
    let step = moved.step;
    match step {
        Step::Name { .. } => false,
        Step::End { .. } => true,
    }
}

// The names of a readdir reply, collected; nothing for any other success.
fn show_collected(m: &[u8], reply: Reply, run: &mut [u8], lengths: &mut [u32]) {
    let Reply::Readdir { count } = reply else {
        return;
    };
    cases::fill(run);
    cases::fill_lengths(lengths);
    let collected = readdir_writer::collect_names(m, count, run, lengths);
    print::put(b" ");
    match collected {
        Collected::Copied { count, len } => {
            print::put(b"collected ");
            print::put_number(count as u64);
            print::put(b" ");
            print::put_number(len as u64);
        }
        Collected::Refused { number, place } => print::put_refusal(number, place),
    }
    print::put_hash(run);
    print::put_hash_of_lengths(lengths);
}
