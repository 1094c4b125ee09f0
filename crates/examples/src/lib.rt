// What README.md shows of the use from Rattle: a provider's turn, and a loop over the names of a readdir reply.
#![tactic(auto)]

ghost use Rattle.std.specs.Prelude.{◌≡◌};
ghost use Rattle.layout.specs.Writing.{length_of};
ghost use Rattle.message_writer.specs.Writers.{told_of};
ghost use Rattle.examples.specs.Turns.{RestKept};
ghost use Rattle.examples.specs.Longest.{greater as greater_of, longest_name};

use front::Fronted;
use message_writer::Written;
use method::Method;
use request_reader::{Request, RequestAnswer};

// The one handle that this provider gives.
const HANDLE: u64 = 1;
// ENOSYS: this provider does not have the method.
const NOT_IMPLEMENTED: i32 = -38;

// One request in; the length of the reply in `out`, 0 where there is none. Nothing behind the reply changes.
pub fn turn(message: &[u8], out: &mut [u8]) -> usize
    ensures { RestKept result out.old out.new }
{
    let fronted = front::front(message, out);
    match fronted {
        Fronted::Stored { len } => len,
        Fronted::Refused { .. } => 0,
        Fronted::HandedOn => serve(message, out),
    }
}

// A request that the front handed on is read, and answered by the file system.
fn serve(message: &[u8], out: &mut [u8]) -> usize
    ensures { RestKept result out.old out.new }
{
    let answer = request_reader::read_request(message);
    match answer {
        RequestAnswer::Known { id, request, .. } => {
            let written = reply(id, field_reader::type_of(message), request, out);
            written.len()
        }
        RequestAnswer::Unknown { .. } => 0,
        RequestAnswer::Refused { .. } => 0,
    }
}

// Your file system stands here, with an arm for each method. Path and data are parts of the message: `request_parts::path(message, answer)`.
fn reply(id: u32, request_type: u8, request: Request, out: &mut [u8]) -> Written
    ensures { RestKept (length_of (told_of result)) out.old out.new }
{
    match request {
        Request::Open { .. } => reply_writer::write_open(id, 0, HANDLE, out),
        Request::Read { .. } => reply_writer::write_read(id, 5, b"hello", out),
        Request::Release { .. } => reply_writer::write_release(id, 0, out),
        Request::Getcreds => reply_writer::write_getcreds(id, b"{}", out),
        _ => reply_writer::write_failure(
            id,
            request_type | Method::REPLY_OFFSET,
            NOT_IMPLEMENTED,
            out,
        ),
    }
}

// The length of the longest name of a readdir reply; 0 for any other message.
pub fn longest_name(message: &[u8]) -> usize
    ensures { result ≡ longest_name message.now }
{
    let mut position = names::open(message);
    let mut left = position.left;
    let mut longest = 0;
    while 0 < left {
        let step = names_iterator::step_from(message, position);
        let name = names::name(message, step);
        longest = greater(longest, name.len());
        position = names::behind(step);
        left -= 1;
    }
    longest
}

fn greater(a: usize, b: usize) -> usize
    ensures { result ≡ greater_of a b }
{
    if b <= a {
        return a;
    }
    b
}
