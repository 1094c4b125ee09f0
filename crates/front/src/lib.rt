// The provider's front: a request that no file system is needed for is answered, and every known request is handed on. It knows the
// reader and the writer through their contracts alone.
#![tactic(auto)]

ghost use Rattle.std.specs.Prelude.{◌≡◌};
ghost use Rattle.layout.specs.Table.{HasFields};
ghost use Rattle.layout.specs.Front.{front as layout_front, unknown_reply, invalid_reply, reply-with, settle};
ghost use Rattle.message_writer.specs.Writers.{told_of};
ghost use Rattle.front.specs.Acts.{act_of, act_told, Fronts, RefusedWith};

use message_writer::Written;
use method::Method;
use request_reader::RequestAnswer;
use wire::Refusal;

// The result that answers an invalid request: EINVAL, negative.
const INVALID: i32 = -22;

// What the front tells.
#[derive(Clone, Copy)]
pub enum Fronted {
    // The request is for the file system.
    HandedOn,
    // So many bytes of a reply were stored.
    Stored { len: usize },
    // Document 01's number of refusal, and its place.
    Refused { number: u8, place: usize },
}

// Answers a request into `out`, or hands it on. A refusal changes no byte of `out`. Refuses 1, and 7 where a reply is to be stored.
pub fn front(request: &[u8], out: &mut [u8]) -> Fronted
    ensures { Fronts (layout_front request.now out.old) out.new result }
{
    let answer = request_reader::read_request(request);
    match answer {
        RequestAnswer::Known { .. } => Fronted::HandedOn,
        RequestAnswer::Unknown { id, .. } => answer_unknown(id, out),
        RequestAnswer::Refused { number, .. } => answer_refused(request, number, out),
    }
}

// A request that the reader refused. An oversize one is answered as unknown, whatever its type.
// Asks that `number` is the reader's refusal of this request: `front` passes it on.
fn answer_refused(request: &[u8], number: u8, out: &mut [u8]) -> Fronted
    requires { RefusedWith request.now number }
    ensures { Fronts (layout_front request.now out.old) out.new result }
{
    if number == Refusal::TRUNCATED_HEADER {
        return Fronted::Refused {
            number: Refusal::TRUNCATED_HEADER,
            place: 0,
        };
    }
    let header = field_reader::read_header(request).value;
    if number == Refusal::OVERSIZE {
        return answer_unknown(header.id, out);
    }
    answer_invalid(header.id, header.type_number, out)
}

// The unknown response.
fn answer_unknown(id: u32, out: &mut [u8]) -> Fronted
    ensures { Fronts (settle (reply-with (unknown_reply id)) out.old) out.new result }
{
    let written = reply_writer::write_unknown_response(id, out);
    told(written)
}

// The failure of the request's own method with EINVAL.
// Asks for a type that has fields: no other request is refused for them.
fn answer_invalid(id: u32, type_number: u8, out: &mut [u8]) -> Fronted
    requires { HasFields type_number }
    ensures { Fronts (settle (reply-with (invalid_reply id type_number)) out.old) out.new result }
{
    let written = reply_writer::write_failure(id, type_number + Method::REPLY_OFFSET, INVALID, out);
    told(written)
}

fn told(written: Written) -> Fronted
    ensures { act_of result ≡ act_told (told_of written) }
{
    match written {
        Written::Stored { len } => Fronted::Stored { len },
        Written::Refused { number, place } => Fronted::Refused { number, place },
    }
}
