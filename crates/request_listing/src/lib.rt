// The listing of a request, rendered into a lent buffer (document 01: the lister).
#![tactic(auto)]

ghost use Rattle.std.specs.Prelude.{◌≡◌, [], ◌∷◌, ◌≤◌, length};
ghost use Rattle.method.specs.Methods.{unknown as no_method};
ghost use Rattle.layout.specs.Writing.{stored};
ghost use Rattle.field_writer.specs.Stored.{Put};
ghost use Rattle.lines.specs.Lines.{line_text, Begins, AddsLines};
ghost use Rattle.message_writer.specs.Writers.{told_of, Writes};
ghost use Rattle.request_listing.specs.Listing.{first_line, closing_line, refusal_line, listing, listed, longest_listing};
ghost use Rattle.request_listing.specs.Rendered.{known_lines, answer_lines};

use message_writer::Written;
use request_reader::{Request, RequestAnswer};
use wire::Cursor;

// A listing of a request has no more bytes.
pub const LONGEST_LISTING: usize = 256;

// The listing of the request `m`, at the start of `out`; or `out` as it was, where it is too small for it. Refuses 7.
pub fn list_request(m: &[u8], out: &mut [u8]) -> Written
    ensures writes { Writes (listed m.now) out.entry out.exit result }
    ensures result_value { longest_listing ≤ length out.old → told_of result ≡ stored (length (listing m.now)) }
{
    let mut text = [0u8; LONGEST_LISTING];
    let len = render(m, &mut text);
    let place = field_writer::put_all(out, Cursor::START, &text[..len]);
    message_writer::finish(place)
}

// Its length, with the listing at the start of `out`.
fn render(m: &[u8], out: &mut [u8; LONGEST_LISTING]) -> usize
    ensures { Begins out.new (listing m.now) result }
{
    let answer = request_reader::read_request(m);
    let end = put_answer(out, Cursor::START, answer, m.len());
    end.at
}

// The lines for an answer to a message of `whole` bytes.
fn put_answer(out: &mut [u8], c: Cursor, answer: RequestAnswer, whole: usize) -> Cursor
    ensures { AddsLines out.old c (answer_lines answer whole) out.new result }
{
    match answer {
        RequestAnswer::Known { id, request, known } => put_known(out, c, id, request, known, whole),
        RequestAnswer::Unknown {
            id,
            type_number,
            known,
        } => put_unknown(out, c, id, type_number, known, whole),
        RequestAnswer::Refused { number, place } => put_refused(out, c, number, place),
    }
}

fn put_known(
    out: &mut [u8],
    c: Cursor,
    id: u32,
    request: Request,
    known: usize,
    whole: usize,
) -> Cursor
    ensures { AddsLines out.old c (known_lines id request known whole) out.new result }
{
    let behind_name = method_names::put_name(out, c, request.method());
    let behind_first = lines::put_number(out, behind_name, b" id", id as u64);
    let behind_fields = request_lines::put_fields(out, behind_first, request);
    put_closing(out, behind_fields, known, whole)
}

fn put_unknown(
    out: &mut [u8],
    c: Cursor,
    id: u32,
    type_number: u8,
    known: usize,
    whole: usize,
) -> Cursor
    ensures { AddsLines out.old c (first_line no_method type_number id ∷ closing_line known whole ∷ []) out.new result }
{
    let behind_first = lines::put_pair(out, c, b"unknown", type_number as u64, b"id", id as u64);
    put_closing(out, behind_first, known, whole)
}

fn put_refused(out: &mut [u8], c: Cursor, number: u8, place: usize) -> Cursor
    ensures { AddsLines out.old c (refusal_line number place ∷ []) out.new result }
{
    lines::put_pair(out, c, b"refused", number as u64, b"at", place as u64)
}

fn put_closing(out: &mut [u8], c: Cursor, known: usize, whole: usize) -> Cursor
    ensures { Put out.old c (line_text (closing_line known whole)) out.new result }
{
    lines::put_pair(out, c, b"known", known as u64, b"of", whole as u64)
}
