// Two tenants, one scratchpad, of the running functions: every writer, the front, the listing and the copying of names are run on two
// buffers, and promise that what they answer and the bytes that they report do not depend on what the buffers held, and that the bytes behind
// are those that were there.
#![tactic(auto)]

ghost use Rattle.std.specs.Prelude.{true, [], ◌∷◌};
ghost use Rattle.method.specs.declared.Method.TheVariants as methods;
ghost use Rattle.layout.specs.Table.{request as request_side, reply as reply_side, unknown_response};
ghost use Rattle.layout.specs.Values.{signed, run};
ghost use Rattle.layout.specs.Reading.{unknown, failure};
ghost use Rattle.layout.specs.Writing.{write, write_names};
ghost use Rattle.request_rewriter.specs.Rewriting.{rewriting as rewriting_request};
ghost use Rattle.reply_writer.specs.Replying.{replying};
ghost use Rattle.reply_rewriter.specs.Rewriting.{rewriting as rewriting_reply};
ghost use Rattle.readdir_writer.specs.Collecting.{names_in};
ghost use Rattle.request_listing.specs.Listing.{listed};
ghost use Rattle.isolation.specs.Alone.{WritesApart, FrontsApart, lent_both, CollectsApart};

use front::Fronted;
use message_writer::Written;
use readdir_writer::Collected;
use reply_reader::Reply;
use request_reader::Request;

// The answers of two runs.
#[derive(Drop)]
pub struct WrittenTwice {
    pub first: Written,
    pub second: Written,
}

// A request of any method: each request writer.
pub fn write_request_twice(
    id: u32,
    request: Request,
    texts: &[u8],
    out: &mut [u8],
    other: &mut [u8],
) -> WrittenTwice
    ensures { WritesApart (rewriting_request request id texts.now) result out other }
{
    let first = request_rewriter::write_request(id, request, texts, out);
    let second = request_rewriter::write_request(id, request, texts, other);
    WrittenTwice { first, second }
}

// A request of a type that is no method's.
pub fn write_unknown_twice(
    id: u32,
    type_number: u8,
    out: &mut [u8],
    other: &mut [u8],
) -> WrittenTwice
    ensures { WritesApart (write request_side unknown id type_number [] true) result out other }
{
    let first = request_writer::write_unknown(id, type_number, out);
    let second = request_writer::write_unknown(id, type_number, other);
    WrittenTwice { first, second }
}

// The success of any method with a result: each reply writer, and the names of a readdir reply as they lie in a message.
pub fn write_reply_twice(
    id: u32,
    res: i32,
    reply: Reply,
    message: &[u8],
    out: &mut [u8],
    other: &mut [u8],
) -> WrittenTwice
    ensures { WritesApart (rewriting_reply reply id res message.now) result out other }
{
    let first = reply_rewriter::write_reply(id, res, reply, message, out);
    let second = reply_rewriter::write_reply(id, res, reply, message, other);
    WrittenTwice { first, second }
}

// The success of readdir, its names given as a run and their lengths.
pub fn write_readdir_twice(
    id: u32,
    res: i32,
    names: &[u8],
    lengths: &[u32],
    out: &mut [u8],
    other: &mut [u8],
) -> WrittenTwice
    ensures { WritesApart (write_names id res lengths.now names.now) result out other }
{
    let first = readdir_writer::write_readdir(id, res, names, lengths, out);
    let second = readdir_writer::write_readdir(id, res, names, lengths, other);
    WrittenTwice { first, second }
}

// The reply that has no result.
pub fn write_getcreds_twice(id: u32, creds: &[u8], out: &mut [u8], other: &mut [u8]) -> WrittenTwice
    ensures { WritesApart (replying methods.Getcreds id (run creds.now ∷ [])) result out other }
{
    let first = reply_writer::write_getcreds(id, creds, out);
    let second = reply_writer::write_getcreds(id, creds, other);
    WrittenTwice { first, second }
}

// The failure of any method.
pub fn write_failure_twice(
    id: u32,
    type_number: u8,
    res: i32,
    out: &mut [u8],
    other: &mut [u8],
) -> WrittenTwice
    ensures { WritesApart (write reply_side failure id type_number (signed res ∷ []) true) result out other }
{
    let first = reply_writer::write_failure(id, type_number, res, out);
    let second = reply_writer::write_failure(id, type_number, res, other);
    WrittenTwice { first, second }
}

// The unknown response.
pub fn write_unknown_response_twice(id: u32, out: &mut [u8], other: &mut [u8]) -> WrittenTwice
    ensures { WritesApart (write reply_side unknown id unknown_response [] true) result out other }
{
    let first = reply_writer::write_unknown_response(id, out);
    let second = reply_writer::write_unknown_response(id, other);
    WrittenTwice { first, second }
}

// The listing of a request.
pub fn list_request_twice(message: &[u8], out: &mut [u8], other: &mut [u8]) -> WrittenTwice
    ensures { WritesApart (listed message.now) result out other }
{
    let first = request_listing::list_request(message, out);
    let second = request_listing::list_request(message, other);
    WrittenTwice { first, second }
}

// What the front told of each buffer.
#[derive(Drop)]
pub struct FrontedTwice {
    pub first: Fronted,
    pub second: Fronted,
}

// The front, on any request.
pub fn front_twice(request: &[u8], out: &mut [u8], other: &mut [u8]) -> FrontedTwice
    ensures { FrontsApart request.now result out other }
{
    let first = front::front(request, out);
    let second = front::front(request, other);
    FrontedTwice { first, second }
}

// What collecting names told of each pair of buffers.
#[derive(Drop)]
pub struct CollectedTwice {
    pub first: Collected,
    pub second: Collected,
}

// The names of a readdir reply, copied into two lent buffers: one for their bytes, one for their lengths.
pub fn collect_names_twice(
    m: &[u8],
    count: u32,
    run: &mut [u8],
    lengths: &mut [u32],
    other_run: &mut [u8],
    other_lengths: &mut [u32],
) -> CollectedTwice
    ensures { CollectsApart m.now (names_in m.now count) result (lent_both run lengths) (lent_both other_run other_lengths) }
{
    let first = readdir_writer::collect_names(m, count, run, lengths);
    let second = readdir_writer::collect_names(m, count, other_run, other_lengths);
    CollectedTwice { first, second }
}
