// Readers and writers against each other, of the running functions. What was read is written again by one call: the known part, or the
// refusal and the buffer as it was. What was written is read back with the same values.
#![tactic(auto)]

ghost use Rattle.std.specs.Prelude.{[], ◌∷◌};
ghost use Rattle.layout.specs.Table.{request as request_side, reply as reply_side, unknown_response};
ghost use Rattle.layout.specs.Values.{signed, run};
ghost use Rattle.layout.specs.Reading.{known, unknown, failure, success};
ghost use Rattle.message_writer.specs.Writers.{Writes};
ghost use Rattle.request_reader.specs.Answers.{type_of as request_type};
ghost use Rattle.reply_reader.specs.Answers.{type_of as reply_type};
ghost use Rattle.request_rewriter.specs.Rewriting.{values_in as request_values};
ghost use Rattle.reply_rewriter.specs.Rewriting.{values_in as reply_values};
ghost use Rattle.round_trip.specs.RoundTrip.{again, RequestReturns, ReplyReturns, NamesReturn, getcreds_reply};

use message_writer::Written;
use reply_reader::{Reply, ReplyAnswer};
use request_reader::{Request, RequestAnswer};

// The known part of the request `message` at the start of `out`; or the reader's refusal, or the writer's, and `out` as it was.
pub fn request_again(message: &[u8], out: &mut [u8]) -> Written
    ensures { Writes (again request_side message.now) out.entry out.exit result }
{
    let answer = request_reader::read_request(message);
    match answer {
        RequestAnswer::Known { id, request, .. } => request_rewriter::write_request(
            id, request, message, out,
        ),
        RequestAnswer::Unknown {
            id,
            type_number,
            ..
        } => request_writer::write_unknown(id, type_number, out),
        RequestAnswer::Refused { number, place } => Written::Refused { number, place },
    }
}

// A request that was written, and what it is read as.
#[derive(Drop)]
pub struct RequestBack {
    pub written: Written,
    pub answer: RequestAnswer,
}

// A request of any method is written, and what was stored is read. The texts and data of `request` stand in `texts`.
pub fn request_back(id: u32, request: Request, texts: &[u8], out: &mut [u8]) -> RequestBack
    ensures { RequestReturns known id (request_type request) (request_values texts.now request) out.entry out.exit result }
{
    let written = request_rewriter::write_request(id, request, texts, out);
    let answer = request_reader::read_request(&out[..written.len()]);
    RequestBack { written, answer }
}

// The same of a request of a type that is no method's.
pub fn unknown_request_back(id: u32, type_number: u8, out: &mut [u8]) -> RequestBack
    ensures { RequestReturns unknown id type_number [] out.entry out.exit result }
{
    let written = request_writer::write_unknown(id, type_number, out);
    let answer = request_reader::read_request(&out[..written.len()]);
    RequestBack { written, answer }
}

// The known part of the reply `message` at the start of `out`; or the reader's refusal, or the writer's, and `out` as it was.
pub fn reply_again(message: &[u8], out: &mut [u8]) -> Written
    ensures { Writes (again reply_side message.now) out.entry out.exit result }
{
    let answer = reply_reader::read_reply(message);
    match answer {
        ReplyAnswer::Success {
            id,
            result,
            reply,
            ..
        } => reply_rewriter::write_reply(id, result, reply, message, out),
        ReplyAnswer::Failure {
            id,
            type_number,
            result,
            ..
        } => reply_writer::write_failure(id, type_number, result, out),
        ReplyAnswer::Credentials { id, creds, .. } => reply_writer::write_getcreds(
            id,
            wire::bytes_of(message, creds),
            out,
        ),
        ReplyAnswer::UnknownResponse { id, .. } => reply_writer::write_unknown_response(id, out),
        ReplyAnswer::Refused { number, place } => Written::Refused { number, place },
    }
}

// A reply that was written, and what it is read as.
#[derive(Drop)]
pub struct ReplyBack {
    pub written: Written,
    pub answer: ReplyAnswer,
}

// The success of any method with a result is written, and what was stored is read. Its text, data or names stand in `message`.
pub fn reply_back(id: u32, res: i32, reply: Reply, message: &[u8], out: &mut [u8]) -> ReplyBack
    ensures { ReplyReturns success id (reply_type reply) (reply_values message.now res reply) out.entry out.exit result }
{
    let written = reply_rewriter::write_reply(id, res, reply, message, out);
    let answer = reply_reader::read_reply(&out[..written.len()]);
    ReplyBack { written, answer }
}

// The success of readdir, its names given as a run and their lengths.
pub fn readdir_back(id: u32, res: i32, names: &[u8], lengths: &[u32], out: &mut [u8]) -> ReplyBack
    ensures { NamesReturn id res lengths.now names.now out.entry out.exit result }
{
    let written = readdir_writer::write_readdir(id, res, names, lengths, out);
    let answer = reply_reader::read_reply(&out[..written.len()]);
    ReplyBack { written, answer }
}

// The reply that has no result.
pub fn getcreds_back(id: u32, creds: &[u8], out: &mut [u8]) -> ReplyBack
    ensures { ReplyReturns success id getcreds_reply (run creds.now ∷ []) out.entry out.exit result }
{
    let written = reply_writer::write_getcreds(id, creds, out);
    let answer = reply_reader::read_reply(&out[..written.len()]);
    ReplyBack { written, answer }
}

// The failure of any method.
pub fn failure_back(id: u32, type_number: u8, res: i32, out: &mut [u8]) -> ReplyBack
    ensures { ReplyReturns failure id type_number (signed res ∷ []) out.entry out.exit result }
{
    let written = reply_writer::write_failure(id, type_number, res, out);
    let answer = reply_reader::read_reply(&out[..written.len()]);
    ReplyBack { written, answer }
}

// The unknown response.
pub fn unknown_response_back(id: u32, out: &mut [u8]) -> ReplyBack
    ensures { ReplyReturns unknown id unknown_response [] out.entry out.exit result }
{
    let written = reply_writer::write_unknown_response(id, out);
    let answer = reply_reader::read_reply(&out[..written.len()]);
    ReplyBack { written, answer }
}
