// Where malformed text breaks (document 02, Item 2), as a claim over the running readers. A message that is refused so is read again, cut at
// that place, and is then refused where the string begins. So the string is found, and what holds of it is promised.
#![tactic(auto)]

ghost use Rattle.std.specs.Prelude.{◌≡◌, List, ℕ};
ghost use Rattle.layout.specs.Reading.{refused};
ghost use Rattle.layout.specs.Table.{request as request_side, reply as reply_side};
ghost use Rattle.wire.specs.Runs.{part_of};
ghost use Rattle.request_reader.specs.Answers.{answer_of as request_answer};
ghost use Rattle.reply_reader.specs.Answers.{answer_of as reply_answer};
ghost use Rattle.text_claim.specs.Claims.{place_of, string_from, FindsText};

use number::ReadU32;
use reply_reader::ReplyAnswer;
use request_reader::RequestAnswer;
use wire::{Refusal, Run};

// The answer to a request. Where that is malformed text, the string that breaks; otherwise the string is empty.
#[derive(Drop)]
pub struct RequestText {
    pub answer: RequestAnswer,
    pub string: Run,
}

// The same of a reply.
#[derive(Drop)]
pub struct ReplyText {
    pub answer: ReplyAnswer,
    pub string: Run,
}

// Reads a request, and finds the string that breaks.
pub fn find_in_request(m: &[u8]) -> RequestText
    ensures { FindsText request_side m.now (request_answer result.answer) (part_of result.string) }
{
    let answer = request_reader::read_request(m);
    let place = request_place(answer, Refusal::MALFORMED_TEXT);
    let cut = request_reader::read_request(&m[..place]);
    let start = request_place(cut, Refusal::TRUNCATED);
    RequestText {
        answer,
        string: string_from(m, start),
    }
}

// Reads a reply, and finds the string that breaks.
pub fn find_in_reply(m: &[u8]) -> ReplyText
    ensures { FindsText reply_side m.now (reply_answer m.now result.answer) (part_of result.string) }
{
    let answer = reply_reader::read_reply(m);
    let place = reply_place(answer, Refusal::MALFORMED_TEXT);
    let cut = reply_reader::read_reply(&m[..place]);
    let start = reply_place(cut, Refusal::TRUNCATED);
    ReplyText {
        answer,
        string: string_from(m, start),
    }
}

// The place of the refusal with this number, 0 where the answer is another.
fn request_place(answer: RequestAnswer, wanted: u8) -> usize
    ensures { result ≡ place_of wanted (request_answer answer) }
{
    match answer {
        RequestAnswer::Known { .. } => 0,
        RequestAnswer::Unknown { .. } => 0,
        RequestAnswer::Refused { number, place } => place_of(number, place, wanted),
    }
}

// The same of an answer to a reply.
fn reply_place(answer: ReplyAnswer, wanted: u8) -> usize
    ensures { (m : List ℕ) → result ≡ place_of wanted (reply_answer m answer) }
{
    match answer {
        ReplyAnswer::Success { .. } => 0,
        ReplyAnswer::Credentials { .. } => 0,
        ReplyAnswer::Failure { .. } => 0,
        ReplyAnswer::UnknownResponse { .. } => 0,
        ReplyAnswer::Refused { number, place } => place_of(number, place, wanted),
    }
}

// The place of a refusal, if it has this number.
fn place_of(number: u8, place: usize, wanted: u8) -> usize
    ensures { result ≡ place_of wanted (refused number place) }
{
    if number == wanted {
        return place;
    }
    0
}

// The string whose bytes begin at `start`, by the length that stands before them; empty where none does.
fn string_from(m: &[u8], start: usize) -> Run
    ensures { part_of result ≡ string_from m.now start }
{
    if start < Run::LENGTH_SIZE {
        return Run::EMPTY;
    }
    let len = number::read_u32(m, start - Run::LENGTH_SIZE);
    match len {
        ReadU32::Whole(len) => Run {
            start,
            len: len as usize,
        },
        ReadU32::Truncated => Run::EMPTY,
    }
}
