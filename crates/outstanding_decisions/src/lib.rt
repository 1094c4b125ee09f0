// What a call on the table of outstanding requests comes to: the answer, and the one record that changes. `enter`, `arrive` and `look`
// decide on a table of words that is lent, and first ask whether it is sound. `insert` and `settle` are what follows, for a caller that
// keeps its table sound. `decide_entry`, `decide_arrival` and `decide_look` decide for records that a service lends, on a copy of them.
#![tactic(auto)]

ghost use Rattle.std.specs.Prelude.{◌≡◌, List, ℕ, ◌<◌, length};
ghost use Rattle.std.proofs.Math.Option.{some};
ghost use Rattle.layout.specs.Table.{reply as reply_side};
ghost use Rattle.layout.specs.Reading.{read};
ghost use Rattle.reply_reader.specs.Answers.{answer_of};
ghost use Rattle.outstanding_records.specs.declared.Record.{Record as RecordType};
ghost use Rattle.outstanding_records.specs.Copies.{Copied};
ghost use Rattle.outstanding.specs.Records.{lookup};
ghost use Rattle.layout.specs.Refusals.{unsound_table};
ghost use Rattle.outstanding.specs.Calls.{request as request_of, refused as refused_told, insert as insert_in, enter as enter_in, answers as answers_to, settle_accepted, settle as settle_in, arrive as arrive_in, look as look_at, not_seen as not_seen};
ghost use Rattle.outstanding_records.specs.Words.{records as records_of};
ghost use Rattle.outstanding_decisions.specs.Decisions.{told_of, found_of, looked_of, EntryDecided, RemovalDecided, request_in, reading_of};

use method::Method;
use outstanding_records::{Record, Request, SIZE};
use reply_reader::ReplyAnswer;
use wire::Refusal;

// What emptying and entering answer.
#[derive(Clone, Copy)]
pub enum Entered {
    // It was done.
    Done,
    // A number of refusal, and its place.
    Refused { number: u8, place: usize },
}

// What an arriving reply answers: all that its reader shows of it, or a refusal.
#[derive(Clone, Copy)]
pub enum Arrived {
    // The reply answers an outstanding request, which is no longer outstanding.
    Answered { answer: ReplyAnswer },
    // A number of refusal, and its place.
    Refused { number: u8, place: usize },
}

// The request of an id that was looked for.
#[derive(Clone, Copy)]
pub enum Found {
    // No request with this id is outstanding.
    NotOutstanding,
    // This one is.
    Outstanding { request: Request },
}

// What a look shows: how many requests are outstanding, and that of one id.
#[derive(Clone, Copy)]
pub enum Looked {
    // So many requests are outstanding, and what was found of the id.
    Seen { count: usize, found: Found },
    // A number of refusal, and its place.
    Refused { number: u8, place: usize },
}

// An entry decided: the record to be stored and its place, past the end where nothing is stored.
#[derive(Clone, Copy)]
pub struct Entry {
    pub at: usize,
    pub record: Record,
    pub answer: Entered,
}

// A removal decided: the place of the record to be freed, past the end where none is.
#[derive(Clone, Copy)]
pub struct Removal {
    pub at: usize,
    pub answer: Arrived,
}

// ---- entering

fn refused_entry(len: usize, number: u8) -> Entry
    ensures { (told_of result.answer ≡ refused_told number 0) × (result.at ≡ len) × (result.record ≡ Record.Free) }
{
    Entry {
        at: len,
        record: Record::Free,
        answer: Entered::Refused { number, place: 0 },
    }
}

// What entering an id and a type comes to behind the test of soundness, for every table. Refuses 3, 10, 11.
pub fn insert(words: &[u64], id: u32, type_number: u8) -> Entry
    ensures { EntryDecided (records_of words.now) result (insert_in (records_of words.now) id type_number) }
{
    let len = words.len();
    if type_number >= Method::REPLY_OFFSET {
        return refused_entry(len, Refusal::UNEXPECTED_TYPE);
    }
    if outstanding_words::find_id(words, id).is_some() {
        return refused_entry(len, Refusal::ID_OUTSTANDING);
    }
    let Some(at) = outstanding_words::find_free(words) else {
        return refused_entry(len, Refusal::TABLE_FULL);
    };
    let request = Request { type_number };
    Entry {
        at,
        record: Record::Held { id, request },
        answer: Entered::Done,
    }
}

// What entering an id and a type comes to. Refuses 20, 3, 10, 11.
pub fn enter(words: &[u64], id: u32, type_number: u8) -> Entry
    ensures { EntryDecided (records_of words.now) result (enter_in (records_of words.now) id type_number) }
{
    if !outstanding_words::is_sound(words) {
        return refused_entry(words.len(), Refusal::UNSOUND_TABLE);
    }
    insert(words, id, type_number)
}

// The same for `len` records of which `table` is a copy.
pub fn decide_entry(len: usize, table: [Record; SIZE], id: u32, type_number: u8) -> Entry
    ensures { (l : List RecordType) → length l ≡ len → Copied l table
        → EntryDecided l result (enter_in l id type_number) }
{
    if len != SIZE {
        return refused_entry(len, Refusal::UNSOUND_TABLE);
    }
    let words = outstanding_words::words_of(table);
    enter(&words, id, type_number)
}

// ---- an arriving reply

// Whether a reply was accepted by its reader.
#[derive(Clone, Copy)]
enum Reading {
    Accepted { id: u32 },
    Refused { number: u8, place: usize },
}

fn reading_of(answer: ReplyAnswer) -> Reading
    ensures { result ≡ reading_of answer }
{
    match answer {
        ReplyAnswer::Success { id, .. } => Reading::Accepted { id },
        ReplyAnswer::Failure { id, .. } => Reading::Accepted { id },
        ReplyAnswer::Credentials { id, .. } => Reading::Accepted { id },
        ReplyAnswer::UnknownResponse { id, .. } => Reading::Accepted { id },
        ReplyAnswer::Refused { number, place } => Reading::Refused { number, place },
    }
}

// Whether a reply of a type answers the request that a record holds.
fn answers(r: Record, reply: u8) -> bool
    ensures { result ≡ answers_to reply (request_in r) }
{
    match r {
        Record::Free => false,
        Record::Held { request, .. } => is_answer(request.type_number, reply),
    }
}

fn is_answer(asked: u8, reply: u8) -> bool
    ensures { result ≡ answers_to reply (some (request_of asked)) }
{
    (reply as u16 == asked as u16 + Method::REPLY_OFFSET as u16)
        | (reply == Method::UNKNOWN_RESPONSE)
}

fn refused_removal(len: usize, number: u8, place: usize) -> Removal
    ensures { (result.at ≡ len) × (result.answer ≡ Arrived.Refused number place) }
{
    Removal {
        at: len,
        answer: Arrived::Refused { number, place },
    }
}

// What a reply with this id and type comes to, which its reader accepted.
fn settle_accepted(words: &[u64], id: u32, type_number: u8, answer: ReplyAnswer) -> Removal
    ensures { (m : List ℕ) → RemovalDecided (records_of words.now) m result
        (settle_accepted (records_of words.now) id type_number (answer_of m answer)) }
{
    let len = words.len();
    let Some(at) = outstanding_words::find_id(words, id) else {
        return refused_removal(len, Refusal::ID_NOT_OUTSTANDING, 0);
    };
    if !answers(Record::from(words[at]), type_number) {
        return refused_removal(len, Refusal::TYPE_MISMATCH, 0);
    }
    Removal {
        at,
        answer: Arrived::Answered { answer },
    }
}

// What an arriving reply comes to behind the test of soundness, for every table. Refuses what the reader refuses, 12, 13.
pub fn settle(words: &[u64], message: &[u8]) -> Removal
    ensures { RemovalDecided (records_of words.now) message.now result
        (settle_in (records_of words.now) (read reply_side message.now)) }
{
    let answer = reply_reader::read_reply(message);
    let reading = reading_of(answer);
    match reading {
        Reading::Accepted { id } => {
            settle_accepted(words, id, field_reader::type_of(message), answer)
        }
        Reading::Refused { number, place } => refused_removal(words.len(), number, place),
    }
}

// What an arriving reply comes to. Refuses 20, what the reader refuses, 12, 13.
pub fn arrive(words: &[u64], message: &[u8]) -> Removal
    ensures { RemovalDecided (records_of words.now) message.now result
        (arrive_in (records_of words.now) (read reply_side message.now)) }
{
    if !outstanding_words::is_sound(words) {
        return refused_removal(words.len(), Refusal::UNSOUND_TABLE, 0);
    }
    settle(words, message)
}

// The same for `len` records of which `table` is a copy.
pub fn decide_arrival(len: usize, table: [Record; SIZE], message: &[u8]) -> Removal
    ensures { (l : List RecordType) → length l ≡ len → Copied l table
        → RemovalDecided l message.now result (arrive_in l (read reply_side message.now)) }
{
    if len != SIZE {
        return refused_removal(len, Refusal::UNSOUND_TABLE, 0);
    }
    let words = outstanding_words::words_of(table);
    arrive(&words, message)
}

// ---- a look

fn refused_look() -> Looked
    ensures { looked_of result ≡ not_seen unsound_table 0 }
{
    Looked::Refused {
        number: Refusal::UNSOUND_TABLE,
        place: 0,
    }
}

fn request_of(words: &[u64], id: u32) -> Found
    ensures { found_of result ≡ lookup (records_of words.now) id }
{
    let Some(at) = outstanding_words::find_id(words, id) else {
        return Found::NotOutstanding;
    };
    match Record::from(words[at]) {
        Record::Free => Found::NotOutstanding,
        Record::Held { request, .. } => Found::Outstanding { request },
    }
}

// What a look for an id shows. Refuses 20.
pub fn look(words: &[u64], id: u32) -> Looked
    ensures { looked_of result ≡ look_at (records_of words.now) id }
{
    if !outstanding_words::is_sound(words) {
        return refused_look();
    }
    let count = outstanding_words::count(words);
    let found = request_of(words, id);
    Looked::Seen { count, found }
}

// The same for `len` records of which `table` is a copy.
pub fn decide_look(len: usize, table: [Record; SIZE], id: u32) -> Looked
    ensures { (l : List RecordType) → length l ≡ len → Copied l table → looked_of result ≡ look_at l id }
{
    if len != SIZE {
        return refused_look();
    }
    let words = outstanding_words::words_of(table);
    look(&words, id)
}
