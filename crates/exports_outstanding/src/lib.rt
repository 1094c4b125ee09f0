// For a host: the table of outstanding requests, in words that the host lends. `outstanding_records` says what a word is.
#![tactic(auto)]

ghost use Rattle.std.specs.Prelude.{◌≡◌, List, ℕ, set};
ghost use Rattle.outstanding.specs.Calls.{empty as empty_in, enter as enter_in, look as look_at, seen as seen_of};
ghost use Rattle.outstanding_decisions.specs.Decisions as decided;
ghost use Rattle.outstanding_records.specs.Words.{word_of, records as records_of};
ghost use Rattle.outstanding_words.specs.Words.{after_words};
ghost use Rattle.exports.specs.Shown.{reading_of};
ghost use Rattle.exports_reading.specs.Typed.{typed};
ghost use Rattle.exports_outstanding.specs.Shown.{arriving, number_of, shown_of, looked_of};

use exports::TushaletsReading;
use outstanding_decisions::{Arrived, Entered, Found, Looked};
use outstanding_records::Record;
use wire::Refusal;

// A look into the table. `number` is 0 and `count` requests are outstanding; `held` is 1 and the request of the id has this type, or `held`
// and `type_number` are 0 and the id is not outstanding. Or `number` is a refusal's, and all else is 0.
#[repr(C)]
#[derive(Drop)]
pub struct TushaletsLooked {
    pub number: u32,
    pub held: u32,
    pub type_number: u32,
    pub count: usize,
}

// Frees every record. Answers 0, or the number of a refusal.
pub fn tushalets_empty(records: &mut [u64]) -> u32
    ensures value { result ≡ number_of (empty_in 0 records.old).told }
    ensures records_after { records.new ≡ (empty_in 0 records.old).table }
{
    if records.len() != outstanding_records::SIZE {
        return Refusal::UNSOUND_TABLE as u32;
    }
    records.fill(0);
    0
}

// Enters a request by its id and type. Answers 0, or the number of a refusal.
pub fn tushalets_enter(records: &mut [u64], id: u32, type_number: u8) -> u32
    ensures value { result ≡ number_of (enter_in (records_of records.old) id type_number).told }
    ensures records_after { records.new ≡ after_words (enter_in (records_of records.old) id type_number).change records.old }
{
    let entry = outstanding_decisions::enter(records, id, type_number);
    let record = entry.record;
    let answer = entry.answer;
    put(records, entry.at, record);
    number_of(answer)
}

// Takes an arriving reply: the reading of it, and its record is free; or a refusal, and no word has changed.
pub fn tushalets_arrive(records: &mut [u64], message: &[u8]) -> TushaletsReading
    ensures value { result ≡ reading_of (shown_of (arriving records.old message.now).told) }
    ensures records_after { records.new ≡ after_words (arriving records.old message.now).change records.old }
{
    let removal = outstanding_decisions::arrive(records, message);
    let answer = removal.answer;
    put(records, removal.at, Record::Free);
    reading_of(answer, field_reader::type_of(message))
}

// Shows how many requests are outstanding, and the one of an id.
pub fn tushalets_look(records: &[u64], id: u32) -> TushaletsLooked
    ensures { result ≡ looked_of (look_at (records_of records.now) id) }
{
    let looked = outstanding_decisions::look(records, id);
    looked_of(looked)
}

// Stores the word of a record at a place. A place past the end changes nothing.
fn put(records: &mut [u64], at: usize, r: Record)
    ensures { records.new ≡ set records.old at (word_of r) }
{
    if at < records.len() {
        records[at] = u64::from(r);
    }
}

// ---- answers in numbers

fn number_of(answer: Entered) -> u32
    ensures { result ≡ number_of (decided.told_of answer) }
{
    match answer {
        Entered::Done => 0,
        Entered::Refused { number, .. } => number as u32,
    }
}

// The reading of a reply of this type that was answered so.
fn reading_of(answer: Arrived, type_number: u8) -> TushaletsReading
    ensures { (m : List ℕ) → result ≡ reading_of (typed type_number (shown_of (decided.arrival_of m answer))) }
{
    match answer {
        Arrived::Answered { answer } => exports_reading::reply_reading(answer, type_number),
        Arrived::Refused { number, place } => exports_reading::refused(number, place),
    }
}

fn looked_of(looked: Looked) -> TushaletsLooked
    ensures { result ≡ looked_of (decided.looked_of looked) }
{
    match looked {
        Looked::Seen { count, found } => seen(count, found),
        Looked::Refused { number, .. } => TushaletsLooked {
            number: number as u32,
            held: 0,
            type_number: 0,
            count: 0,
        },
    }
}

fn seen(count: usize, found: Found) -> TushaletsLooked
    ensures { result ≡ looked_of (seen_of count (decided.found_of found)) }
{
    match found {
        Found::NotOutstanding => TushaletsLooked {
            number: 0,
            held: 0,
            type_number: 0,
            count,
        },
        Found::Outstanding { request } => TushaletsLooked {
            number: 0,
            held: 1,
            type_number: request.type_number as u32,
            count,
        },
    }
}
